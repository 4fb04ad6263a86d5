// The phase call (`Transaction::run_phase` in engine/transaction.rs), by value: transaction in, transaction and answer out.
ghost use Rattle.std.specs.Prelude.{◌≡◌, ◌/◌};
ghost use Rattle.reading.specs.Controls.{bad_controls};
ghost use Rattle.reading.specs.Records.{marker_list, given_of, lent};
ghost use Rattle.control.specs.ControlsStruct.{controls_of};
ghost use Rattle.transaction.specs.RunPhase.{answer_without, Ran};

use crate::types::{Phase, Transaction};
use crate::{outcome, walk};
use apply::codes;
use control::fields;
use reading::{CallSettings, limits, widths};
use refusals::first::{Room, Sizes};
use refusals::{first, totals};
use report::verdicts;

// An answer that leaves the transaction as it was.
fn as_lent(answer: u64, t: Transaction) -> Phase
    ensures { result ≡ record { answer = answer_without answer; transaction = t } }
{
    Phase {
        answer: outcome::unvisited(answer),
        transaction: t,
    }
}

// What the transaction counts, and how many entries lists of so many numbers have.
fn sizes_of(t: Transaction, ids: usize, entries: usize) -> Sizes
    ensures { result ≡ record {
      bad_controls = bad_controls (controls_of t.controls);
      ids_used = t.ids;
      entries_used = t.entries;
      ids = ids;
      entries = entries / 4;
    } }
{
    Sizes {
        bad_controls: t.controls.is_bad(),
        ids_used: t.ids,
        entries_used: t.entries,
        ids,
        entries: entries / widths::DATA_ENTRY,
    }
}

// The phase call. Refusals first, in their order; a refused call leaves everything as it was lent. Ids and data entries are
// written at the free ends of their lists, the journal from its start.
pub fn run_phase(
    t: Transaction,
    call: CallSettings,
    rules: &[u64],
    actions: &[u64],
    markers: &[u64],
    text: &[u8],
    outcomes: &[u8],
    ids: &mut [u64],
    entries: &mut [u64],
    journal: &mut [u64],
) -> Phase
    ensures { Ran (given_of call rules.now actions.now (marker_list markers.now) text.now outcomes.now) t
        (lent ids.old entries.old journal.old) result (lent ids.new entries.new journal.new) }
{
    let sizes = sizes_of(t, ids.len(), entries.len());
    let room = Room {
        journal: journal.len() / widths::JOURNAL_ENTRY,
    };
    if let Err(refusal) = first::first_refusal(
        call, rules, actions, markers, text, outcomes, sizes, room,
    ) {
        return as_lent(refusal.number(), t); // 1 to 7
    }
    let mut codes = [0u16; limits::ACTIONS];
    let some_unsupported = codes::write_codes(actions, text, &mut codes);
    let used = actions.len() / widths::ACTION;
    let held = t.controls;
    if let Err(refusal) = totals::limit_refusal(rules, &codes[..used], held.ranges, held.targets) {
        return as_lent(refusal.number(), t); // 8 or 9
    }
    let ruleset_mode = fields::mode_of_number(call.mode);
    let n = rules.len() / widths::RULE;
    if outcome::is_idle(t.allowed, t.intervention, ruleset_mode, held.settings, n) {
        return as_lent(0, t);
    }
    let mut p = walk::walk_rules(
        t, call, rules, actions, markers, text, outcomes, &codes, ids, entries, journal,
    );
    let visited = widths::JOURNAL_ENTRY * p.answer.visits as usize;
    p.answer.report = verdicts::tell(&journal[..visited], rules, &codes, some_unsupported);
    p
}
