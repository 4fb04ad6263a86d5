// The phase call as a host makes it: its transaction is a record of numbers alone, for no enum crosses to C or Rust, and its markers
// are unpacked to numbers. The record is read, the call made by value, and the record written anew. A record with a number that is
// not known is refused as it is. The parts of a record are those of the modules values, host_controls and host_intervention.
ghost use Rattle.std.specs.Prelude.{◌≡◌, ◌/◌, take};
ghost use Rattle.reading.specs.Call.{Call};
ghost use Rattle.reading.specs.Numbers.{refusal_number};
ghost use Rattle.refusals.specs.FirstRefusal.{Counted};
ghost use Rattle.reading.specs.Records.{marker_list, given_of, lent};
ghost use Rattle.transaction.specs.RunPhase.{answer_without};
ghost use Rattle.abi.specs.HostRecord.{from_host, to_host, known};
ghost use Rattle.abi.specs.HostCall.{lent_words, lent_part, unknown_answer, sizes_of, HostRan};

use crate::host_controls::HostControls;
use crate::host_intervention::HostIntervention;
use crate::marker_words::MarkerWords;
use crate::{host_controls, host_intervention, marker_words, values};
use control::fields;
use reading::{CallSettings, Refusal, widths};
use refusals::first;
use refusals::first::{Counts, Sizes};
use transaction::types::{Answer, Transaction};
use transaction::{outcome, run_phase};

// A transaction as a host lends it.
#[repr(C)]
#[derive(Clone, Copy)]
pub struct HostTransaction {
    // What directives have set.
    pub controls: HostControls,
    // 1 where the request is allowed, else 0.
    pub allowed: u64,
    // What stops the request.
    pub intervention: HostIntervention,
    // How many matched ids are in use.
    pub ids: u64,
    // How many data entries are in use.
    pub entries: u64,
}

// The answer, and the record after the call.
#[derive(Clone, Copy)]
pub struct HostPhase {
    pub answer: Answer,
    pub transaction: HostTransaction,
}

// Whether every number is known.
#[tactic(auto, unfolding(crate::specs::HostRecord::known))]
pub fn is_known(h: HostTransaction) -> bool
    ensures { result ≡ known h }
{
    values::is_flag(h.allowed)
        && host_controls::is_known_controls(h.controls)
        && host_intervention::is_intervention_known(h.intervention)
}

impl From<HostTransaction> for Transaction {
    ghost from_gives = { λ h t. t ≡ from_host h };

    #[tactic(auto, unfolding(crate::specs::HostRecord::from_host))]
    fn from(h: HostTransaction) -> Transaction {
        Transaction {
            controls: h.controls.into(),
            allowed: values::flag_of(h.allowed),
            intervention: h.intervention.into(),
            ids: h.ids as usize,
            entries: h.entries as usize,
        }
    }
}

impl From<Transaction> for HostTransaction {
    ghost from_gives = { λ t h. h ≡ to_host t };

    #[tactic(auto, unfolding(crate::specs::HostRecord::to_host))]
    fn from(t: Transaction) -> HostTransaction {
        HostTransaction {
            controls: t.controls.into(),
            allowed: values::flag_number(t.allowed),
            intervention: t.intervention.into(),
            ids: t.ids as u64,
            entries: t.entries as u64,
        }
    }
}

// How many numbers of unpacked markers are lent on: those of the first 257. That is still more than a call takes, so the call answers
// as for the whole list.
fn word_count(count: usize) -> usize
    ensures { result ≡ lent_words count }
{
    widths::MARKER * count.min(marker_words::ROOM)
}

// Those numbers.
fn lent_words(words: &[u64; marker_words::NUMBERS], count: usize) -> &[u64]
    ensures { result.now ≡ take (lent_words count) words.now }
{
    &words[..word_count(count)]
}

// How many records lists of so many numbers have, with the bytes of the text and the outcomes.
fn counts_of(rules: usize, actions: usize, words: usize, bytes: usize, outcomes: usize) -> Counts
    ensures { result ≡ record { rules = rules / 5; actions = actions / 6; markers = words / 3; bytes = bytes; outcomes = outcomes } }
{
    Counts {
        rules: rules / widths::RULE,
        actions: actions / widths::ACTION,
        markers: words / widths::MARKER,
        bytes,
        outcomes,
    }
}

// What the record counts, and how many entries lists of so many numbers have.
fn sizes_of(h: HostTransaction, ids: usize, entries: usize) -> Sizes
    ensures { result ≡ sizes_of h ids entries }
{
    Sizes {
        bad_controls: fields::is_bad(
            &h.controls.starts,
            &h.controls.ends,
            h.controls.ranges as usize,
            h.controls.targets as usize,
        ),
        ids_used: h.ids as usize,
        entries_used: h.entries as usize,
        ids,
        entries: entries / widths::DATA_ENTRY,
    }
}

// Why a record with a number that is not known is refused: that is refusal 5, and refusals 1 to 4 go first.
fn unknown_answer(call: CallSettings, counts: Counts, sizes: Sizes) -> Refusal
    ensures { (q : Call) → Counted q call counts sizes → refusal_number result ≡ unknown_answer q }
{
    match first::early_refusal(call, counts, sizes) {
        Ok(()) => Refusal::Record,
        Err(refusal) => refusal,
    }
}

// An answer that leaves the record as it was.
fn as_lent(answer: u64, h: HostTransaction) -> HostPhase
    ensures { result ≡ record { answer = answer_without answer; transaction = h } }
{
    HostPhase {
        answer: outcome::unvisited(answer),
        transaction: h,
    }
}

// The phase call. Known numbers are read and written back as they were, but for an intervention that is absent: what else its
// record holds is lost. So without a visit the intervention is put back as lent, and with it the whole record is. The record isn't
// kept whole for that: a copy of it costs as much as twenty rules.
pub fn host_phase(
    h: HostTransaction,
    call: CallSettings,
    rules: &[u64],
    actions: &[u64],
    markers: MarkerWords,
    text: &[u8],
    outcomes: &[u8],
    ids: &mut [u64],
    entries: &mut [u64],
    journal: &mut [u64],
) -> HostPhase
    ensures { HostRan h (given_of call rules.now actions.now (marker_list (lent_part markers)) text.now outcomes.now)
        (lent ids.old entries.old journal.old) result.answer result.transaction (lent ids.new entries.new journal.new) }
{
    let words = lent_words(&markers.words, markers.count);
    if !is_known(h) {
        let counts = counts_of(
            rules.len(),
            actions.len(),
            words.len(),
            text.len(),
            outcomes.len(),
        );
        let sizes = sizes_of(h, ids.len(), entries.len());
        return as_lent(unknown_answer(call, counts, sizes).number(), h);
    }
    let p = run_phase::run_phase(
        h.into(),
        call,
        rules,
        actions,
        words,
        text,
        outcomes,
        ids,
        entries,
        journal,
    );
    let mut transaction: HostTransaction = p.transaction.into();
    if p.answer.visits == 0 {
        transaction.intervention = h.intervention;
    }
    HostPhase {
        answer: p.answer,
        transaction,
    }
}
