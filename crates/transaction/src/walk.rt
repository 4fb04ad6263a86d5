// The walk over a phase's rules: visit by visit, and what each closed unit gives.
ghost use Rattle.std.specs.Prelude.{◌≡◌, cond, ℕ, ◌+◌, ◌*◌, ◌^◌, ◌≤◌, ◌<◌, min, List, [], ◌∷◌, length, get_or, None};
ghost use Rattle.reading.specs.Numbers.{verdict_number, mode_of_number};
ghost use Rattle.reading.specs.Controls.{mode_or};
ghost use Rattle.control.specs.Halving.{found_by_halving};
ghost use Rattle.reading.specs.Call.{no_rule, record_id};
ghost use Rattle.reading.specs.Records.{rule_list, marker_list, journal_list, matched_in, given_of};
ghost use Rattle.reading.specs.declared.Marker.{Marker};
ghost use Rattle.reading.specs.Walk.{verdict_by};
ghost use Rattle.reading.specs.Outcome.{at_free_end};
ghost use Rattle.unit.specs.VisitRule.{found_at};
ghost use Rattle.transaction.specs.WalkRules.{walk_lists, fresh, Ready, Walked, start_of, Room, left_under, UnitClosed};

use crate::outcome;
use crate::types::{AfterUnit, End, Phase, Transaction, WalkState};
use apply::append::{ControlArrays, ControlCounts};
use apply::run;
use control::fields;
use control::state::Controls;
use intervention::build;
use intervention::decide::Ending;
use reading::{CallSettings, Intervention, Verdict, limits, widths};
use unit::close::UnitOutcome;
use unit::visit::{State, VisitOutcome};
use unit::{close, visit};

// Visits the rule that the walk stands at, under the held ranges, which have the merged form, and writes it after the journal's entries.
fn visit_next<'a>(
    at: WalkState,
    rules: &[u64],
    outcomes: &[u8],
    starts: &'a [u64; limits::RANGES],
    ends: &'a [u64; limits::RANGES],
    journal: &mut [u64],
) -> VisitOutcome
    requires { 2 * at.visits + 2 ≤ length journal.old }
    ensures value { result ≡ found_at (rule_list rules.now) at.state at.visits
        (cond (found_by_halving (min at.counts.ranges 256) starts.now ends.now (record_id (get_or (rule_list rules.now) at.state.next no_rule)))
        Verdict.Removed (verdict_by (get_or outcomes.now at.state.next 0))) }
    ensures journal_after { journal.new ≡ at_free_end (2 * at.visits) journal.old (at.state.next ∷ verdict_number result.verdict ∷ []) }
{
    let state = at.state;
    let visits = at.visits;
    let next = state.next;
    let found = visit::verdict_at(rules, outcomes, next, starts, ends, at.counts.ranges);
    let place = widths::JOURNAL_ENTRY * visits;
    journal[place] = next as u64;
    journal[place + 1] = visit::verdict_number(found);
    visit::visit(rules, state, visits, found)
}

// Where a unit leaves the walk, by what it gave and the settings and counts after its controls.
fn leave_unit(
    at: WalkState,
    u: UnitOutcome,
    h: ControlCounts,
    call: CallSettings,
    members: &[u64],
    rules: &[u64],
    actions: &[u64],
) -> AfterUnit
    requires { (at.ids + u.ids < 2 ^ 64) × (at.entries + u.entries < 2 ^ 64) }
    ensures { (markers : List Marker) (text outcomes : List ℕ)
        → result ≡ left_under (mode_or (mode_of_number call.mode) h.settings.mode)
        (given_of call rules.now actions.now markers text outcomes) (matched_in (journal_list members.now)) at u h }
{
    let ruleset_mode = fields::mode_of_number(call.mode);
    let end = outcome::turn_end(u, ruleset_mode, h);
    let state = State {
        next: u.next,
        chain: at.state.chain,
    };
    let moved = WalkState {
        state,
        visits: at.visits,
        ids: at.ids + u.ids,
        entries: at.entries + u.entries,
        counts: h,
    };
    if end.last {
        let ending = end.ending;
        let stop = build::build_intervention(ending, members, rules, actions, call);
        return AfterUnit::Ends(End {
            ending,
            at: moved,
            stop,
        });
    }
    AfterUnit::GoesOn(moved)
}

// Closes the unit whose last rule was visited, and whose first entry in the journal stands at `first`: its id and data entries
// are written at the free ends of their lists, and its controls apply; then its flow and its disruptive action say where the
// walk is left.
fn finish_unit(
    at: WalkState,
    first: usize,
    call: CallSettings,
    rules: &[u64],
    actions: &[u64],
    markers: &[u64],
    text: &[u8],
    outcomes: &[u8],
    codes: &[u16],
    ids: &mut [u64],
    entries: &mut [u64],
    journal: &[u64],
    arrays: &mut ControlArrays,
) -> AfterUnit
    requires { Room at first ids.old entries.old journal.now }
    ensures { UnitClosed (given_of call rules.now actions.now (marker_list markers.now) text.now outcomes.now)
        codes.now at first ids.old entries.old journal.now arrays.old.starts arrays.old.ends arrays.old.phases arrays.old.positions
        result ids.new entries.new arrays.new.starts arrays.new.ends arrays.new.phases arrays.new.positions }
{
    let from = widths::JOURNAL_ENTRY * first;
    let to = widths::JOURNAL_ENTRY * at.visits;
    let members = &journal[from..to];
    let listed = at.ids;
    let free = widths::DATA_ENTRY * at.entries;
    let u = close::close_unit(
        at.state.next,
        call,
        members,
        rules,
        actions,
        markers,
        text,
        outcomes,
        &mut ids[listed..],
        &mut entries[free..],
    );
    let counts = at.counts;
    let h = run::unit_controls(
        counts, members, rules, actions, text, codes, call.phase, arrays,
    );
    leave_unit(at, u, h, call, members, rules, actions)
}

// Before the first rule.
fn start(t: Transaction) -> WalkState
    ensures { result ≡ start_of t }
{
    let settings = t.controls.settings;
    WalkState {
        state: State {
            next: 0,
            chain: None,
        },
        visits: 0,
        ids: t.ids,
        entries: t.entries,
        counts: ControlCounts {
            settings,
            ranges: t.controls.ranges,
            targets: t.controls.targets,
            added: false,
        },
    }
}

// An end without an intervention.
fn end_at(ending: Ending, at: WalkState) -> End
    ensures { result ≡ record { ending = ending; at = at; stop = None } }
{
    End {
        ending,
        at,
        stop: None,
    }
}

// The walk from the first rule on, where nothing stands against it. The controls' arrays are a local, lent where they are read
// and where a closed unit changes them; the controls are made up again at the end.
pub fn walk_rules(
    t: Transaction,
    call: CallSettings,
    rules: &[u64],
    actions: &[u64],
    markers: &[u64],
    text: &[u8],
    outcomes: &[u8],
    codes: &[u16],
    ids: &mut [u64],
    entries: &mut [u64],
    journal: &mut [u64],
) -> Phase
    requires { Ready (given_of call rules.now actions.now (marker_list markers.now) text.now outcomes.now) (fresh t) codes.now (walk_lists ids.old entries.old journal.old) }
    ensures { Walked (given_of call rules.now actions.now (marker_list markers.now) text.now outcomes.now) (fresh t)
        (walk_lists ids.old entries.old journal.old) result (walk_lists ids.new entries.new journal.new) }
{
    let Controls {
        starts,
        ends,
        phases,
        positions,
        ..
    } = t.controls;
    let mut arrays = ControlArrays {
        starts,
        ends,
        phases,
        positions,
    };
    let mut at = start(t);
    let n = rules.len() / widths::RULE;
    // an index, and no `for`: a visit and a unit's flow say where the walk goes on
    while at.state.next < n {
        let v = visit_next(at, rules, outcomes, &arrays.starts, &arrays.ends, journal);
        at.visits += 1;
        if visit::is_error(v) {
            return outcome::ended(end_at(Ending::Errs, at), arrays);
        }
        at.state = v.after;
        let Some(first) = v.closes else {
            continue; // missed, removed, or a matched link, which waits
        };
        let left = finish_unit(
            at,
            first,
            call,
            rules,
            actions,
            markers,
            text,
            outcomes,
            codes,
            ids,
            entries,
            journal,
            &mut arrays,
        );
        at = match left {
            AfterUnit::GoesOn(next) => next,
            AfterUnit::Ends(end) => return outcome::ended(end, arrays),
        };
    }
    outcome::ended(end_at(Ending::GoesOn, at), arrays)
}
