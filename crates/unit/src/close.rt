// What a closed unit gives: its starter's id and its members' data entries, written to the free parts of the lent lists, and
// what its starter's actions say of the flow and of the request.
ghost use Rattle.std.specs.Prelude.{◌≡◌, ◌&&◌, [], ◌∷◌, eqb, length, take};
ghost use Rattle.reading.specs.Lists.{keep, over, gather};
ghost use Rattle.reading.specs.Numbers.{list_of};
ghost use Rattle.reading.specs.Records.{rule_list, marker_list, journal_list, matched_in, given_of};
ghost use Rattle.reading.specs.Units.{own_or};
ghost use Rattle.unit.specs.CloseUnit.{entry_with, member_entry, Put, Listed, Wrote};

use crate::{flow, members};
use actions::execute;
use reading::{CallSettings, DataEntry, DisruptiveOutcome, widths};
use ruleset::rules;

// How many ids and data entries were written, the index that the walk goes on with, and the starter's last disruptive action.
#[derive(Clone, Copy)]
pub struct UnitOutcome {
    pub ids: usize,
    pub entries: usize,
    pub next: usize,
    pub disruptive: DisruptiveOutcome,
}

// Writes an id, if there is one and a place for it.
fn put_id(id: Option<u64>, ids: &mut [u64]) -> usize
    ensures value { result ≡ length (take (length ids.old) (list_of id)) }
    ensures ids_after { ids.new ≡ over ids.old (take (length ids.old) (list_of id)) }
{
    let Some(number) = id else {
        return 0;
    };
    if ids.len() == 0 {
        return 0;
    }
    ids[0] = number;
    1
}

// A member's own id, else the starter's.
fn own_or(own: Option<u64>, starter: Option<u64>) -> Option<u64>
    ensures { result ≡ own_or own starter }
{
    own.or(starter)
}

fn data_entry(id: Option<u64>, phase: u64, index: u64) -> DataEntry
    ensures { result ≡ entry_with id phase index }
{
    match id {
        None => DataEntry {
            present: 0,
            id: 0,
            phase,
            index,
        },
        Some(number) => DataEntry {
            present: 1,
            id: number,
            phase,
            index,
        },
    }
}

// Writes the entry of a member at the place w, if it has outcome 2 and there is such a place, and answers the next place.
fn put_entry(verdict: u64, outcome: u8, e: DataEntry, w: usize, entries: &mut [u64]) -> usize
    ensures { Put (keep (eqb verdict 1 && eqb outcome 2) (e ∷ [])) w entries.old result entries.new }
{
    if verdict != 1 || outcome != 2 || entries.len() / widths::DATA_ENTRY <= w {
        return w;
    }
    let at = widths::DATA_ENTRY * w;
    entries[at] = e.present;
    entries[at + 1] = e.id;
    entries[at + 2] = e.phase;
    entries[at + 3] = e.index;
    w + 1
}

// Writes the data entries of a unit's members, as many as fit, and answers how many.
fn put_entries(
    phase: u64,
    starter: Option<u64>,
    members: &[u64],
    rules: &[u64],
    outcomes: &[u8],
    entries: &mut [u64],
) -> usize
    ensures { Listed (gather (member_entry phase starter (rule_list rules.now) outcomes.now) (matched_in (journal_list members.now)))
        entries.old result entries.new }
{
    let (journal, _) = members.as_chunks::<{ widths::JOURNAL_ENTRY }>();
    let mut w = 0;
    for &[index, verdict] in journal {
        let m = index as usize;
        let own = rules::rule_id(rules::rule_at(rules, m));
        let e = data_entry(own_or(own, starter), phase, index);
        w = put_entry(verdict, rules::outcome_at(outcomes, m), e, w, entries);
    }
    w
}

// Closes a unit. `past` is the index after its closing rule.
pub fn close_unit(
    past: usize,
    call: CallSettings,
    members: &[u64],
    rules: &[u64],
    actions: &[u64],
    markers: &[u64],
    text: &[u8],
    outcomes: &[u8],
    ids: &mut [u64],
    entries: &mut [u64],
) -> UnitOutcome
    ensures { Wrote (given_of call rules.now actions.now (marker_list markers.now) text.now outcomes.now)
        (matched_in (journal_list members.now)) past ids.old entries.old result ids.new entries.new }
{
    let phase = call.phase;
    let starter = rules::rule_at(rules, members::starter_of(members) as usize);
    let id = rules::rule_id(starter);
    let listed = put_id(id, ids);
    let written = put_entries(phase, id, members, rules, outcomes, entries);
    // the positions of the control actions are not asked for here
    let mut none = [0u64; 1];
    let acts = execute::execute_actions(actions, starter, phase, &mut none[1..]);
    let next = flow::after_flow(acts.flow, past, rules, actions, markers, text);
    UnitOutcome {
        ids: listed,
        entries: written,
        next,
        disruptive: acts.disruptive,
    }
}
