// What a rule's actions come to (`execute_actions`). The actions are lent as one flat list of
// numbers, six to an action.
ghost use Rattle.std.specs.Prelude.{◌≡◌};
ghost use Rattle.reading.specs.Actions.{actions_of, disruptive_by, flow_by, number_in};
ghost use Rattle.reading.specs.Records.{action_list};
ghost use Rattle.actions.specs.ExecuteActions.{Executed};
ghost use Rattle.actions.specs.Slots.{slot_of, marked, marked_place, marked_metadata};

use crate::record;
use reading::{DisruptiveOutcome, FlowOutcome, Place, Rule, RuleMetadata, kinds, widths};

// The slot that keeps the last action of a kind: one for all disruptive kinds, one for all flow
// kinds, one for each kind of metadata. What slot 0 keeps is never read.
#[tactic(auto, unfolding(crate::specs::Slots::slot_of))]
fn slot(kind: u64) -> usize
    ensures { result ≡ slot_of kind }
{
    match kind {
        kinds::DENY..=kinds::DROP => 1,
        kinds::CHAIN..=kinds::MULTI_MATCH => 7,
        kinds::ID..=kinds::ACCURACY => kind as usize,
        _ => 0,
    }
}

// A mark is 0 for no action, else one more than an action's position.
// The outcome of the disruptive action that a mark stands for.
fn disruptive_at(actions: &[u64], mark: u64) -> DisruptiveOutcome
    ensures { result ≡ disruptive_by (marked (action_list actions.now) mark) }
{
    if mark == 0 {
        return DisruptiveOutcome::Nothing;
    }
    let position = mark - 1;
    match record::action_at(actions, position as usize).kind {
        kinds::DENY => DisruptiveOutcome::Deny,
        kinds::BLOCK => DisruptiveOutcome::Block,
        kinds::PASS => DisruptiveOutcome::Pass,
        kinds::ALLOW => DisruptiveOutcome::Allow,
        kinds::REDIRECT => DisruptiveOutcome::Redirect(position),
        _ => DisruptiveOutcome::Drop,
    }
}

// The outcome of the flow action that a mark stands for. 10 (multiMatch) gives none.
fn flow_at(actions: &[u64], mark: u64) -> FlowOutcome
    ensures { result ≡ flow_by (marked (action_list actions.now) mark) }
{
    if mark == 0 {
        return FlowOutcome::Continue;
    }
    let position = mark - 1;
    let a = record::action_at(actions, position as usize);
    match a.kind {
        kinds::CHAIN => FlowOutcome::Chain,
        kinds::SKIP => FlowOutcome::Skip(a.number),
        kinds::SKIP_AFTER => FlowOutcome::SkipAfter(position),
        _ => FlowOutcome::Continue,
    }
}

// The number of the action that a mark stands for.
fn number_at(actions: &[u64], mark: u64) -> Option<u64>
    ensures { result ≡ number_in (marked (action_list actions.now) mark) }
{
    if mark == 0 {
        return None;
    }
    let a = record::action_at(actions, (mark - 1) as usize);
    Some(a.number)
}

// The place of the action that a mark stands for.
fn place_at(phase: u64, mark: u64) -> Option<Place>
    ensures { result ≡ marked_place phase mark }
{
    if mark == 0 {
        return None;
    }
    Some(Place {
        phase,
        position: mark - 1,
    })
}

// The metadata from the marks of its eight slots.
fn metadata_at(actions: &[u64], phase: u64, last: [u64; 19]) -> RuleMetadata
    ensures { result ≡ marked_metadata (action_list actions.now) phase last }
{
    RuleMetadata {
        id: number_at(actions, last[kinds::ID as usize]),
        msg: place_at(phase, last[kinds::MSG as usize]),
        logdata: place_at(phase, last[kinds::LOGDATA as usize]),
        rev: place_at(phase, last[kinds::REV as usize]),
        ver: place_at(phase, last[kinds::VER as usize]),
        severity: number_at(actions, last[kinds::SEVERITY as usize]),
        maturity: number_at(actions, last[kinds::MATURITY as usize]),
        accuracy: number_at(actions, last[kinds::ACCURACY as usize]),
    }
}

// What a rule's actions come to; `controls` is how many control actions it has.
#[derive(Clone, Copy)]
pub struct RuleActions {
    pub disruptive: DisruptiveOutcome,
    pub flow: FlowOutcome,
    pub metadata: RuleMetadata,
    pub controls: usize,
}

// One pass over a rule's actions. The last disruptive action and the last flow action win, and
// metadata keeps the last of each kind. The positions of the control actions are written from the
// start of `controls`, as many as fit.
pub fn execute_actions(actions: &[u64], rule: Rule, phase: u64, controls: &mut [u64]) -> RuleActions
    ensures { Executed (actions_of (action_list actions.now) rule) phase controls.old result controls.new }
{
    let first = rule.first as usize;
    // a rule that points outside the list has those of its actions that are there
    let there = (actions.len() / widths::ACTION).saturating_sub(first);
    let end = first + there.min(rule.count as usize);
    let mut last = [0u64; 19];
    let mut n = 0;
    for i in first..end {
        let kind = actions[widths::ACTION * i];
        last[slot(kind)] = i as u64 + 1;
        if kind == kinds::CTL {
            if n < controls.len() {
                controls[n] = i as u64;
            }
            n += 1;
        }
    }
    RuleActions {
        disruptive: disruptive_at(actions, last[1]),
        flow: flow_at(actions, last[7]),
        metadata: metadata_at(actions, phase, last),
        controls: n,
    }
}
