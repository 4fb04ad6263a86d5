// The intervention that a unit gives (engine/intervention.rs).
ghost use Rattle.std.specs.Prelude.{◌≡◌, List, ℕ};
ghost use Rattle.reading.specs.Records.{journal_list, matched_in, given_of};
ghost use Rattle.reading.specs.declared.Marker.{Marker};
ghost use Rattle.reading.specs.Units.{drops, address_of, if_different, unit_intervention};
ghost use Rattle.intervention.specs.BuildIntervention.{status_by, intervention_at_end};

use crate::decide::Ending;
use actions::execute;
use reading::{CallSettings, DisruptiveOutcome, Intervention, Place};
use ruleset::rules;
use unit::members;

// The status of a disruptive action that stops, given the caller's default. A status action does nothing.
fn status_of(disruptive: DisruptiveOutcome, status: u64) -> u64
    ensures { result ≡ status_by disruptive status }
{
    match disruptive {
        DisruptiveOutcome::Deny => 403,
        DisruptiveOutcome::Block => status,
        DisruptiveOutcome::Redirect(_) => 302,
        DisruptiveOutcome::Drop => 444,
        DisruptiveOutcome::Nothing | DisruptiveOutcome::Pass | DisruptiveOutcome::Allow => 0,
    }
}

// Whether a disruptive action drops the connection.
fn is_drop(disruptive: DisruptiveOutcome) -> bool
    ensures { result ≡ drops disruptive }
{
    matches!(disruptive, DisruptiveOutcome::Drop)
}

// The address of a redirect, kept as its place.
fn address_of(phase: u64, disruptive: DisruptiveOutcome) -> Option<Place>
    ensures { result ≡ address_of phase disruptive }
{
    match disruptive {
        DisruptiveOutcome::Redirect(position) => Some(Place { phase, position }),
        _ => None,
    }
}

// A second id, where it is not the first once more.
fn if_different(first: Option<u64>, id: Option<u64>) -> Option<u64>
    ensures { result ≡ if_different first id }
{
    if first == id { None } else { id }
}

// The intervention of a unit, whose members are the matched entries of a part of the journal.
fn unit_intervention(
    members: &[u64],
    rules: &[u64],
    actions: &[u64],
    call: CallSettings,
) -> Intervention
    ensures { (markers : List Marker) (text outcomes : List ℕ)
        → result ≡ unit_intervention (given_of call rules.now actions.now markers text outcomes)
        (matched_in (journal_list members.now)) }
{
    let phase = call.phase;
    let starter = members::starter_of(members);
    let closer = members::closer_of(members);
    // the positions of the control actions are not asked for here
    let mut none = [0u64; 1];
    let done = execute::execute_actions(
        actions,
        rules::rule_at(rules, starter as usize),
        phase,
        &mut none[1..],
    );
    let closing = rules::rule_id(rules::rule_at(rules, closer as usize));
    Intervention {
        status: status_of(done.disruptive, call.default_status),
        url: address_of(phase, done.disruptive),
        log: done.metadata.msg,
        closing,
        starter: if_different(closing, done.metadata.id),
        phase,
        drop: is_drop(done.disruptive),
        metadata: done.metadata,
    }
}

// The intervention of a unit, whose members are the matched entries of a part of the journal, where the phase is stopped.
pub fn build_intervention(
    ending: Ending,
    members: &[u64],
    rules: &[u64],
    actions: &[u64],
    call: CallSettings,
) -> Option<Intervention>
    ensures { (markers : List Marker) (text outcomes : List ℕ)
        → result ≡ intervention_at_end ending (unit_intervention (given_of call rules.now actions.now markers text outcomes)
        (matched_in (journal_list members.now))) }
{
    match ending {
        Ending::Stops => Some(unit_intervention(members, rules, actions, call)),
        Ending::GoesOn | Ending::Allows | Ending::Errs => None,
    }
}
