// How a closed unit leaves the phase (engine/intervention.rs).
ghost use Rattle.std.specs.Prelude.{◌≡◌};
ghost use Rattle.reading.specs.Controls.{is_off};
ghost use Rattle.intervention.specs.EndOfVisit.{end_by};

use reading::{DisruptiveOutcome, RuleEngineMode};

// How a visit leaves the phase.
#[derive(Clone, Copy)]
pub enum Ending {
    GoesOn,
    Allows,
    Errs,
    Stops,
}

// Whether a mode is Off.
pub fn is_off(mode: RuleEngineMode) -> bool
    ensures { result ≡ is_off mode }
{
    matches!(mode, RuleEngineMode::Off)
}

// How a closed unit leaves the phase, given its last disruptive action (or `Nothing`) and the mode.
pub fn end_of(disruptive: DisruptiveOutcome, mode: RuleEngineMode) -> Ending
    ensures { result ≡ end_by disruptive mode }
{
    match (disruptive, mode) {
        (DisruptiveOutcome::Allow, _) => Ending::Allows, // in any mode
        (
            DisruptiveOutcome::Deny
            | DisruptiveOutcome::Block
            | DisruptiveOutcome::Redirect(_)
            | DisruptiveOutcome::Drop,
            RuleEngineMode::On,
        ) => Ending::Stops,
        _ => Ending::GoesOn,
    }
}
