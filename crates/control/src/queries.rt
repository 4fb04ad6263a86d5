// Questions to the controls: for a rule, for the removed targets, for the request's body. Each is refused with 3 where the controls are
// beyond their limits or their ranges are not in the merged form.
ghost use Rattle.std.specs.Prelude.{◌≡◌, cond, None, false};
ghost use Rattle.reading.specs.declared.BodyAccess.{BodyAccess};
ghost use Rattle.reading.specs.Numbers.{answer_number};
ghost use Rattle.reading.specs.Controls.{bad_controls, ask_mode, ask_removed, ask_target_count, ask_target};
ghost use Rattle.reading.specs.Controls.{access_of, ask_access, ask_processor};
ghost use Rattle.control.specs.ControlsStruct.{controls_of};
ghost use Rattle.control.specs.QueryAnswers.{asked_by};

use crate::state::Controls;
use crate::{fields, ranges};
use reading::{BodyAccess, BodyProcessor, Place, Refusal, RuleEngineMode};

// Refusal 3, or none.
fn check_controls(c: &Controls) -> Result<(), Refusal>
    ensures { answer_number result ≡ cond (bad_controls (controls_of c.now)) 3 0 }
{
    if fields::is_bad(&c.starts, &c.ends, c.ranges, c.targets) {
        return Err(Refusal::Counts);
    }
    Ok(())
}

// The mode set last, else the rule set's.
pub fn engine_mode(c: Controls, ruleset_mode: RuleEngineMode) -> Result<RuleEngineMode, Refusal>
    ensures { asked_by ruleset_mode result ≡ ask_mode ruleset_mode (controls_of c) }
{
    check_controls(&c)?; // else no mode is answered
    Ok(fields::mode_or(ruleset_mode, c.settings.mode))
}

// Whether a rule of this id, or of none, is removed.
pub fn is_rule_removed(c: Controls, id: Option<u64>) -> Result<bool, Refusal>
    ensures { asked_by false result ≡ ask_removed (controls_of c) id }
{
    check_controls(&c)?; // else no range is looked at
    Ok(ranges::is_removed(&c.starts, &c.ends, c.ranges, id))
}

pub fn target_count(c: Controls) -> Result<usize, Refusal>
    ensures { asked_by 0 result ≡ ask_target_count (controls_of c) }
{
    check_controls(&c)?; // else no target is counted
    Ok(c.targets)
}

// The target at a place of the list, counted from 0, or none after its end.
pub fn target_at(c: Controls, at: usize) -> Result<Option<Place>, Refusal>
    ensures { asked_by None result ≡ ask_target (controls_of c) at }
{
    check_controls(&c)?;
    if c.targets <= at {
        return Ok(None);
    }
    Ok(Some(Place {
        phase: c.phases[at],
        position: c.positions[at],
    }))
}

// Body access is on until set.
fn access_of(setting: Option<BodyAccess>) -> BodyAccess
    ensures { result ≡ access_of setting }
{
    setting.unwrap_or(BodyAccess::On)
}

pub fn request_body_access(c: Controls) -> Result<BodyAccess, Refusal>
    ensures { asked_by BodyAccess.On result ≡ ask_access (controls_of c) }
{
    check_controls(&c)?; // else no access is answered
    Ok(access_of(c.settings.access))
}

// The processor that a directive set, if any.
pub fn request_body_processor(c: Controls) -> Result<Option<BodyProcessor>, Refusal>
    ensures { asked_by None result ≡ ask_processor (controls_of c) }
{
    check_controls(&c)?;
    Ok(c.settings.processor)
}
