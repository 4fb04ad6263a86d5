// How a closed unit leaves the walk, what the call answers at its end, and where a call has nothing to do.
ghost use Rattle.std.specs.Prelude.{◌≡◌, ◌||◌, not, cond, eqb};
ghost use Rattle.reading.specs.Controls.{is_off, mode_or};
ghost use Rattle.reading.specs.Walk.{is_stopped};
ghost use Rattle.apply.specs.Append.{struct_of};
ghost use Rattle.intervention.specs.EndOfVisit.{end_by};
ghost use Rattle.transaction.specs.RunPhase.{answer_without};
ghost use Rattle.transaction.specs.WalkRules.{is_going, is_errs, is_allows, ended_by};

use crate::types::{Answer, End, Phase, Transaction};
use apply::append::{ControlArrays, ControlCounts};
use control::fields;
use control::state::{Controls, Settings};
use intervention::decide;
use intervention::decide::Ending;
use reading::{Intervention, RuleEngineMode};
use report::verdicts;
use unit::close::UnitOutcome;

// The mode under the settings.
fn mode_under(ruleset_mode: RuleEngineMode, settings: Settings) -> RuleEngineMode
    ensures { result ≡ mode_or ruleset_mode settings.mode }
{
    fields::mode_or(ruleset_mode, settings.mode)
}

// Whether a unit is the last: it ended the phase, or the mode is Off after it.
fn is_last(ending: Ending, mode: RuleEngineMode) -> bool
    ensures { result ≡ (not (is_going ending) || is_off mode) }
{
    !matches!(ending, Ending::GoesOn) || decide::is_off(mode)
}

// How a closed unit leaves the phase, and whether it is the last.
#[derive(Clone, Copy)]
pub struct TurnEnd {
    pub ending: Ending,
    pub last: bool,
}

// The end of a turn that closed a unit, by what the unit gave and the mode after its controls.
pub fn turn_end(u: UnitOutcome, ruleset_mode: RuleEngineMode, h: ControlCounts) -> TurnEnd
    ensures ending_value { result.ending ≡ end_by u.disruptive (mode_or ruleset_mode h.settings.mode) }
    ensures last_value { result.last ≡ (not (is_going result.ending) || is_off (mode_or ruleset_mode h.settings.mode)) }
{
    let now = mode_under(ruleset_mode, h.settings);
    let ending = decide::end_of(u.disruptive, now);
    TurnEnd {
        ending,
        last: is_last(ending, now),
    }
}

// 10 after an error, else 0.
fn answer_of(ending: Ending) -> u64
    ensures { result ≡ cond (is_errs ending) 10 0 }
{
    match ending {
        Ending::Errs => 10,
        Ending::GoesOn | Ending::Allows | Ending::Stops => 0,
    }
}

// The index of the rule that had an error, else 0.
fn error_of(ending: Ending, last: usize) -> u64
    ensures { result ≡ cond (is_errs ending) last 0 }
{
    match ending {
        Ending::Errs => last as u64,
        Ending::GoesOn | Ending::Allows | Ending::Stops => 0,
    }
}

fn gives_allow(ending: Ending) -> bool
    ensures { result ≡ is_allows ending }
{
    matches!(ending, Ending::Allows)
}

// The answer of a call without a visit, refused or with nothing to do.
pub fn unvisited(answer: u64) -> Answer
    ensures { result ≡ answer_without answer }
{
    Answer {
        answer,
        error: 0,
        visits: 0,
        report: verdicts::no_report(),
    }
}

// The answer of a walk that ended so, but for what is told besides, the controls from their parts. After an error the walk stands at the rule that had it. The
// transaction had no allow and no intervention.
pub fn ended(end: End, arrays: ControlArrays) -> Phase
    ensures { result ≡ ended_by end.ending end.at.state.next end.at.visits end.at.ids end.at.entries end.stop
        (struct_of end.at.counts arrays.starts arrays.ends arrays.phases arrays.positions) }
{
    let at = end.at;
    let ControlArrays {
        starts,
        ends,
        phases,
        positions,
    } = arrays;
    Phase {
        answer: Answer {
            answer: answer_of(end.ending),
            error: error_of(end.ending, at.state.next),
            visits: at.visits as u64,
            report: verdicts::no_report(),
        },
        transaction: Transaction {
            controls: Controls {
                settings: at.counts.settings,
                starts,
                ends,
                ranges: at.counts.ranges,
                phases,
                positions,
                targets: at.counts.targets,
            },
            allowed: gives_allow(end.ending),
            intervention: end.stop,
            ids: at.ids,
            entries: at.entries,
        },
    }
}

// Nothing is done if already allowed or stopped, if the mode is Off, or if there are no rules.
pub fn is_idle(
    allowed: bool,
    stop: Option<Intervention>,
    ruleset_mode: RuleEngineMode,
    settings: Settings,
    rules: usize,
) -> bool
    ensures { result ≡ (allowed || is_stopped stop || is_off (mode_or ruleset_mode settings.mode) || eqb rules 0) }
{
    allowed || stop.is_some() || decide::is_off(mode_under(ruleset_mode, settings)) || rules == 0
}
