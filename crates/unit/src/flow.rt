// Where the walk goes on after a closed unit: what the flow action of its starter says.
ghost use Rattle.std.specs.Prelude.{◌≡◌, List, ℕ, ◌+◌, min};
ghost use Rattle.reading.specs.Reading.{rust};
ghost use Rattle.reading.specs.declared.CallSettings.{CallSettings};
ghost use Rattle.reading.specs.Records.{marker_list, given_of};
ghost use Rattle.reading.specs.Call.{Given, rule_count};
ghost use Rattle.reading.specs.Walk.{jump_from, after_flow};

use actions::record;
use reading::{FlowOutcome, widths};
use ruleset::markers;

// A skip of n indexes from `past` on, which goes no further than after the last rule.
fn skip_to(past: usize, n: u64, rules: usize) -> usize
    ensures { result ≡ min (past + n) rules }
{
    past.saturating_add(n as usize).min(rules)
}

// A marker is jumped to if its position is greater than `past`; else the rest is passed.
fn jump_to(past: usize, found: Option<u64>, rules: usize) -> usize
    ensures { (g : Given) → g.reading ≡ rust → rule_count g ≡ rules → result ≡ min (jump_from g past found) rules }
{
    let Some(position) = found else {
        return rules;
    };
    if position <= past as u64 {
        return rules;
    }
    position.min(rules as u64) as usize
}

// The index that the walk goes on with, given the one after the closing rule.
pub fn after_flow(
    flow: FlowOutcome,
    past: usize,
    rules: &[u64],
    actions: &[u64],
    markers: &[u64],
    text: &[u8],
) -> usize
    ensures { (call : CallSettings) (outcomes : List ℕ)
        → let g = given_of call rules.now actions.now (marker_list markers.now) text.now outcomes in
        result ≡ min (after_flow g past flow) (rule_count g) }
{
    let n = rules.len() / widths::RULE;
    match flow {
        FlowOutcome::Continue | FlowOutcome::Chain => skip_to(past, 0, n),
        FlowOutcome::Skip(count) => skip_to(past, count, n),
        FlowOutcome::SkipAfter(position) => {
            let name = record::action_at(actions, position as usize).text;
            jump_to(past, markers::marker(markers, text, name), n)
        }
    }
}
