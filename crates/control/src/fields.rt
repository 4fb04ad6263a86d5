// What is asked of the parts of the controls, lent or by value, so that a visit copies none of them.
ghost use Rattle.std.specs.Prelude.{◌≡◌, not, ◌||◌, ltb};
ghost use Rattle.reading.specs.Numbers.{mode_of_number};
ghost use Rattle.reading.specs.Limits.{most_ranges, most_targets};
ghost use Rattle.reading.specs.Ranges.{is_merged};
ghost use Rattle.reading.specs.Controls.{range_list, mode_or};

use crate::ranges;
use reading::{RuleEngineMode, limits};

// Refusal 3, of the controls: more than 256 ranges, more than 64 targets, or ranges that do not have the merged form.
pub fn is_bad<'a>(
    starts: &'a [u64; limits::RANGES],
    ends: &'a [u64; limits::RANGES],
    ranges: usize,
    targets: usize,
) -> bool
    ensures { result ≡ (ltb most_ranges ranges || ltb most_targets targets || not (is_merged (range_list ranges starts.now ends.now))) }
{
    limits::RANGES < ranges || limits::TARGETS < targets || !ranges::is_merged(starts, ends, ranges)
}

// The mode that a directive set, else the rule set's.
pub fn mode_or(ruleset_mode: RuleEngineMode, setting: Option<RuleEngineMode>) -> RuleEngineMode
    ensures { result ≡ mode_or ruleset_mode setting }
{
    setting.unwrap_or(ruleset_mode)
}

// The mode of a number; refusal 1 turns every number above 2 away.
pub fn mode_of_number(mode: u64) -> RuleEngineMode
    ensures { result ≡ mode_of_number mode }
{
    match mode {
        0 => RuleEngineMode::On,
        1 => RuleEngineMode::DetectionOnly,
        _ => RuleEngineMode::Off,
    }
}
