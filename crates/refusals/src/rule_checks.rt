// Refusal 5: what a lent rule may hold, and what parts in all records share. The list is looked through once.
ghost use Rattle.std.specs.Prelude.{◌≡◌};
ghost use Rattle.reading.specs.Lists.{any};
ghost use Rattle.reading.specs.Records.{rule_list};
ghost use Rattle.reading.specs.Refusals.{outside, bad_rule};

use reading::{Rule, widths};
use ruleset::rules;

// Whether a part ends after a list of so many entries. The sum is never formed, so it can't wrap.
pub fn is_outside(entries: usize, start: u64, len: u64) -> bool
    ensures { result ≡ outside entries start len }
{
    let n = entries as u64;
    n < start || n - start < len
}

// A rule among so many actions.
fn bad_rule(rule: Rule, actions: usize) -> bool
    ensures { result ≡ bad_rule actions rule }
{
    1 < rule.present || 1 < rule.link || is_outside(actions, rule.first, rule.count)
}

// One such search for each kind of record, with a test of its own. Whether one of the rules has an unknown flag, or points outside so many actions.
pub fn any_bad_rule(rules: &[u64], actions: usize) -> bool
    ensures { result ≡ any (bad_rule actions) (rule_list rules.now) }
{
    let n = rules.len() / widths::RULE;
    (0..n).any(|i| bad_rule(rules::rule_at(rules, i), actions))
}
