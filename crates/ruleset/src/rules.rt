// A rule set's records at an index (engine/ruleset.rs). Rules are lent as a flat list of numbers, five to a rule.
ghost use Rattle.std.specs.Prelude.{◌≡◌, ◌+◌, get_or, drop};
ghost use Rattle.reading.specs.Records.{rule_list};
ghost use Rattle.reading.specs.Call.{no_rule, record_id};
ghost use Rattle.reading.specs.Walk.{chain_rest};

use reading::{Rule, widths};

// The rule at an index, all zeros where there is none.
pub fn rule_at(rules: &[u64], index: usize) -> Rule
    ensures { result ≡ get_or (rule_list rules.now) index no_rule }
{
    if rules.len() / widths::RULE <= index {
        return Rule {
            present: 0,
            id: 0,
            link: 0,
            first: 0,
            count: 0,
        };
    }
    let at = widths::RULE * index;
    Rule {
        present: rules[at],
        id: rules[at + 1],
        link: rules[at + 2],
        first: rules[at + 3],
        count: rules[at + 4],
    }
}

// A rule's id, or none.
pub fn rule_id(rule: Rule) -> Option<u64>
    ensures { result ≡ record_id rule }
{
    if rule.present == 1 {
        Some(rule.id)
    } else {
        None
    }
}

// The outcome of the rule at an index, 0 where there is none.
pub fn outcome_at(outcomes: &[u8], index: usize) -> u8
    ensures { result ≡ get_or outcomes.now index 0 }
{
    outcomes.get(index).copied().unwrap_or(0)
}

// The index after the chain that the rule at an index belongs to: after the first rule from there on
// that is not a link, or after the last rule.
pub fn after_chain(rules: &[u64], index: usize) -> usize
    ensures { result ≡ index + chain_rest (drop index (rule_list rules.now)) }
{
    let n = rules.len() / widths::RULE;
    for i in index..n {
        if rules[widths::RULE * i + 2] != 1 {
            return i + 1;
        }
    }
    index.max(n)
}
