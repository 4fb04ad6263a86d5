// Whether a closed unit's actions change the controls at all, by the codes of the module codes. A unit's members are the matched
// entries of a lent part of the journal.
ghost use Rattle.std.specs.Prelude.{◌+◌, ◌-◌, min, ◌≡◌, ◌&&◌, eqb, get_or};
ghost use Rattle.reading.specs.Call.{no_rule};
ghost use Rattle.reading.specs.Records.{rule_list, journal_list, matched_in};
ghost use Rattle.apply.specs.UnitChanges.{rule_changes, unit_changes};

use crate::codes;
use reading::{Rule, widths};
use ruleset::rules;

// The index after a rule's last code in a list of `n`: a rule that points outside the list has those of its codes that are
// there.
pub fn codes_end(n: usize, first: usize, count: usize) -> usize
    ensures { result ≡ first + min count (n - first) }
{
    first + count.min(n.saturating_sub(first))
}

// Whether a rule has an action that changes the controls.
fn rule_changes(rule: Rule, codes: &[u16]) -> bool
    ensures { result ≡ rule_changes codes.now rule }
{
    let first = rule.first as usize;
    let end = codes_end(codes.len(), first, rule.count as usize);
    (first..end).any(|i| codes::LAST_REASON < codes[i])
}

// Whether a journal entry is of a member, and the member's rule has such an action.
fn entry_changes(index: u64, verdict: u64, rules: &[u64], codes: &[u16]) -> bool
    ensures { result ≡ (eqb verdict 1 && rule_changes codes.now (get_or (rule_list rules.now) index no_rule)) }
{
    verdict == 1 && rule_changes(rules::rule_at(rules, index as usize), codes)
}

// Whether a closed unit has a member with an action that changes the controls.
pub fn changes(entries: &[u64], rules: &[u64], codes: &[u16]) -> bool
    ensures { result ≡ unit_changes codes.now (rule_list rules.now) (matched_in (journal_list entries.now)) }
{
    let n = entries.len() / widths::JOURNAL_ENTRY;
    (0..n).any(|i| {
        let at = widths::JOURNAL_ENTRY * i;
        entry_changes(entries[at], entries[at + 1], rules, codes)
    })
}
