// The first unsupported directive of a phase's closed units, found from its journal and the actions' codes after the walk: no text
// is read again.
ghost use Rattle.std.specs.Prelude.{◌≡◌, cond, ◌||◌, ◌&&◌, eqb};
ghost use Rattle.reading.specs.Records.{rule_list, journal_list};
ghost use Rattle.reading.specs.Report.{none_unsupported, first_or};
ghost use Rattle.report.specs.ByCodes.{coded, unsupported_by_codes};

use apply::{changes, codes};
use reading::{Rule, UnsupportedAt, widths};
use ruleset::rules;

pub fn none() -> UnsupportedAt
    ensures { result ≡ none_unsupported }
{
    UnsupportedAt {
        index: 0,
        reason: 0,
    }
}

// The first of a rule's directives that is unsupported, or none. The rule's index is told with it.
fn first_of_rule(index: u64, rule: Rule, codes: &[u16]) -> UnsupportedAt
    ensures { result ≡ first_or (coded codes.now index rule) none_unsupported }
{
    let first = rule.first as usize;
    let end = changes::codes_end(codes.len(), first, rule.count as usize);
    for i in first..end {
        let code = codes[i];
        if codes::is_reason(code) {
            return UnsupportedAt {
                index,
                reason: code as u64,
            };
        }
    }
    none()
}

// What is held with one more member: what was held before, else the member's own.
fn held_with(held: UnsupportedAt, index: u64, rule: Rule, codes: &[u16]) -> UnsupportedAt
    ensures { result ≡ cond (eqb held.reason 0) (first_or (coded codes.now index rule) none_unsupported) held }
{
    if held.reason == 0 {
        first_of_rule(index, rule, codes)
    } else {
        held
    }
}

// Whether an entry that is not matched breaks the open chain: a missed one, and a removed link.
fn breaks(verdict: u64, link: u64) -> bool
    ensures { result ≡ (eqb verdict 0 || (eqb verdict 2 && eqb link 1)) }
{
    verdict == 0 || verdict == 2 && link == 1
}

// The first unsupported directive of a journal's closed units, or none. What is held is that of the matched links since the last
// break; the rule that closes their unit makes it the answer.
pub fn first_unsupported(entries: &[u64], rules: &[u64], codes: &[u16]) -> UnsupportedAt
    ensures { result ≡ unsupported_by_codes codes.now (rule_list rules.now) (journal_list entries.now) }
{
    let (journal, _) = entries.as_chunks::<{ widths::JOURNAL_ENTRY }>();
    let mut held = none();
    for &[index, verdict] in journal {
        let rule = rules::rule_at(rules, index as usize);
        if verdict != 1 {
            if breaks(verdict, rule.link) {
                held = none();
            }
            continue;
        }
        held = held_with(held, index, rule, codes);
        if rule.link != 1 && held.reason != 0 {
            return held;
        }
    }
    none()
}
