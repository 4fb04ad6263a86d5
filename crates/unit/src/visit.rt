// One visit by value (engine/transaction.rs, engine/chain.rs): what is found of a rule, what becomes of the open chain, and
// where the walk goes on.
ghost use Rattle.std.specs.Prelude.{◌≡◌, Option, false, cond, ℕ, min, get_or};
ghost use Rattle.reading.specs.Call.{no_rule, record_id};
ghost use Rattle.reading.specs.Numbers.{verdict_number};
ghost use Rattle.reading.specs.Records.{rule_list};
ghost use Rattle.reading.specs.Walk.{verdict_by};
ghost use Rattle.control.specs.Halving.{found_by_halving};
ghost use Rattle.unit.specs.VisitRule.{entry_by, passed, found_by, found_at, is_error};

use control::ranges;
use reading::{Verdict, limits, widths};
use ruleset::rules;

// Where the walk stands. `next` is the index that it goes on with, so a pending skip is part of it. `chain` is the place in
// the journal of the open chain's first entry, or none.
#[derive(Clone, Copy)]
pub struct State {
    pub next: usize,
    pub chain: Option<usize>,
}

// A visit: what is found, the place in the journal of the first entry of the unit that it closes, or none, and where the
// walk stands then, before the unit's flow.
#[derive(Clone, Copy)]
pub struct VisitOutcome {
    pub verdict: Verdict,
    pub closes: Option<usize>,
    pub after: State,
}

// A removed rule's outcome is not looked at.
fn verdict(removed: bool, outcome: u8) -> Verdict
    ensures { result ≡ cond removed Verdict.Removed (verdict_by outcome) }
{
    match (removed, outcome) {
        (true, _) => Verdict::Removed,
        (false, 0) => Verdict::Missed,
        (false, 3) => Verdict::Error,
        (false, _) => Verdict::Matched,
    }
}

// What is found of the rule at an index, under the first `count` held ranges, which have the merged form.
pub fn verdict_at<'a>(
    rules: &[u64],
    outcomes: &[u8],
    index: usize,
    starts: &'a [u64; limits::RANGES],
    ends: &'a [u64; limits::RANGES],
    count: usize,
) -> Verdict
    ensures { result ≡ cond (found_by_halving (min count 256) starts.now ends.now (record_id (get_or (rule_list rules.now) index no_rule)))
        Verdict.Removed (verdict_by (get_or outcomes.now index 0)) }
{
    let id = rules::rule_id(rules::rule_at(rules, index));
    let removed = ranges::is_removed(starts, ends, count, id);
    verdict(removed, rules::outcome_at(outcomes, index))
}

// The number of a verdict in the journal.
pub fn verdict_number(verdict: Verdict) -> u64
    ensures { result ≡ verdict_number verdict }
{
    verdict as u64 // 0 to 3
}

// The place in the journal of the open chain's first entry, else that of the entry to come.
fn entry_of(at: State, visits: usize) -> usize
    ensures { result ≡ entry_by at visits }
{
    at.chain.unwrap_or(visits)
}

// A visit that closes no unit.
fn passing(verdict: Verdict, next: usize, chain: Option<usize>) -> VisitOutcome
    ensures { result ≡ passed verdict next chain }
{
    VisitOutcome {
        verdict,
        closes: None,
        after: State { next, chain },
    }
}

// A matched rule that is not a link closes the unit.
fn closing(next: usize, first: usize) -> VisitOutcome
    ensures { (rest : ℕ) (chain : Option ℕ) → result ≡ found_by next rest chain first Verdict.Matched false }
{
    VisitOutcome {
        verdict: Verdict::Matched,
        closes: Some(first),
        after: State { next, chain: None },
    }
}

// The visit of the rule that the walk stands at, given what is found of it.
pub fn visit(rules: &[u64], at: State, visits: usize, found: Verdict) -> VisitOutcome
    ensures { result ≡ found_at (rule_list rules.now) at visits found }
{
    let next = at.next;
    let chain = at.chain;
    let first = entry_of(at, visits);
    if rules.len() / widths::RULE <= next {
        return passing(found, next, chain);
    }
    let link = rules[widths::RULE * next + 2];
    let past = next + 1;
    match found {
        // a missed rule breaks an open chain and passes the rest of its own
        Verdict::Missed => passing(found, rules::after_chain(rules, next), None),
        Verdict::Matched if link == 1 => passing(found, past, Some(first)),
        Verdict::Matched => closing(past, first),
        Verdict::Removed if link == 1 => passing(found, rules::after_chain(rules, next), None),
        Verdict::Removed => passing(found, past, chain), // the chain stays open
        Verdict::Error => passing(found, past, chain),
    }
}

// Whether a visit met a rule error, which ends the walk.
pub fn is_error(v: VisitOutcome) -> bool
    ensures { result ≡ is_error v.verdict }
{
    matches!(v.verdict, Verdict::Error)
}
