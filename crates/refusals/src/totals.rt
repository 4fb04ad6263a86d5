// Refusals 8 and 9: more ranges, or more targets, than a transaction may hold, counted rule by rule by the codes of apply::codes.
ghost use Rattle.std.specs.Prelude.{◌≡◌, ℕ, ◌<◌, ◌≤◌, min, length, take};
ghost use Rattle.reading.specs.Lists.{total};
ghost use Rattle.reading.specs.Numbers.{answer_number};
ghost use Rattle.reading.specs.Records.{rule_list};
ghost use Rattle.refusals.specs.Totals.{ranges_of_code, targets_of_code, adds_beyond, limit_refusal, Summed, following};

use apply::codes;
use reading::{Refusal, limits, widths};

// What is counted, and how many of them the action of a code adds.
// A closure would be no plainer: each function that counts would have to require what the trait says here once.
trait Weighed {
    ghost weight: { ℕ → ℕ };

    fn weight(code: u16) -> u32
        ensures { (result ≡ weight code) × (result ≤ 65535) };
}

struct Ranges;

struct Targets;

impl Weighed for Ranges {
    ghost weight = { ranges_of_code };

    fn weight(code: u16) -> u32 {
        code.saturating_sub(codes::RANGES) as u32
    }
}

impl Weighed for Targets {
    ghost weight = { targets_of_code };

    fn weight(code: u16) -> u32 {
        (code == codes::TARGET) as u32
    }
}

// Writes, at each index, what so many codes from the first on weigh together.
fn prefix_sums<C: Weighed>(codes: &[u16], sums: &mut [u32])
    requires { (length codes.now < length sums.old) × (length codes.now ≤ 4096) }
    ensures { Summed C.weight codes.now sums.new }
{
    let mut sum = 0u32;
    sums[0] = 0;
    for (i, code) in codes.iter().enumerate() {
        sum += C::weight(*code);
        sums[i + 1] = sum;
    }
}

// A number of a record, or n where it is greater.
fn clip(x: u64, n: usize) -> usize
    ensures { result ≡ min x n }
{
    x.min(n as u64) as usize
}

// What the codes weigh together.
fn whole_weight<C: Weighed>(codes: &[u16]) -> u64
    requires { length codes.now ≤ 4096 }
    ensures { result ≡ total C.weight codes.now }
{
    let sum: u32 = codes.iter().map(|code| C::weight(*code)).sum();
    u64::from(sum)
}

// Whether the rules' parts of a list of so many actions follow each other: none begins before the end of
// the one before it.
fn follow(rules: &[u64], actions: usize) -> bool
    ensures { result ≡ following actions 0 (rule_list rules.now) }
{
    let (records, _) = rules.as_chunks::<{ widths::RULE }>();
    let mut end = 0;
    for &[_, _, _, first, count] in records {
        let from = clip(first, actions);
        if from < end {
            return false;
        }
        end = from + clip(count, actions - from);
    }
    true
}

// Whether so many held and those of all rules, counted rule by rule, exceed the limit. What a rule
// adds is the difference of two sums: one after its last action and one before its first.
fn sums_exceed<C: Weighed>(rules: &[u64], codes: &[u16], held: usize, limit: usize) -> bool
    requires few { length codes.now ≤ 4096 }
    requires within { held ≤ limit }
    ensures { result ≡ adds_beyond C.weight limit held (rule_list rules.now) codes.now }
{
    let n = codes.len();
    let mut sums = [0u32; limits::ACTIONS + 1];
    prefix_sums::<C>(codes, &mut sums);
    let (records, _) = rules.as_chunks::<{ widths::RULE }>();
    let mut left = (limit - held) as u64;
    for &[_, _, _, first, count] in records {
        let from = clip(first, n);
        let to = from + clip(count, n - from);
        let added = u64::from(sums[to] - sums[from]);
        if left < added {
            return true;
        }
        left -= added;
    }
    false
}

// The same. In most calls no action adds anything, or the rules' parts of the actions follow each
// other and then add no more than all actions together: nothing is summed rule by rule.
fn exceeds<C: Weighed>(rules: &[u64], codes: &[u16], held: usize, limit: usize) -> bool
    requires { length codes.now ≤ 4096 }
    ensures { result ≡ adds_beyond C.weight limit held (rule_list rules.now) codes.now }
{
    if limit < held {
        return true;
    }
    let whole = whole_weight::<C>(codes);
    if whole == 0 || whole <= (limit - held) as u64 && follow(rules, codes.len()) {
        return false;
    }
    sums_exceed::<C>(rules, codes, held, limit)
}

// The codes that count: the first 4,096.
fn first_codes(codes: &[u16]) -> &[u16]
    ensures first { result.now ≡ take 4096 codes.now }
    ensures few { length result.now ≤ 4096 }
{
    &codes[..codes.len().min(limits::ACTIONS)]
}

// The first of the two that applies, to so many held ranges and targets and those of all rules, or none.
pub fn limit_refusal(
    rules: &[u64],
    codes: &[u16],
    ranges: usize,
    targets: usize,
) -> Result<(), Refusal>
    ensures { answer_number result ≡ limit_refusal (rule_list rules.now) (take 4096 codes.now) ranges targets }
{
    let codes = first_codes(codes);
    if exceeds::<Ranges>(rules, codes, ranges, limits::RANGES) {
        return Err(Refusal::Ranges);
    }
    if exceeds::<Targets>(rules, codes, targets, limits::TARGETS) {
        return Err(Refusal::Targets);
    }
    Ok(())
}
