// How many ranges a list of ids has, the value of `ctl:ruleRemoveById` (`parse_id_ranges`): one pass over its bytes, which are
// most of what a large call reads. The module id_ranges writes the ranges of a list that was counted.
ghost use Rattle.std.specs.Prelude.{◌≡◌, ◌≤◌, ◌+◌, length, drop};
ghost use Rattle.reading.specs.Directive.{removal_value};
ghost use Rattle.ctl.specs.CountRanges.{count_of, count_in};
ghost use Rattle.ctl.specs.Scan.{is_after_digits, has_digits, part_start, with_stage, digit_step, blank_step, dash_step, plus_step, other_step, pair_end, part_end, leading_commas};

use text::{number, trim};

// How far into a number the pass is: before it, after its '+', in its digits, in the blanks after it.
#[derive(Clone, Copy)]
pub enum Stage {
    Start,
    Plus,
    Digits,
    AfterDigits,
}

// What is seen of a part between commas: whether its first '-' is passed, the number before that one, and how far into the
// number at hand the pass is, with the value of its digits so far.
#[derive(Clone, Copy)]
pub struct PartState {
    pub second: bool,
    pub first: u64,
    pub stage: Stage,
    pub value: u64,
}

// After the blanks of a number no digit may follow.
fn is_after_digits(stage: Stage) -> bool
    ensures { result ≡ is_after_digits stage }
{
    matches!(stage, Stage::AfterDigits)
}

fn has_digits(stage: Stage) -> bool
    ensures { result ≡ has_digits stage }
{
    matches!(stage, Stage::Digits | Stage::AfterDigits)
}

// At the start of a part.
fn part_start() -> PartState
    ensures { result ≡ part_start }
{
    PartState {
        second: false,
        first: 0,
        stage: Stage::Start,
        value: 0,
    }
}

// The same part, the number at hand at another stage.
fn with_stage(s: PartState, stage: Stage, value: u64) -> PartState
    ensures { result ≡ with_stage s stage value }
{
    PartState { stage, value, ..s }
}

fn on_digit(s: PartState, b: u8) -> Option<PartState>
    requires { (48 ≤ b) × (b ≤ 57) }
    ensures { result ≡ digit_step s b }
{
    if is_after_digits(s.stage) {
        return None;
    }
    let Some(value) = number::with_digit(s.value, b - b'0') else {
        return None;
    };
    Some(with_stage(s, Stage::Digits, value))
}

fn on_blank(s: PartState) -> Option<PartState>
    ensures { result ≡ blank_step s }
{
    match s.stage {
        // not `s` itself: a copy of the whole struct goes through memory, and a list of blanks takes three times as long
        Stage::Start => Some(with_stage(s, Stage::Start, s.value)),
        Stage::Plus => None,
        Stage::Digits | Stage::AfterDigits => Some(with_stage(s, Stage::AfterDigits, s.value)),
    }
}

// Only a number's first byte may be a '+'.
fn on_plus(s: PartState) -> Option<PartState>
    ensures { result ≡ plus_step s }
{
    match s.stage {
        Stage::Start => Some(with_stage(s, Stage::Plus, s.value)),
        Stage::Plus | Stage::Digits | Stage::AfterDigits => None,
    }
}

// The first '-' ends the first number, and no other may follow.
fn on_dash(s: PartState) -> Option<PartState>
    ensures { result ≡ dash_step s }
{
    if s.second || !has_digits(s.stage) {
        return None;
    }
    Some(PartState {
        second: true,
        first: s.value,
        ..part_start()
    })
}

// A byte that is neither a digit nor a comma.
fn on_other(s: PartState, b: u8) -> Option<PartState>
    ensures { result ≡ other_step s b }
{
    match b {
        b'-' => on_dash(s),
        b'+' => on_plus(s),
        _ if trim::is_blank(b) => on_blank(s),
        _ => None,
    }
}

// Two numbers: the first may not be above the second.
fn pair_end(first: u64, second: u64) -> Option<usize>
    ensures { result ≡ pair_end first second }
{
    if first <= second { Some(1) } else { None }
}

// A part counts 0 where it is blank, and 1 where it is one number or two.
fn part_end(s: PartState) -> Option<usize>
    ensures { result ≡ part_end s }
{
    match s.stage {
        Stage::Digits | Stage::AfterDigits if s.second => pair_end(s.first, s.value),
        Stage::Digits | Stage::AfterDigits => Some(1),
        Stage::Start if !s.second => Some(0),
        Stage::Start | Stage::Plus => None,
    }
}

// A list without any range is unsupported.
fn counted(n: usize) -> Option<usize>
    ensures { result ≡ count_of n }
{
    if n == 0 { None } else { Some(n) }
}

// The index after the commas that stand from an index on. Empty parts count nothing, so a run of commas is passed at once.
fn skip_commas(value: &[u8], at: usize) -> usize
    requires { at ≤ length value.now }
    ensures { result ≡ at + leading_commas (drop at value.now) }
{
    let rest = &value[at..];
    at + rest.iter().position(|b| *b != b',').unwrap_or(rest.len())
}

// How many ranges a list has, or that it is unsupported. More commas are looked for only after an empty part: most parts are
// numbers, and a look after each would slow them. It leaves by `let .. else`: with `?` the compiler makes no loop of its own of a
// number's digits, and a long list takes half as long again.
pub fn count_ranges(value: &[u8]) -> Option<usize>
    ensures { result ≡ count_in (removal_value value.now) }
{
    let mut n = 0;
    let mut seen = part_start();
    // an index, and no `for` over the bytes: a run of commas is passed at once
    let mut i = 0;
    while i < value.len() {
        let b = value[i];
        i += 1;
        // commas and digits are most of a list, so they are asked for first
        if b == b',' {
            let Some(k) = part_end(seen) else {
                return None;
            };
            n += k;
            seen = part_start();
            if k == 0 {
                i = skip_commas(value, i);
            }
            continue;
        }
        if b.is_ascii_digit() {
            let Some(next) = on_digit(seen, b) else {
                return None;
            };
            seen = next;
            continue;
        }
        let Some(next) = on_other(seen, b) else {
            return None;
        };
        seen = next;
    }
    let Some(k) = part_end(seen) else {
        return None;
    };
    counted(n + k)
}
