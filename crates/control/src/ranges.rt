// Ranges of rule ids in two lists of numbers, their starts and their ends, in the merged form: sorted by start, and with at least one
// id between each two.
ghost use Rattle.std.specs.Prelude.{◌≡◌, ◌&&◌, ◌+◌, ◌≤◌, min, ltb, leb};
ghost use Rattle.reading.specs.Ranges.{is_merged};
ghost use Rattle.reading.specs.Controls.{range_list};
ghost use Rattle.control.specs.Halving.{halved, found_by_halving};
ghost use Rattle.control.specs.Merging.{Room, MergedOne, MergedAfter, cleared_from};

use reading::{RuleIdRange, limits};

// The first index whose end is not below an id, by halving: of ranges in the form no other can hold the id. By hand, since the answer is
// that of `halved` also for ends out of order, of which `partition_point` promises nothing.
fn first_end(ends: &[u64; limits::RANGES], count: usize, id: u64) -> usize
    requires { count ≤ 256 }
    ensures { result ≡ halved 9 ends.now id 0 count }
{
    let mut low = 0;
    let mut high = count;
    while low < high {
        let middle = (low + high) / 2;
        if ends[middle] < id {
            low = middle + 1;
        } else {
            high = middle;
        }
    }
    low
}

// Whether an id, or none, is removed by the first `count` ranges, which have the form. No more than 256 are looked at.
pub fn is_removed<'a>(
    starts: &'a [u64; limits::RANGES],
    ends: &'a [u64; limits::RANGES],
    count: usize,
    id: Option<u64>,
) -> bool
    ensures { result ≡ found_by_halving (min count 256) starts.now ends.now id }
{
    // a rule without an id is never removed
    let Some(number) = id else {
        return false;
    };
    // none is held, as in most calls, or the id is below all of them
    if count == 0 || number < starts[0] {
        return false;
    }
    let in_use = count.min(limits::RANGES);
    let at = first_end(ends, in_use, number);
    at < in_use && starts[at] <= number
}

// Whether there is an id between an end and a later start. 18446744073709551615 has no follower, and the sum is never formed.
fn is_apart(end: u64, start: u64) -> bool
    ensures { result ≡ ltb (end + 1) start }
{
    end < start && 1 < start - end
}

// Merges a range into the first `count` of two lists, and answers how many there are then. The range in hand goes along the list: of two
// that lie apart the first one is put down and the other goes on; two that overlap or touch go on as one. No place is written before it
// is read.
fn merge_range(starts: &mut [u64], ends: &mut [u64], count: usize, range: RuleIdRange) -> usize
    requires { Room count starts.old ends.old }
    ensures { MergedOne count range starts.old ends.old result starts.new ends.new }
{
    let mut start = range.start;
    let mut end = range.end;
    let mut kept = 0;
    for i in 0..count {
        let s = starts[i];
        let e = ends[i];
        if is_apart(e, start) {
            starts[kept] = s;
            ends[kept] = e;
            kept += 1;
        } else if is_apart(end, s) {
            starts[kept] = start;
            ends[kept] = end;
            start = s;
            end = e;
            kept += 1;
        } else {
            start = s.min(start);
            end = e.max(end);
        }
    }
    starts[kept] = start;
    ends[kept] = end;
    kept + 1
}

// Merges the ranges at the places from `held` up to `all` into the first `held`, in order, and answers how many there are then; the
// places that they leave are made 0. There are never more than those held and those merged, so none is written over before it is read.
// Where a list has fewer than `all` places, or more are held than there are in all, nothing is done.
pub fn merge_after(starts: &mut [u64], ends: &mut [u64], held: usize, all: usize) -> usize
    ensures { MergedAfter held all starts.old ends.old result starts.new ends.new }
{
    if all < held || starts.len() < all || ends.len() < all {
        return held;
    }
    let mut count = held;
    for i in held..all {
        let range = RuleIdRange {
            start: starts[i],
            end: ends[i],
        };
        count = merge_range(starts, ends, count, range);
    }
    starts[count..all].fill(0);
    ends[count..all].fill(0);
    count
}

// Makes every place of a list from an index on 0, unless that was done before: a flag, for the promise (`cleared_from`) has it.
pub fn clear_once(done: bool, list: &mut [u64], from: usize)
    ensures { list.new ≡ cleared_from done from list.old }
{
    if !done && from <= list.len() {
        list[from..].fill(0);
    }
}

// Whether a range begins after an end, with an id between, and its start is not above its end.
fn follows(last: u64, start: u64, end: u64) -> bool
    ensures { result ≡ (leb (last + 2) start && leb start end) }
{
    is_apart(last, start) && start <= end
}

// Whether the first `count` ranges have the form. No more than 256 are looked at.
pub fn is_merged<'a>(
    starts: &'a [u64; limits::RANGES],
    ends: &'a [u64; limits::RANGES],
    count: usize,
) -> bool
    ensures { result ≡ is_merged (range_list (min count 256) starts.now ends.now) }
{
    let n = count.min(limits::RANGES);
    n == 0 || (starts[0] <= ends[0] && (1..n).all(|i| follows(ends[i - 1], starts[i], ends[i])))
}
