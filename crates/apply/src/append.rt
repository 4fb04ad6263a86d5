// One target, and the ranges of a value, added to controls whose arrays are lent.
ghost use Rattle.std.specs.Prelude.{◌+◌, ◌≤◌, ◌≡◌, map, length};
ghost use Rattle.std.proofs.lemmas.List.Edits.{sets};
ghost use Rattle.reading.specs.Text.{id_parts, ranges_in};
ghost use Rattle.reading.specs.Directive.{start_of, end_of};
ghost use Rattle.apply.specs.Append.{TargetAdded, Fitting, RangesAdded};

use control::ranges;
use control::state::Settings;
use ctl::{id_ranges, range_count};
use reading::{Place, limits};
use text::trim;

// What of the controls is passed by value: their settings, and how many places of their arrays are in use. The arrays are
// lent beside it, so that nothing of them is copied.
#[derive(Clone, Copy)]
pub struct ControlCounts {
    pub settings: Settings,
    pub ranges: usize,
    pub targets: usize,
    // Whether ranges were added since the call was entered.
    pub added: bool,
}

// The arrays of the controls: the starts and the ends of ranges, and the phases and the positions of targets.
#[derive(Clone, Copy)]
pub struct ControlArrays {
    pub starts: [u64; limits::RANGES],
    pub ends: [u64; limits::RANGES],
    pub phases: [u64; limits::TARGETS],
    pub positions: [u64; limits::TARGETS],
}

// One target at the end, where no limit refuses it.
pub fn add_target(h: ControlCounts, at: Place, arrays: &mut ControlArrays) -> ControlCounts
    ensures added { TargetAdded h at arrays.old.phases arrays.old.positions result arrays.new.phases arrays.new.positions }
    ensures starts_kept { arrays.new.starts ≡ arrays.old.starts }
    ensures ends_kept { arrays.new.ends ≡ arrays.old.ends }
{
    let n = h.targets;
    if limits::TARGETS <= n {
        return h;
    }
    arrays.phases[n] = at.phase;
    arrays.positions[n] = at.position;
    ControlCounts {
        targets: n + 1,
        ..h
    }
}

// Writes a list's ranges after so many places, where there is room for all. A function of its own, because a part can be lent of
// a slice, and not of an array that is itself lent.
fn write_after(value: &[u8], used: usize, starts: &mut [u64], ends: &mut [u64])
    requires { (length ends.old ≡ length starts.old) × (used + length (ranges_in (id_parts value.now)) ≤ length starts.old) }
    ensures starts_after { starts.new ≡ sets starts.old used (map start_of (ranges_in (id_parts value.now))) }
    ensures ends_after { ends.new ≡ sets ends.old used (map end_of (ranges_in (id_parts value.now))) }
{
    id_ranges::write_ranges(value, &mut starts[used..], &mut ends[used..]);
}

// How many ranges of a trimmed value are added to so many: all, or none where they do not fit.
fn fitting(value: &[u8], used: usize) -> usize
    ensures { Fitting value.now used result }
{
    match range_count::count_ranges(value) {
        Some(n) if n <= limits::RANGES.saturating_sub(used) => n,
        _ => 0,
    }
}

// The ranges of a value merged in, all or none. The first addition of a call makes every place after the ranges in use 0; later ones find
// them so, and merging keeps it.
pub fn add_ranges(h: ControlCounts, value: &[u8], arrays: &mut ControlArrays) -> ControlCounts
    ensures added { RangesAdded h value.now arrays.old.starts arrays.old.ends result arrays.new.starts arrays.new.ends }
    ensures phases_kept { arrays.new.phases ≡ arrays.old.phases }
    ensures positions_kept { arrays.new.positions ≡ arrays.old.positions }
{
    let used = h.ranges;
    ranges::clear_once(h.added, &mut arrays.starts, used);
    ranges::clear_once(h.added, &mut arrays.ends, used);
    let v = trim::trim(value);
    let n = fitting(v, used);
    if n == 0 {
        return ControlCounts { added: true, ..h };
    }
    write_after(v, used, &mut arrays.starts, &mut arrays.ends);
    ControlCounts {
        ranges: ranges::merge_after(&mut arrays.starts, &mut arrays.ends, used, used + n),
        added: true,
        ..h
    }
}
