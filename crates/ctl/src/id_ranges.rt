// The ranges of a list of ids, the value of `ctl:ruleRemoveById` (`parse_id_ranges`), written to two lent lists. A list is read
// twice: the module range_count sees first whether all of it is supported and how many ranges it has, so that nothing is written
// before the whole is known to fit.
ghost use Rattle.std.specs.Prelude.{◌≡◌, ◌<◌, suc, length, take, drop};
ghost use Rattle.reading.specs.Text.{trim, number_of, ids_from, id_part};
ghost use Rattle.ctl.specs.WriteRanges.{Put, Written};

use reading::{IdPart, RuleIdRange};
use text::{ascii, number, trim};

// The range between the two numbers around the index k.
fn ids_around(t: &[u8], k: usize) -> IdPart
    requires { k < length t.now }
    ensures { result ≡ ids_from (number_of (trim (take k t.now))) (number_of (trim (drop (suc k) t.now))) }
{
    let before = trim::trim(&t[..k]);
    let Some(start) = number::read_number(before) else {
        return IdPart::Bad;
    };
    let past = trim::trim(&t[k + 1..]);
    let Some(end) = number::read_number(past) else {
        return IdPart::Bad;
    };
    if end < start {
        return IdPart::Bad; // start above end
    }
    IdPart::Range(RuleIdRange { start, end })
}

// What one part between commas says.
fn id_part(p: &[u8]) -> IdPart
    ensures { result ≡ id_part p.now }
{
    let t = trim::trim(p);
    if t.is_empty() {
        return IdPart::Blank;
    }
    let k = ascii::find(t, b'-');
    if k < t.len() {
        return ids_around(t, k);
    }
    let Some(id) = number::read_number(t) else {
        return IdPart::Bad;
    };
    IdPart::Range(RuleIdRange { start: id, end: id })
}

// Writes a part's range at index k, where both lists have that place, and answers the next index.
fn put_range(part: IdPart, k: usize, starts: &mut [u64], ends: &mut [u64]) -> usize
    ensures { Put part k starts.old ends.old result starts.new ends.new }
{
    match part {
        IdPart::Range(r) if k < starts.len() && k < ends.len() => {
            starts[k] = r.start;
            ends[k] = r.end;
            k + 1
        }
        _ => k,
    }
}

// Writes a list's ranges from the start of the two lent lists, as many as they have places for.
pub fn write_ranges(value: &[u8], starts: &mut [u64], ends: &mut [u64])
    ensures { Written value.now starts.old ends.old starts.new ends.new }
{
    let mut k = 0;
    for part in value.split(|b| *b == b',') {
        k = put_range(id_part(part), k, starts, ends);
    }
}
