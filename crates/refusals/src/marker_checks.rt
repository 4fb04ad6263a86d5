// Refusal 5: what a lent marker, and a lent outcome, may hold. Each list is looked through once.
ghost use Rattle.std.specs.Prelude.{◌≡◌};
ghost use Rattle.reading.specs.Lists.{any};
ghost use Rattle.reading.specs.Records.{marker_list};
ghost use Rattle.reading.specs.Refusals.{bad_marker, bad_outcome};

use crate::rule_checks;
use reading::{Marker, Part, widths};
use text::high_bytes;

// A marker beside a text of so many bytes and so many rules.
fn bad_marker(marker: Marker, bytes: usize, rules: usize) -> bool
    ensures { result ≡ bad_marker bytes rules marker }
{
    rule_checks::is_outside(bytes, marker.name.start, marker.name.len)
        || (rules as u64) < marker.position
}

// Whether one of the markers has its name outside a text of so many bytes, or its position above so many rules.
pub fn any_bad_marker(markers: &[u64], bytes: usize, rules: usize) -> bool
    ensures { result ≡ any (bad_marker bytes rules) (marker_list markers.now) }
{
    let (records, _) = markers.as_chunks::<{ widths::MARKER }>();
    records.iter().any(|&[start, len, position]| {
        let name = Part { start, len };
        bad_marker(Marker { name, position }, bytes, rules)
    })
}

// Whether one of the outcomes is unknown.
pub fn any_bad_outcome(outcomes: &[u8]) -> bool
    ensures { result ≡ any bad_outcome outcomes.now }
{
    high_bytes::any_above(outcomes, 3)
}
