// The position of a marker (engine/ruleset.rs). Markers are lent as a flat list of numbers, three to a marker.
ghost use Rattle.std.specs.Prelude.{◌≡◌};
ghost use Rattle.reading.specs.Text.{part_of};
ghost use Rattle.reading.specs.Records.{marker_list};
ghost use Rattle.reading.specs.Markers.{marker_position};

use reading::{Part, widths};
use text::span;

// The position of the latest marker of a name, byte for byte, or none. The name is a text of its own. 01 names this form: a loop that
// yields the position by break, and in it the names compared by another, which a label leaves.
pub fn marker_named(markers: &[u64], text: &[u8], name: &[u8]) -> Option<u64>
    ensures { result ≡ marker_position text.now (marker_list markers.now) name.now }
{
    let n = name.len();
    let mut k = markers.len() / widths::MARKER;
    let found = 'search: loop {
        if k == 0 {
            break 'search None;
        }
        k -= 1;
        let p = Part {
            start: markers[widths::MARKER * k],
            len: markers[widths::MARKER * k + 1],
        };
        let other = span::part_of(text, p);
        if other.len() == n {
            let mut j = 0;
            'name: loop {
                if j == n {
                    break 'search Some(markers[widths::MARKER * k + 2]);
                }
                if other[j] != name[j] {
                    break 'name;
                }
                j += 1;
            }
        }
    };
    found
}

// The same of a name that is a part of the markers' text.
pub fn marker(markers: &[u64], text: &[u8], name: Part) -> Option<u64>
    ensures { result ≡ marker_position text.now (marker_list markers.now) (part_of text.now name) }
{
    marker_named(markers, text, span::part_of(text, name))
}
