// The marker records that a host lends, as the numbers that the phase call and the question for a marker read.
ghost use Rattle.std.specs.Prelude.{◌≡◌};
ghost use Rattle.abi.specs.MarkerWords.{marker_words_of, blank};

use reading::{Marker, limits, widths};

// There is room for one marker more than a phase call takes, so that the call itself refuses a longer list.
pub const ROOM: usize = limits::MARKERS + 1;

pub const NUMBERS: usize = widths::MARKER * ROOM;

// Three numbers a marker, of as many markers as there is room for, and zeros after them; and how many markers there are. An array with
// its count: there is no heap.
#[derive(Clone, Copy)]
pub struct MarkerWords {
    pub words: [u64; NUMBERS],
    pub count: usize,
}

// So many markers, before the first is copied.
fn zeros(count: usize) -> MarkerWords
    ensures { result ≡ blank count }
{
    MarkerWords {
        words: [0u64; NUMBERS],
        count,
    }
}

// The records as numbers. They are copied into the answer's array one by one: passing it on by value would copy it for each marker.
pub fn unpack(markers: &[Marker]) -> MarkerWords
    ensures { result ≡ marker_words_of markers.now }
{
    let mut c = zeros(markers.len());
    for i in 0..markers.len().min(ROOM) {
        let m = markers[i];
        let k = widths::MARKER * i;
        c.words[k] = m.name.start;
        c.words[k + 1] = m.name.len;
        c.words[k + 2] = m.position;
    }
    c
}
