// Where a marker's name leads (`marker` in engine/ruleset.rs): the question by value, on markers as numbers.
ghost use Rattle.std.specs.Prelude.{◌≡◌};
ghost use Rattle.reading.specs.Records.{marker_list};
ghost use Rattle.abi.specs.MarkerWords.{markers_in};
ghost use Rattle.reading.specs.Numbers.{answer_number};
ghost use Rattle.abi.specs.MarkerLookup.{lookup_answer, lookup, answered_by};

use crate::marker_words::MarkerWords;
use reading::{Refusal, limits, widths};
use refusals::marker_checks;
use ruleset::markers;
use text::high_bytes;

// The rules are counted by a host, as a number of 64 bits.
const MOST_RULES: u64 = limits::RULES as u64;

// What the question answers: 0, or the number of a refusal; 1 and the position where there is a marker of the name, else twice 0.
#[repr(C)]
#[derive(Clone, Copy)]
pub struct HostMarker {
    // 0 or a refusal's number.
    pub answer: u64,
    // 1 where there is a marker of the name, else 0.
    pub present: u64,
    // The position of the latest such marker, else 0.
    pub position: u64,
}

// The first of the refusals 2, 5 and 6 that applies, or none.
fn refusal(markers: &[u64], rules: u64, text: &[u8]) -> Result<(), Refusal>
    ensures { answer_number result ≡ lookup_answer (marker_list markers.now) rules text.now }
{
    if MOST_RULES < rules
        || limits::MARKERS < markers.len() / widths::MARKER
        || limits::TEXT_BYTES < text.len()
    {
        return Err(Refusal::TooLarge);
    }
    if marker_checks::any_bad_marker(markers, text.len(), rules as usize) {
        return Err(Refusal::Record);
    }
    if high_bytes::has_high_byte(text) {
        return Err(Refusal::HighByte);
    }
    Ok(())
}

// The answer as numbers.
fn with_position(found: Result<Option<u64>, Refusal>) -> HostMarker
    ensures { result ≡ answered_by found }
{
    let (answer, position) = match found {
        Ok(position) => (0, position),
        Err(refusal) => (refusal.number(), None),
    };
    HostMarker {
        answer,
        present: position.is_some() as u64,
        position: position.unwrap_or(0),
    }
}

// The question on number slices: three numbers a marker.
fn look_up(markers: &[u64], rules: u64, text: &[u8], name: &[u8]) -> Result<Option<u64>, Refusal>
    ensures { answered_by result ≡ lookup (marker_list markers.now) rules text.now name.now }
{
    refusal(markers, rules, text)?;
    Ok(markers::marker_named(markers, text, name))
}

// The question on unpacked markers. More than 256 are refused before their numbers are looked at, which may not be all there.
pub fn look_up_words(c: MarkerWords, rules: u64, text: &[u8], name: &[u8]) -> HostMarker
    ensures { result ≡ lookup (markers_in c) rules text.now name.now }
{
    if limits::MARKERS < c.count {
        return with_position(Err(Refusal::TooLarge));
    }
    let n = widths::MARKER * c.count;
    with_position(look_up(&c.words[..n], rules, text, name))
}
