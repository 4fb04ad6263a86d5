// Parts of a lent text: thin functions that lend a part on to those of the other modules.
ghost use Rattle.std.specs.Prelude.{◌≡◌};
ghost use Rattle.reading.specs.Text.{same, part_of, trim, fold, number_of};

use crate::{ascii, number, trim};
use reading::Part;

// A part of a text; what of it lies after the text's end is left out.
pub fn part_of(text: &[u8], p: Part) -> &[u8]
    ensures { result.now ≡ part_of text.now p }
{
    let start = p.start.min(text.len() as u64) as usize;
    let rest = &text[start..];
    let len = p.len.min(rest.len() as u64) as usize;
    &rest[..len]
}

// A part of a text, trimmed.
pub fn trim_part(text: &[u8], p: Part) -> &[u8]
    ensures { result.now ≡ trim (part_of text.now p) }
{
    trim::trim(part_of(text, p))
}

// Whether a part of a text, folded, is the given spelling.
pub fn part_folds_to(text: &[u8], p: Part, spelling: &[u8]) -> bool
    ensures { result ≡ same (fold (part_of text.now p)) spelling.now }
{
    ascii::folds_to(part_of(text, p), spelling)
}

// The number that a part of a text is.
pub fn part_number(text: &[u8], p: Part) -> Option<u64>
    ensures { result ≡ number_of (part_of text.now p) }
{
    number::read_number(part_of(text, p))
}
