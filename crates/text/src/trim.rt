// The blanks around a text.
ghost use Rattle.std.specs.Prelude.{◌≡◌};
ghost use Rattle.reading.specs.Text.{is_blank, trim_start, trim_end, trim};

// The bytes that are trimmed: 09 to 0D and 20 (hexadecimal).
pub fn is_blank(b: u8) -> bool
    ensures { result ≡ is_blank b }
{
    matches!(b, 9..=13 | 32)
}

// A text without the blanks in front.
fn trim_start(s: &[u8]) -> &[u8]
    ensures { result.now ≡ trim_start s.now }
{
    let start = s.iter().position(|b| !is_blank(*b)).unwrap_or(s.len());
    &s[start..]
}

// A text without the blanks at its end.
fn trim_end(s: &[u8]) -> &[u8]
    ensures { result.now ≡ trim_end s.now }
{
    let blanks = s
        .iter()
        .rev()
        .position(|b| !is_blank(*b))
        .unwrap_or(s.len());
    &s[..s.len() - blanks]
}

// A text without the blanks at its ends.
pub fn trim(s: &[u8]) -> &[u8]
    ensures { result.now ≡ trim s.now }
{
    trim_end(trim_start(s))
}
