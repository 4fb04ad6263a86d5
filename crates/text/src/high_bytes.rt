// Whether a list of small numbers has one above a limit.
ghost use Rattle.std.specs.Prelude.{◌≡◌, cond, ltb};
ghost use Rattle.reading.specs.Lists.{any};
ghost use Rattle.reading.specs.Directive.{is_high};

// Whether a list has a number above a limit. The pass has no way out, so that the compiler can take many
// numbers at once.
pub fn any_above(s: &[u8], limit: u8) -> bool
    ensures { result ≡ any (ltb limit) s.now }
{
    limit < s.iter().fold(0, |most, x| most.max(*x))
}

// Whether a text has a byte of 80 (hexadecimal) or more.
pub fn has_high_byte(s: &[u8]) -> bool
    ensures { result ≡ any is_high s.now }
{
    any_above(s, 127)
}
