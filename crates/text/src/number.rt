// A number in a text: an optional '+' and digits.
ghost use Rattle.std.specs.Prelude.{◌≡◌, ◌+◌, ◌*◌, ◌^◌, ◌<◌, SomeIff};
ghost use Rattle.reading.specs.Text.{digits, number_of};

// A number with one digit more, if it is at most 18446744073709551615.
pub fn with_digit(v: u64, digit: u8) -> Option<u64>
    ensures { SomeIff result (v * 10 + digit < 2 ^ 64) (v * 10 + digit) }
{
    v.checked_mul(10)?.checked_add(u64::from(digit))
}

// One or more digits, at most 18446744073709551615; there is no limit to their count.
fn read_digits(s: &[u8]) -> Option<u64>
    ensures { result ≡ digits s.now }
{
    if s.is_empty() {
        return None;
    }
    let mut v = 0;
    for b in s {
        if !b.is_ascii_digit() {
            return None;
        }
        let Some(next) = with_digit(v, b - b'0') else {
            return None;
        };
        v = next;
    }
    Some(v)
}

// A number: an optional '+', then digits.
pub fn read_number(s: &[u8]) -> Option<u64>
    ensures { result ≡ number_of s.now }
{
    read_digits(s.strip_prefix(b"+").unwrap_or(s))
}
