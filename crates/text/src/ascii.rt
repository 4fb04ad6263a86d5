// Bytes of a text: folding, comparison with a spelling, searching. Each function takes a whole slice; for a part of a lent
// text see the module span.
ghost use Rattle.std.specs.Prelude.{◌≡◌};
ghost use Rattle.reading.specs.Text.{same, fold_byte, fold, index_of};

// The ASCII lower case of a byte, by arithmetic alone, so that every byte takes the same time. Each quotient is 0 or 1: the first is 1
// from A on, the second from the byte after Z on. tools/folding checks that the compiler makes no branch of it.
pub fn fold_byte(b: u8) -> u8
    ensures { result ≡ fold_byte b }
{
    let n = b as u32;
    let from_a = (n + 191) / 256;
    let after_z = (n + 165) / 256;
    (n + (from_a - after_z) * 32) as u8
}

// Whether a text, folded, is the given spelling.
pub fn folds_to(s: &[u8], spelling: &[u8]) -> bool
    ensures { result ≡ same (fold s.now) spelling.now }
{
    s.len() == spelling.len() && s.iter().zip(spelling).all(|(x, y)| fold_byte(*x) == *y)
}

// Where a byte stands first, or the length.
pub fn find(s: &[u8], b: u8) -> usize
    ensures { result ≡ index_of b s.now }
{
    s.iter().position(|x| *x == b).unwrap_or(s.len())
}
