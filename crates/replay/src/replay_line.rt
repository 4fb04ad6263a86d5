// A line of the input as a list of numbers.
ghost use Rattle.std.specs.Prelude.{◌<◌, ◌≤◌, OnOk};

use crate::replay_case::Cursor;
use input::read_full;
use std::io;
use std::io::Read;

// How many bytes a piece of the input has.
const PIECE: usize = 4096;

// The most bytes of a line before its end, and the most numbers that they are.
const LINE_BYTES: u64 = 65536;

const LINE_NUMBERS: usize = 32768;

// Why no case was replayed.
#[derive(Drop)]
pub enum LineError {
    Io(io::Error),
    NotACase,
}

impl From<io::Error> for LineError {
    fn from(e: io::Error) -> LineError {
        LineError::Io(e)
    }
}

// The input, read piece by piece: how far the piece is used up, and how many of its bytes are in use.
#[derive(Drop)]
pub struct Pieces<R> {
    input: R,
    piece: [u8; PIECE],
    at: usize,
    len: usize,
    ghost within: { at ≤ len },
    ghost fits: { len ≤ 4096 },
}

impl<R: Read> Pieces<R> {
    pub fn new(input: R) -> Pieces<R> {
        Pieces {
            input,
            piece: [0; PIECE],
            at: 0,
            len: 0,
        }
    }

    // The next byte, or none at the end of the input.
    fn next_byte(&mut self) -> io::Result<Option<u8>> {
        if self.at == self.len {
            self.len = read_full(&mut self.input, &mut self.piece)?;
            self.at = 0;
        }
        if self.len == 0 {
            return Ok(None);
        }
        let b = self.piece[self.at];
        self.at += 1;
        Ok(Some(b))
    }
}

// A line's numbers, and the same as bytes: a text is lent from there.
#[derive(Drop)]
pub struct Line {
    numbers: [u64; LINE_NUMBERS],
    bytes: [u8; LINE_NUMBERS],
}

// The number with one digit more, or none where it is too large.
fn with_digit(n: u64, digit: u8) -> Option<u64> {
    n.checked_mul(10)?.checked_add(u64::from(digit))
}

impl Line {
    pub fn new() -> Line {
        Line {
            numbers: [0; LINE_NUMBERS],
            bytes: [0; LINE_NUMBERS],
        }
    }

    fn put(&mut self, at: usize, n: u64) -> Result<(), LineError>
        ensures { OnOk result (at < LINE_NUMBERS) }
    {
        if LINE_NUMBERS <= at {
            return Err(LineError::NotACase);
        }
        self.numbers[at] = n;
        self.bytes[at] = (n % 256) as u8;
        Ok(())
    }

    // Reads the next line, or none at the end of the input.
    pub fn read<R: Read>(
        &mut self,
        input: &mut Pieces<R>,
    ) -> Result<Option<Cursor<'_>>, LineError> {
        let mut count = 0;
        let mut number = None;
        for k in 0..=LINE_BYTES {
            let Some(b) = input.next_byte()? else {
                return if k == 0 {
                    Ok(None)
                } else {
                    Err(LineError::NotACase)
                };
            };
            match b {
                b'0'..=b'9' => {
                    let n = with_digit(number.unwrap_or(0), b - b'0');
                    number = Some(n.ok_or(LineError::NotACase)?);
                }
                b' ' | b'\n' => {
                    self.put(count, number.take().ok_or(LineError::NotACase)?)?;
                    count += 1;
                    if b == b'\n' {
                        return Ok(Some(Cursor::new(&self.numbers[..count], &self.bytes[..count])));
                    }
                }
                _ => return Err(LineError::NotACase),
            }
        }
        Err(LineError::NotACase)
    }
}
