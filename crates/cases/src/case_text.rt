// The words of a line, each with where it starts in the input.
use reading::{Part, RuleEngineMode};
use text::number;

// A part of the input, and where it starts.
#[derive(Clone, Copy)]
pub struct Span<'a> {
    pub start: u64,
    pub bytes: &'a [u8],
}

impl<'a> Span<'a> {
    pub fn part(self) -> Part {
        Part {
            start: self.start,
            len: self.bytes.len() as u64,
        }
    }

    // Takes the first `n` bytes off the front.
    fn take(&mut self, n: usize) -> Option<Span<'a>> {
        let (bytes, rest) = self.bytes.split_at_checked(n)?;
        let start = self.start;
        self.start = start.checked_add(n as u64)?;
        self.bytes = rest;
        Some(Span { start, bytes })
    }

    pub fn number(self) -> Option<u64> {
        match number::read_number(self.bytes) {
            Some(n) => Some(n),
            None => None,
        }
    }
}

// How long the word is that a text starts with. A TEXT has its quotes with it.
fn word_len(text: &[u8]) -> usize {
    match text {
        [b'"', rest @ ..] => rest
            .iter()
            .position(|&b| b == b'"')
            .map_or(text.len(), |n| n.saturating_add(2)),
        _ => text.iter().position(|&b| b == b' ').unwrap_or(text.len()),
    }
}

// What is left of a line. Each method takes the next word, and answers none where it is another or there is none.
#[derive(Clone, Copy)]
pub struct Words<'a> {
    rest: Span<'a>,
}

impl<'a> Words<'a> {
    pub fn of(line: Span<'a>) -> Words<'a> {
        Words { rest: line }
    }

    pub fn word(&mut self) -> Option<Span<'a>> {
        let blanks = self.rest.bytes.iter().position(|&b| b != b' ')?;
        self.rest.take(blanks)?;
        let n = word_len(self.rest.bytes);
        self.rest.take(n)
    }

    // What stands between the quotes of a TEXT.
    pub fn text(&mut self) -> Option<Span<'a>> {
        let word = self.word()?;
        let [b'"', bytes @ .., b'"'] = word.bytes else {
            return None;
        };
        let start = word.start.checked_add(1)?;
        Some(Span { start, bytes })
    }

    pub fn number(&mut self) -> Option<u64> {
        self.word()?.number()
    }

    pub fn mode(&mut self) -> Option<RuleEngineMode> {
        match self.word()?.bytes {
            b"On" => Some(RuleEngineMode::On),
            b"DetectionOnly" => Some(RuleEngineMode::DetectionOnly),
            b"Off" => Some(RuleEngineMode::Off),
            _ => None,
        }
    }

    // No word is left.
    pub fn end(mut self) -> Option<()> {
        self.word().is_none().then_some(())
    }
}

// Whether a line has only bytes that stand for themselves: the escapes are in none of the cases.
pub fn is_plain(line: &[u8]) -> bool {
    line.iter().all(|&b| matches!(b, b' '..=b'~') && b != b'\\')
}
