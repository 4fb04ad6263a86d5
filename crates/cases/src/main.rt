// Runs the cases of standard input through the phase call, and writes a walk for each, in the layout of docs/READING.md.
// What is written is what the call left: journal, ids, data and transaction.
//
// Standard input has the case format, as far as cases/c1-c16.cases uses it. Anything else, and what does not fit into the
// lists, gives `bad input`, and nothing more is read. The text that is lent to the call is the input itself.
// A read or a write that fails ends the run with its error.
#![tactic(auto)]

mod case_read;
mod case_text;
mod case_walk;

use crate::case_read::{Case, Settings, State};
use crate::case_text::{Span, Words};
use crate::case_walk::Walk;
use input::read_full;
use std::io;
use std::io::Write;

// How many bytes the input has room for. One that fills it is too long.
const INPUT: usize = 8192;

// Why nothing more is read.
#[derive(Drop)]
enum CaseError {
    Io(io::Error),
    BadInput,
}

impl From<io::Error> for CaseError {
    fn from(e: io::Error) -> CaseError {
        CaseError::Io(e)
    }
}

// Where the walks go, the input, whether something was written before, and the case at hand.
#[derive(Drop)]
struct Run<'a, W> {
    output: W,
    text: &'a [u8],
    started: bool,
    case: Case,
}

impl<W: Write> Run<'_, W> {
    // A blank line between what is written for two cases.
    fn write_gap(&mut self) -> io::Result<()> {
        if self.started {
            writeln!(self.output)?;
        }
        self.started = true;
        Ok(())
    }

    // A case at its `end`, which stands alone in its line.
    fn run_case(&mut self, words: Words<'_>) -> Result<State, CaseError> {
        words.end().ok_or(CaseError::BadInput)?;
        self.write_gap()?;
        Walk::run(self.text, &self.case).write(&mut self.output)?;
        Ok(State::Outside)
    }

    // A directive that stands alone, outside a case.
    fn run_directive(&mut self, words: Words<'_>) -> Result<State, CaseError> {
        let action = case_read::read_directive(words).ok_or(CaseError::BadInput)?;
        self.write_gap()?;
        case_walk::write_directive_line(&mut self.output, self.text, action)?;
        Ok(State::Outside)
    }

    // One line: what it makes of the lines before it.
    fn run_line(&mut self, state: State, line: Span<'_>) -> Result<State, CaseError> {
        let mut words = Words::of(line);
        let Some(Span { bytes: word, .. }) = words.word() else {
            return Ok(state);
        };
        if word.starts_with(b"#") {
            return Ok(state);
        }
        if !case_text::is_plain(line.bytes) {
            return Err(CaseError::BadInput);
        }
        let next = match (state, word) {
            (State::Outside, b"ctl") => return self.run_directive(words),
            (State::Outside, b"case") => Settings::read_name(words),
            (State::Outside, _) => None,
            (State::Settings(settings), _) => settings.read(word, words, &mut self.case),
            (State::Case, b"end") => return self.run_case(words),
            (State::Case, _) => self.case.read(word, words),
        };
        next.ok_or(CaseError::BadInput)
    }

    // All lines. The last one has its end too, and stands outside a case.
    fn run_lines(&mut self) -> Result<(), CaseError> {
        let mut state = State::Outside;
        let mut start: u64 = 0;
        for line in self.text.split_inclusive(|&b| b == b'\n') {
            let bytes = line.strip_suffix(b"\n").ok_or(CaseError::BadInput)?;
            state = self.run_line(state, Span { start, bytes })?;
            start = start.wrapping_add(line.len() as u64);
        }
        match state {
            State::Outside => Ok(()),
            _ => Err(CaseError::BadInput),
        }
    }
}

fn main(rt: HostRuntime) -> io::Result<()> {
    let mut input = [0u8; INPUT];
    let n = read_full(&mut rt.reader(), &mut input)?;
    let mut run = Run {
        output: io::writer(&rt),
        text: &input[..n],
        started: false,
        case: Case::new(),
    };
    let result = if n == INPUT {
        Err(CaseError::BadInput)
    } else {
        run.run_lines()
    };
    match result {
        Ok(()) => Ok(()),
        Err(CaseError::BadInput) => writeln!(run.output, "bad input"),
        Err(CaseError::Io(e)) => Err(e),
    }
}
