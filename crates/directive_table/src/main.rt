// Runs the directive reader on a table of directives from standard input, and writes a line for each.
//
// A row is seven numbers of five digits, each with one byte after it: the lengths of name and value
// in the row, how many fill bytes stand before each of them in its text, the fill byte, and the lengths
// of the two lists; then name and value, and one byte more. oracle/make-directive-table writes the table.
// A read or a write that fails ends the run with its error.
#![tactic(auto)]

ghost use Rattle.std.specs.Prelude.{◌≤◌, length, IfOk};

use ctl::{directive, read};
use input::read_full;
use reading::{BodyAccess, BodyProcessor, CtlDirective, Refusal, RuleEngineMode};
use std::io::{Read, Write};
use std::{fmt, io};
use text::trim;

// What the lists are filled with.
const START: u64 = 0xaaaa_aaaa_aaaa_aaaa;

const END: u64 = 0x5555_5555_5555_5555;

// The most rows that are read.
const ROWS: u64 = 100_000;

// The numbers of a row.
#[derive(Clone, Copy)]
struct Row {
    name: usize,
    value: usize,
    name_fill: usize,
    value_fill: usize,
    fill: u8,
    starts: usize,
    ends: usize,
}

// What a byte is as a digit; one that is none counts as 0.
fn digit(b: u8) -> usize
    ensures { result ≤ 9 }
{
    char::from(b).to_digit(10).map_or(0, |d| d as usize)
}

// The number that a field's first five bytes are.
fn number(field: [u8; 6]) -> usize {
    let [a, b, c, d, e, _] = field;
    let high = digit(a) * 10000 + digit(b) * 1000;
    high + digit(c) * 100 + digit(d) * 10 + digit(e)
}

impl Row {
    // The next row, or none where the input ends before it is whole.
    fn read<R: Read>(input: &mut R) -> io::Result<Option<Row>> {
        let mut fields = [[0u8; 6]; 7];
        if read_full(input, fields.as_flattened_mut())? < 42 {
            return Ok(None);
        }
        let [name, value, name_fill, value_fill, fill, starts, ends] = fields.map(number);
        Ok(Some(Row {
            name,
            value,
            name_fill,
            value_fill,
            fill: (fill % 256) as u8,
            starts,
            ends,
        }))
    }

    // Reads the row's texts, runs the reader on them, and writes its line.
    fn run<R: Read, W: Write>(self, input: &mut R, output: &mut W) -> io::Result<()> {
        let mut names = [self.fill; 66000];
        let mut values = [self.fill; 66000];
        let mut starts = [START; 300];
        let mut ends = [END; 300];
        let name = read_text(input, &mut names, self.name_fill, self.name)?;
        let value = read_text(input, &mut values, self.value_fill, self.value)?;
        read_full(input, &mut [0u8; 1])?;
        let s = self.starts.min(starts.len());
        let e = self.ends.min(ends.len());
        let read = read::read_directive(name, value, &mut starts[..s], &mut ends[..e]);
        let line = Line {
            read,
            value,
            starts: &starts,
            ends: &ends,
        };
        writeln!(output, "{line}")
    }
}

// Reads `n` bytes after the fill bytes, and answers the text up to their end. One that does not fit is empty, and nothing is read.
fn read_text<'a, R: Read>(
    input: &mut R,
    text: &'a mut [u8],
    fill: usize,
    n: usize,
) -> io::Result<&'a [u8]>
    ensures { IfOk result (λ t. length t.now ≤ length text.old) }
{
    let end = fill.saturating_add(n);
    if text.len() < end {
        return Ok(&[]);
    }
    read_full(input, &mut text[fill..end])?;
    Ok(&text[..end])
}

// A row's line: the number of a refusal, or the directive, and what is not as it should be.
#[derive(Drop)]
struct Line<'a> {
    read: Result<CtlDirective, Refusal>,
    value: &'a [u8],
    starts: &'a [u64],
    ends: &'a [u64],
}

impl fmt::Display for Line<'_> {
    fn fmt<W: fmt::Write>(&self, f: &mut fmt::Formatter<W>) -> fmt::Result {
        let used = match self.read {
            Ok(d) => {
                self.write_directive(d, f)?;
                written(d)
            }
            Err(refusal) => {
                write!(f, "{}", refusal.number())?;
                0
            }
        };
        write_changes(self.starts, used, START, f)?;
        write_changes(self.ends, used, END, f)
    }
}

impl Line<'_> {
    fn write_directive<W: fmt::Write>(
        &self,
        d: CtlDirective,
        f: &mut fmt::Formatter<W>,
    ) -> fmt::Result {
        match d {
            CtlDirective::RuleEngine(mode) => write!(f, "engine {}", mode_name(mode)),
            CtlDirective::RuleRemoveById(count) => self.write_ranges(count, f),
            CtlDirective::RuleRemoveTargetById(cut) => self.write_target(cut, f),
            CtlDirective::RequestBodyAccess(access) => {
                write!(f, "body-access {}", access_name(access))
            }
            CtlDirective::RequestBodyProcessor(processor) => {
                write!(f, "body-processor {}", processor_name(processor))
            }
            CtlDirective::Unsupported(reason) => {
                write!(f, "unsupported {}", directive::reason_number(reason))
            }
        }
    }

    // The first `count` ranges, as far as there are so many.
    fn write_ranges<W: fmt::Write>(&self, count: usize, f: &mut fmt::Formatter<W>) -> fmt::Result {
        write!(f, "ranges")?;
        for (start, end) in self.starts.iter().zip(self.ends).take(count) {
            write!(f, " {start}-{end}")?;
        }
        Ok(())
    }

    // The two sides of the ';', which stands at `cut`.
    fn write_target<W: fmt::Write>(&self, cut: usize, f: &mut fmt::Formatter<W>) -> fmt::Result {
        let Some((id, [_, target @ ..])) = self.value.split_at_checked(cut) else {
            return write!(f, "target cut outside");
        };
        let id = Text(trim::trim(id));
        let target = Text(trim::trim(target));
        write!(f, "target {id} {target}")
    }
}

// A TEXT of the case format.
#[derive(Drop)]
struct Text<'a>(&'a [u8]);

impl fmt::Display for Text<'_> {
    fn fmt<W: fmt::Write>(&self, f: &mut fmt::Formatter<W>) -> fmt::Result {
        write!(f, "\"")?;
        for &b in self.0 {
            match b {
                b'"' => write!(f, "\\\"")?,
                b'\\' => write!(f, "\\\\")?,
                b' '..=b'~' => write!(f, "{}", char::from(b))?,
                _ => write!(f, "\\x{b:02X}")?,
            }
        }
        write!(f, "\"")
    }
}

fn mode_name(mode: RuleEngineMode) -> &'static str {
    match mode {
        RuleEngineMode::On => "On",
        RuleEngineMode::DetectionOnly => "DetectionOnly",
        RuleEngineMode::Off => "Off",
    }
}

fn access_name(access: BodyAccess) -> &'static str {
    match access {
        BodyAccess::On => "On",
        BodyAccess::Off => "Off",
    }
}

fn processor_name(processor: BodyProcessor) -> &'static str {
    match processor {
        BodyProcessor::Urlencoded => "URLENCODED",
        BodyProcessor::Multipart => "MULTIPART",
        BodyProcessor::Json => "JSON",
        BodyProcessor::Xml => "XML",
    }
}

// How many entries of the lists a directive has.
fn written(d: CtlDirective) -> usize {
    match d {
        CtlDirective::RuleRemoveById(count) => count,
        _ => 0,
    }
}

// Tells where an entry after the first `used` is not as lent.
fn write_changes<W: fmt::Write>(
    list: &[u64],
    used: usize,
    lent: u64,
    f: &mut fmt::Formatter<W>,
) -> fmt::Result {
    if list.iter().skip(used).any(|&n| n != lent) {
        write!(f, " changed")?;
    }
    Ok(())
}

fn main(rt: HostRuntime) -> io::Result<()> {
    let mut input = rt.reader();
    let mut output = io::writer(&rt);
    for _ in 0..ROWS {
        let Some(row) = Row::read(&mut input)? else {
            break;
        };
        row.run(&mut input, &mut output)?;
    }
    Ok(())
}
