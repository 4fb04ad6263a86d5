// Writes what a phase call left, in the layout of docs/READING.md, "The sixteen cases".
use crate::case_read::Case;
use actions::record;
use control::state::Controls;
use ctl::{directive, read};
use reading::{Action, CtlDirective, Intervention, Part, Rule, RuleEngineMode, kinds};
use ruleset::rules;
use std::io;
use std::io::Write;
use text::span;
use transaction::run_phase;
use transaction::types::{Phase, Transaction};

// The numbers of verdicts.
const MISSED: u64 = 0;

const MATCHED: u64 = 1;

const REMOVED: u64 = 2;

// A column of the output: where it goes, and how many of its places are left.
#[derive(Drop)]
struct Column<'a, W> {
    output: &'a mut W,
    left: usize,
}

impl<W: Write> Write for Column<'_, W> {
    fn write(&mut self, text: &[u8]) -> io::Result<usize> {
        let n = self.output.write(text)?;
        self.left = self.left.saturating_sub(n);
        Ok(n)
    }

    fn flush(&mut self) -> io::Result<()> {
        self.output.flush()
    }
}

impl<W: Write> Column<'_, W> {
    // The rest of the column, and the two blanks after it.
    fn close(self) -> io::Result<()> {
        let Column { output, left } = self;
        write!(output, "{:left$}  ", "")
    }
}

fn mode_name(mode: RuleEngineMode) -> &'static str {
    match mode {
        RuleEngineMode::On => "On",
        RuleEngineMode::DetectionOnly => "DetectionOnly",
        RuleEngineMode::Off => "Off",
    }
}

// Writes a directive. A value with a comma is quoted, since commas also stand between actions.
fn write_directive<W: Write>(output: &mut W, text: &[u8], a: Action) -> io::Result<()> {
    let value = span::part_of(text, a.value);
    let quote = if value.contains(&b',') { "\"" } else { "" };
    output.write_all(span::part_of(text, a.text))?;
    write!(output, "={quote}")?;
    output.write_all(value)?;
    write!(output, "{quote}")
}

fn write_action<W: Write>(output: &mut W, text: &[u8], a: Action) -> io::Result<()> {
    match a.kind {
        kinds::DENY => write!(output, "deny"),
        kinds::PASS => write!(output, "pass"),
        kinds::ALLOW => write!(output, "allow"),
        kinds::SKIP => write!(output, "skip {}", a.number),
        kinds::SKIP_AFTER => {
            write!(output, "skipAfter ")?;
            output.write_all(span::part_of(text, a.text))
        }
        kinds::CTL => write_directive(output, text, a),
        kinds::STATUS => write!(output, "status {}", a.number),
        _ => write!(output, "other"),
    }
}

// The first `n` ranges.
fn write_ranges<W: Write>(
    output: &mut W,
    starts: &[u64],
    ends: &[u64],
    n: usize,
) -> io::Result<()> {
    write!(output, " ranges")?;
    for (start, end) in starts.iter().zip(ends).take(n) {
        write!(output, " {start}-{end}")?;
    }
    Ok(())
}

// The controls after the call.
fn write_controls<W: Write>(output: &mut W, controls: &Controls) -> io::Result<()> {
    let n = controls.ranges;
    write!(output, " | controls")?;
    match controls.settings.mode {
        None if n == 0 => write!(output, " -")?,
        None => {}
        Some(mode) if n == 0 => write!(output, " mode {}", mode_name(mode))?,
        Some(mode) => write!(output, " mode {},", mode_name(mode))?,
    }
    if n == 0 {
        return Ok(());
    }
    write_ranges(output, &controls.starts, &controls.ends, n)
}

fn write_id<W: Write>(output: &mut W, id: Option<u64>) -> io::Result<()> {
    match id {
        None => Ok(()),
        Some(id) => write!(output, " {id}"),
    }
}

fn write_stop<W: Write>(output: &mut W, stop: Option<Intervention>) -> io::Result<()> {
    match stop {
        None => write!(output, "none"),
        Some(i) => {
            write!(output, "{}, ids", i.status)?;
            write_id(output, i.closing)?;
            write_id(output, i.starter)
        }
    }
}

// A case after its phase call, and what the call wrote. The text that is lent to it is the input itself.
#[derive(Drop)]
pub struct Walk<'a> {
    text: &'a [u8],
    case: &'a Case,
    phase: Phase,
    ids: [u64; 16],
    entries: [[u64; 4]; 16],
    journal: [[u64; 2]; 16],
}

// The transaction before the call. A range was tested when its line was read, so it is never refused here.
fn new_transaction(case: &Case) -> Transaction {
    let new = Controls::new();
    let controls = match case.range {
        None => new,
        Some(range) => new.remove_range(range).controls,
    };
    Transaction {
        controls,
        allowed: false,
        intervention: None,
        ids: 0,
        entries: 0,
    }
}

impl<'a> Walk<'a> {
    pub fn run(text: &'a [u8], case: &'a Case) -> Walk<'a> {
        let mut ids = [0; 16];
        let mut entries = [[0; 4]; 16];
        let mut journal = [[0; 2]; 16];
        let rules = case.rules.as_slice();
        let phase = run_phase::run_phase(
            new_transaction(case),
            case.settings(),
            rules.as_flattened(),
            case.actions.as_slice().as_flattened(),
            case.markers.as_slice().as_flattened(),
            text,
            &case.outcomes[..rules.len()],
            &mut ids,
            entries.as_flattened_mut(),
            journal.as_flattened_mut(),
        );
        Walk {
            text,
            case,
            phase,
            ids,
            entries,
            journal,
        }
    }

    pub fn write<W: Write>(&self, output: &mut W) -> io::Result<()> {
        self.write_head(output)?;
        for index in 0..self.case.rules.len() {
            self.write_rule(output, index)?;
        }
        self.write_after(output)
    }

    // The first line: the case, its mode, its markers, and what it holds at entry.
    fn write_head<W: Write>(&self, output: &mut W) -> io::Result<()> {
        let case = self.case;
        let mut column = Column { output, left: 3 };
        column.write_all(span::part_of(self.text, case.name))?;
        column.close()?;
        write!(output, "mode {}", mode_name(case.mode))?;
        for &[start, len, position] in case.markers.as_slice() {
            write!(output, "; marker ")?;
            output.write_all(span::part_of(self.text, Part { start, len }))?;
            write!(output, " at {position}")?;
        }
        if let Some(range) = case.range {
            write!(output, "; range {}-{} held", range.start, range.end)?;
        }
        if case.rules.len() == 0 {
            write!(output, "; no rules")?;
        }
        writeln!(output)
    }

    fn write_rule<W: Write>(&self, output: &mut W, index: usize) -> io::Result<()> {
        let rule = rules::rule_at(self.case.rules.as_slice().as_flattened(), index);
        write!(output, "  {index}  ")?;
        let mut column = Column { output, left: 11 };
        if rule.present == 1 {
            write!(column, "rule {}", rule.id)?;
        } else {
            write!(column, "no id")?;
        }
        column.close()?;
        self.write_actions(output, rule)?;
        self.write_verdict(output, index)?;
        writeln!(output)
    }

    // The column of a rule's link and actions. The id action is left out: it is the rule's id.
    fn write_actions<W: Write>(&self, output: &mut W, rule: Rule) -> io::Result<()> {
        let actions = self.case.actions.as_slice().as_flattened();
        let first = rule.first as usize;
        let end = first.saturating_add(rule.count as usize);
        let mut column = Column { output, left: 42 };
        let mut between = "";
        if rule.link == 1 {
            write!(column, "link")?;
            between = " ";
        }
        for k in first..end {
            let action = record::action_at(actions, k);
            if action.kind != kinds::ID {
                write!(column, "{between}")?;
                write_action(&mut column, self.text, action)?;
                between = ", ";
            }
        }
        column.close()
    }

    // The visits of the journal: a rule's index and the number of its verdict.
    fn visits(&self) -> &[[u64; 2]] {
        let n = self.journal.len().min(self.phase.answer.visits as usize);
        &self.journal[..n]
    }

    fn is_link(&self, index: u64) -> bool {
        let rule = rules::rule_at(self.case.rules.as_slice().as_flattened(), index as usize);
        rule.link == 1
    }

    // Breaks: a missed entry, a removed link, a closed unit.
    fn is_break(&self, [index, verdict]: [u64; 2]) -> bool {
        match verdict {
            MATCHED => !self.is_link(index),
            REMOVED => self.is_link(index),
            _ => true,
        }
    }

    fn write_verdict<W: Write>(&self, output: &mut W, index: usize) -> io::Result<()> {
        let visits = self.visits();
        let Some(at) = visits
            .iter()
            .position(|&[visited, _]| visited == index as u64)
        else {
            return write!(output, "passed");
        };
        match visits[at][1] {
            MISSED => write!(output, "missed"),
            MATCHED => {
                self.write_matched(output, &visits[..at], index as u64)?;
                if at + 1 == visits.len() {
                    write!(output, "{}", self.last_words())?;
                }
                Ok(())
            }
            REMOVED => write!(output, "removed"),
            _ => write!(output, "error"),
        }
    }

    // What the visits before it and the link flags tell of a matched visit. Of its unit are the matched visits after the last break.
    fn write_matched<W: Write>(
        &self,
        output: &mut W,
        before: &[[u64; 2]],
        index: u64,
    ) -> io::Result<()> {
        let since = before.rsplit(|&visit| self.is_break(visit)).next();
        let mut links = since
            .unwrap_or(&[])
            .iter()
            .filter(|[_, verdict]| *verdict == MATCHED);
        if self.is_link(index) {
            let starter = if links.next().is_none() {
                ", starter"
            } else {
                ""
            };
            return write!(output, "matched  waits{starter}");
        }
        write!(output, "matched  closes unit")?;
        for [link, _] in links {
            write!(output, " {link}")?;
        }
        write!(output, " {index}")
    }

    // What stands after the last visit. The transaction had neither allow nor intervention before the call, so that visit gave
    // what is found.
    fn last_words(&self) -> &'static str {
        let after = &self.phase.transaction;
        if after.allowed {
            ", allows"
        } else if matches!(after.intervention, Some(_)) {
            ", stops"
        } else {
            ""
        }
    }

    // The last line. The page has the answer only where it is not 0.
    fn write_after<W: Write>(&self, output: &mut W) -> io::Result<()> {
        let answer = self.phase.answer;
        let after = self.phase.transaction;
        let unsupported = answer.report.unsupported;
        let allowed = if after.allowed { "yes" } else { "no" };
        write!(output, "  ")?;
        if answer.answer != 0 {
            write!(output, "answer {} | ", answer.answer)?;
        }
        self.write_ids(output, after.ids)?;
        self.write_entries(output, after.entries)?;
        write_controls(output, &after.controls)?;
        write!(output, " | allowed {allowed} | intervention ")?;
        write_stop(output, after.intervention)?;
        if unsupported.reason != 0 {
            write!(
                output,
                " | unsupported {} {}",
                unsupported.index, unsupported.reason
            )?;
        }
        writeln!(output)
    }

    // The matched ids, `n` of them.
    fn write_ids<W: Write>(&self, output: &mut W, n: usize) -> io::Result<()> {
        write!(output, "ids")?;
        if n == 0 {
            write!(output, " -")?;
        }
        for id in self.ids.iter().take(n) {
            write!(output, " {id}")?;
        }
        Ok(())
    }

    // The data entries, `n` of them.
    fn write_entries<W: Write>(&self, output: &mut W, n: usize) -> io::Result<()> {
        write!(output, " | data")?;
        if n == 0 {
            write!(output, " -")?;
        }
        for &[present, id, _, index] in self.entries.iter().take(n) {
            if present == 1 {
                write!(output, " {id}@{index}")?;
            } else {
                write!(output, " -@{index}")?;
            }
        }
        Ok(())
    }
}

// A directive that stands alone, and what the directive reader answers.
pub fn write_directive_line<W: Write>(output: &mut W, text: &[u8], a: Action) -> io::Result<()> {
    let mut starts = [0; 256];
    let mut ends = [0; 256];
    let r = read::read_directive(
        span::part_of(text, a.text),
        span::part_of(text, a.value),
        &mut starts,
        &mut ends,
    );
    write_directive(output, text, a)?;
    write!(output, " ")?;
    match r {
        Ok(CtlDirective::RuleEngine(mode)) => {
            write!(output, " mode {}", mode_name(mode))?;
        }
        Ok(CtlDirective::RuleRemoveById(n)) => {
            write_ranges(output, &starts, &ends, n)?;
        }
        Ok(CtlDirective::Unsupported(reason)) => {
            write!(output, " unsupported {}", directive::reason_number(reason))?;
        }
        Ok(_) => write!(output, " supported")?,
        Err(refusal) => write!(output, " answer {}", refusal.number())?,
    }
    writeln!(output)
}
