// Replays recorded calls of the Rust: makes each through the phase call, and compares all that was recorded of its result.
//
// Standard input has one case a line: decimal numbers with one blank between them, and a line end. A list is a count and its
// items; a text is a list of bytes.
//
//     case     := entry calls
//     entry    := mode access processor allowed stopped ranges
//     ranges   := n (start end)*
//     calls    := n call*
//     call     := phase mode status rules actions markers text outcomes expected
//     rules    := n (present id link first count)*
//     actions  := n (kind number text-start text-len value-start value-len)*
//     markers  := n (name-start name-len position)*
//     outcomes := n outcome*
//     expected := answer error visits ids entries mode access processor ranges targets allowed stop unsupported
//     visits   := n (index verdict)*, without the removed: the Rust does not evaluate a removed rule
//     ids      := n id*, those that the call added
//     entries  := n (present id index)*, those that the call added; id 0 where there is none
//     targets  := n (text text)*, those that the call added: rule id and target
//     stop     := 0 none | 2 held before the call | 1 status drop url log ids phase metadata
//     metadata := id msg logdata rev ver severity maturity accuracy
//     unsupported := index reason, both 0 where there is none
//
// Mode, access and processor are 0 where not set, else 1 more than their number. The ranges of a result are all that are held.
// In a stop, url, log, msg, logdata, rev and ver are 0, or 1 and a text; id, severity, maturity and accuracy are 0, or 1 and
// a number. At most 64 rules, 512 actions, 16 markers and 4,096 text bytes a call, 16 calls a case, 65,536 bytes a line.
//
// Each difference gives `case K call J: WHAT`; the end of the input, `N cases, M calls, D differences`. A line that is no case
// gives `line K: not a case`, and nothing more is read. A read or a write that fails ends the run with its error.
#![tactic(auto)]

mod replay_case;
mod replay_entry;
mod replay_line;
mod replay_same;

use crate::replay_case::{Call, Case};
use crate::replay_entry::{access_number, entry_transaction, mode_number, processor_number};
use crate::replay_line::{Line, LineError, Pieces};
use reading::Intervention;
use std::io;
use std::io::{Read, Write};
use transaction::run_phase;
use transaction::types::{Phase, Transaction};

// The lists that a case's calls write: long enough for 16 calls of 64 rules. The journal is each call's own.
#[derive(Drop)]
struct Lists {
    ids: [u64; 1024],
    entries: [[u64; 4]; 1024],
    journal: [[u64; 2]; 64],
}

impl Lists {
    fn new() -> Lists {
        Lists {
            ids: [0; 1024],
            entries: [[0; 4]; 1024],
            journal: [[0; 2]; 64],
        }
    }

    // The phase call. The records are lent as they stand in the line.
    fn run(&mut self, t: &Transaction, call: &Call<'_>) -> Phase {
        let given = call.given;
        self.journal = [[0; 2]; 64];
        run_phase::run_phase(
            *t,
            given.settings,
            given.rules,
            given.actions,
            given.markers,
            given.text,
            given.outcomes,
            &mut self.ids,
            self.entries.as_flattened_mut(),
            self.journal.as_flattened_mut(),
        )
    }
}

// Where differences go, how many cases, calls and differences there were, and how many calls of this case.
#[derive(Drop)]
struct Report<W> {
    out: W,
    cases: u64,
    calls: u64,
    differences: u64,
    call: u64,
}

impl<W: Write> Report<W> {
    fn new(out: W) -> Report<W> {
        Report {
            out,
            cases: 0,
            calls: 0,
            differences: 0,
            call: 0,
        }
    }

    // Writes a difference, if it is one.
    fn tell(&mut self, what: &str, same: bool) -> io::Result<()> {
        if same {
            return Ok(());
        }
        let case = self.cases;
        let call = self.call;
        self.differences = self.differences.wrapping_add(1);
        writeln!(self.out, "case {case} call {call}: {what}")
    }

    // What a call gave beside what is recorded.
    fn compare(
        &mut self,
        call: &Call<'_>,
        before: &Transaction,
        phase: &Phase,
        lists: &Lists,
    ) -> io::Result<()> {
        let e = call.expected;
        let answer = phase.answer;
        let after = phase.transaction;
        let told = answer.report.unsupported;
        self.tell(
            "answer",
            e.answer == answer.answer && e.error == answer.error,
        )?;
        self.tell(
            "visits",
            e.same_visits(&lists.journal, answer.visits as usize),
        )?;
        self.tell("ids", e.same_ids(&lists.ids, before.ids, after.ids))?;
        self.tell(
            "data",
            e.same_entries(&lists.entries, before.entries, after.entries),
        )?;
        self.compare_after(call, before, &after)?;
        self.tell(
            "unsupported",
            e.unsupported_index == told.index && e.unsupported_reason == told.reason,
        )
    }

    // What the transaction holds after a call beside what is recorded.
    fn compare_after(
        &mut self,
        call: &Call<'_>,
        before: &Transaction,
        after: &Transaction,
    ) -> io::Result<()> {
        let given = call.given;
        let e = call.expected;
        let controls = after.controls;
        let settings = controls.settings;
        let held = matches!(before.intervention, Some(_));
        self.tell("mode", e.mode == mode_number(settings.mode))?;
        self.tell("access", e.access == access_number(settings.access))?;
        self.tell(
            "processor",
            e.processor == processor_number(settings.processor),
        )?;
        self.tell("ranges", e.same_ranges(&controls))?;
        self.tell(
            "targets",
            given.same_targets(&e.targets, before.controls.targets, &controls),
        )?;
        self.tell("allowed", e.allowed == u64::from(after.allowed))?;
        self.tell(
            "intervention",
            given.same_stop(&e.stop, held, &after.intervention),
        )
    }

    // A case: its calls go on with one transaction.
    fn run(&mut self, case: &Case<'_>) -> io::Result<()> {
        let mut lists = Lists::new();
        let mut t = entry_transaction(&case.entry);
        self.cases = self.cases.wrapping_add(1);
        self.call = 0;
        for call in case.calls {
            self.calls = self.calls.wrapping_add(1);
            self.call = self.call.wrapping_add(1);
            let phase = lists.run(&t, &call);
            self.compare(&call, &t, &phase, &lists)?;
            t = phase.transaction;
        }
        Ok(())
    }

    fn write_sum(&mut self) -> io::Result<()> {
        let cases = self.cases;
        let calls = self.calls;
        let differences = self.differences;
        writeln!(
            self.out,
            "{cases} cases, {calls} calls, {differences} differences"
        )
    }

    // The line after those of the cases is none.
    fn write_bad(&mut self) -> io::Result<()> {
        let line = self.cases.wrapping_add(1);
        writeln!(self.out, "line {line}: not a case")
    }
}

// Replays the case of the next line; false at the end of the input.
fn replay_next<R: Read, W: Write>(
    input: &mut Pieces<R>,
    line: &mut Line,
    report: &mut Report<W>,
) -> Result<bool, LineError> {
    let Some(numbers) = line.read(input)? else {
        return Ok(false);
    };
    let case = Case::read(numbers).ok_or(LineError::NotACase)?;
    report.run(&case)?;
    Ok(true)
}

fn main(rt: HostRuntime) -> io::Result<()> {
    let mut input = Pieces::new(rt.reader());
    let mut line = Line::new();
    let mut report = Report::new(io::writer(&rt));
    for _ in 0..u64::MAX {
        match replay_next(&mut input, &mut line, &mut report) {
            Ok(true) => {}
            Ok(false) => return report.write_sum(),
            Err(LineError::NotACase) => return report.write_bad(),
            Err(LineError::Io(e)) => return Err(e),
        }
    }
    Ok(())
}
