// What a phase tells besides, from its journal after the walk: how many visits found each verdict, and the first unsupported
// directive of its closed units, which the module unsupported finds.
ghost use Rattle.std.specs.Prelude.{◌≡◌, cond, eqb};
ghost use Rattle.reading.specs.Records.{rule_list, journal_list};
ghost use Rattle.reading.specs.Report.{no_report, none_unsupported, report_with};
ghost use Rattle.report.specs.ByCodes.{unsupported_by_codes};

use crate::unsupported;
use reading::{Report, UnsupportedAt, widths};

// Of a call without a visit.
pub fn no_report() -> Report
    ensures { result ≡ no_report }
{
    let unsupported = unsupported::none();
    Report {
        missed: 0,
        matched: 0,
        removed: 0,
        errors: 0,
        unsupported,
    }
}

// What a verdict adds to the count of one of them.
fn one_if(verdict: u64, number: u64) -> u64
    ensures { result ≡ cond (eqb verdict number) 1 0 }
{
    (verdict == number) as u64
}

// Of the entries of a journal, with an unsupported directive or none.
fn count_verdicts(entries: &[u64], unsupported: UnsupportedAt) -> Report
    ensures { result ≡ report_with (journal_list entries.now) unsupported }
{
    let (journal, _) = entries.as_chunks::<{ widths::JOURNAL_ENTRY }>();
    let mut others = 0u64;
    let mut matched = 0u64;
    let mut removed = 0u64;
    let mut errors = 0u64;
    for &[_, verdict] in journal {
        if verdict == 0 { // most rules of a phase are missed: no count is touched for them
            continue;
        }
        others += 1;
        matched += one_if(verdict, 1);
        removed += one_if(verdict, 2);
        errors += one_if(verdict, 3);
    }
    Report {
        missed: journal.len() as u64 - others,
        matched,
        removed,
        errors,
        unsupported,
    }
}

// Of the entries of a journal, by the codes of apply::codes. Where no action of the call is unsupported nothing is looked for.
pub fn tell(entries: &[u64], rules: &[u64], codes: &[u16], some_unsupported: bool) -> Report
    ensures { result ≡ report_with (journal_list entries.now)
        (cond some_unsupported (unsupported_by_codes codes.now (rule_list rules.now) (journal_list entries.now)) none_unsupported) }
{
    let unsupported = if some_unsupported {
        unsupported::first_unsupported(entries, rules, codes)
    } else {
        unsupported::none()
    };
    count_verdicts(entries, unsupported)
}
