// The members of a unit: the matched entries of a part of the journal, two numbers to an entry.
ghost use Rattle.std.specs.Prelude.{◌≡◌};
ghost use Rattle.reading.specs.Records.{journal_list, matched_in};
ghost use Rattle.reading.specs.Units.{starter_of, closer_of};

use reading::widths;

// The first member, 0 where there is none.
pub fn starter_of(entries: &[u64]) -> u64
    ensures { result ≡ starter_of (matched_in (journal_list entries.now)) }
{
    let (entries, _) = entries.as_chunks::<{ widths::JOURNAL_ENTRY }>();
    let first = entries.iter().find(|entry| entry[1] == 1);
    first.map_or(0, |entry| entry[0])
}

// The last member, 0 where there is none. Two functions: one would tell first and last apart by a flag.
pub fn closer_of(entries: &[u64]) -> u64
    ensures { result ≡ closer_of (matched_in (journal_list entries.now)) }
{
    let (entries, _) = entries.as_chunks::<{ widths::JOURNAL_ENTRY }>();
    let last = entries.iter().rev().find(|entry| entry[1] == 1);
    last.map_or(0, |entry| entry[0])
}
