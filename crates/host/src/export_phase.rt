// The phase call, as C and Rust make it: thin, on a transaction that is lent by `&mut`.
ghost use Rattle.reading.specs.Records.{given_of, lent};
ghost use Rattle.abi.specs.HostCall.{HostRan};

use abi::host_phase::HostTransaction;
use abi::{host_phase, marker_words};
use reading::{CallSettings, Marker};
use transaction::types::Answer;

// The phase call, on a transaction and marker records that the host lends.
#[unsafe(no_mangle)]
pub extern "C" fn tivembo_run_phase(
    t: &mut HostTransaction,
    call: CallSettings,
    rules: &[u64],
    actions: &[u64],
    markers: &[Marker],
    text: &[u8],
    outcomes: &[u8],
    ids: &mut [u64],
    entries: &mut [u64],
    journal: &mut [u64],
) -> Answer
    ensures { HostRan t.old (given_of call rules.now actions.now markers.now text.now outcomes.now)
        (lent ids.old entries.old journal.old) result t.new (lent ids.new entries.new journal.new) }
{
    let c = marker_words::unpack(markers);
    let p = host_phase::host_phase(
        *t, call, rules, actions, c, text, outcomes, ids, entries, journal,
    );
    *t = p.transaction;
    p.answer
}
