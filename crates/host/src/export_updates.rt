// Additions to the controls of a host's record. Each is refused with 3 where the controls are beyond their limits or their ranges are not
// merged, and then with 5 where a number of the record is not known.
ghost use Rattle.reading.specs.Controls.{with_range, with_target, add_range_answer, add_target_answer};
ghost use Rattle.host.specs.HostQueries.{controls_in};
ghost use Rattle.std.specs.Prelude.{true, false};
ghost use Rattle.host.specs.HostUpdates.{HostAdded};

use crate::export_queries;
use abi::host_controls::HostControls;
use control::state::Controls;
use reading::{Place, RuleIdRange};

// The record after an addition, with its answer.
#[repr(C)]
#[derive(Clone, Copy)]
pub struct HostChangeAnswer {
    // 0 or a refusal's number.
    pub answer: u64,
    // The controls after the addition, as given after a refusal.
    pub controls: HostControls,
}

// Adds a range of removed ids, merged with those held, which may then be fewer. After 3 and an unknown number: 5 where the start is above
// the end, 8 where 256 are held, also where it would merge.
#[unsafe(no_mangle)]
pub extern "C" fn tivembo_remove_range(c: HostControls, start: u64, end: u64) -> HostChangeAnswer
    ensures { HostAdded true c result (add_range_answer (controls_in c) (record { start = start; end = end }))
        (with_range (controls_in c) (record { start = start; end = end })) }
{
    if let Err(refusal) = export_queries::refusal_of(c) {
        return HostChangeAnswer {
            answer: refusal.number(),
            controls: c,
        };
    }
    let added = Controls::from(c).remove_range(RuleIdRange { start, end });
    if let Err(refusal) = added.answer {
        return HostChangeAnswer {
            answer: refusal.number(), // 5 or 8
            controls: c,
        };
    }
    HostChangeAnswer {
        answer: 0,
        controls: added.controls.into(),
    }
}

// Adds the place of a removed target at the end. After 3 and an unknown number: 9 where 64 are held.
#[unsafe(no_mangle)]
pub extern "C" fn tivembo_remove_target(
    c: HostControls,
    phase: u64,
    position: u64,
) -> HostChangeAnswer
    ensures { HostAdded false c result (add_target_answer (controls_in c)) (with_target (controls_in c) (record { phase = phase; position = position })) }
{
    if let Err(refusal) = export_queries::refusal_of(c) {
        return HostChangeAnswer {
            answer: refusal.number(),
            controls: c,
        };
    }
    let added = Controls::from(c).remove_target(Place { phase, position });
    if let Err(refusal) = added.answer {
        return HostChangeAnswer {
            answer: refusal.number(), // 9
            controls: c,
        };
    }
    HostChangeAnswer {
        answer: 0,
        controls: added.controls.into(),
    }
}
