// Questions to the controls of a host's record, by number. Each answers 3 where the controls are beyond their limits or their ranges are
// not merged, and then 5 where a number of the record is not known.
ghost use Rattle.std.specs.Prelude.{◌≡◌, ◌&&◌};
ghost use Rattle.abi.specs.HostControls.{known_controls};
ghost use Rattle.abi.specs.HostValues.{number_known};
ghost use Rattle.reading.specs.Numbers.{answer_number};
ghost use Rattle.host.specs.HostQueries.{refusal_in, answered_by, target_by, host_target_count, host_target};
ghost use Rattle.host.specs.HostQueries.{host_mode, host_removed, host_access, host_processor};

use abi::host_controls::HostControls;
use abi::values::{HostNumber, HostPlace, Numbered};
use abi::{host_controls, values};
use control::{fields, queries};
use reading::{Place, Refusal};

// The answer to a question: 0 and the number of a value, or the number of a refusal and 0.
#[repr(C)]
#[derive(Clone, Copy)]
pub struct HostQueryAnswer {
    // 0 or a refusal's number.
    pub answer: u64,
    // The value, 0 after a refusal.
    pub value: u64,
}

// The same where the value is a target.
#[repr(C)]
#[derive(Clone, Copy)]
pub struct HostTarget {
    // 0 or a refusal's number.
    pub answer: u64,
    // The target's place.
    pub target: HostPlace,
}

// 3 or 5, of a host's controls and of whether every number is known, or none.
pub fn refusal(c: HostControls, known: bool) -> Result<(), Refusal>
    ensures { answer_number result ≡ refusal_in c known }
{
    let ranges = c.ranges as usize;
    let targets = c.targets as usize;
    if fields::is_bad(&c.starts, &c.ends, ranges, targets) {
        return Err(Refusal::Counts);
    }
    if !known {
        return Err(Refusal::Record);
    }
    Ok(())
}

// The same where the controls are all that is given.
pub fn refusal_of(c: HostControls) -> Result<(), Refusal>
    ensures { answer_number result ≡ refusal_in c (known_controls c) }
{
    refusal(c, host_controls::is_known_controls(c))
}

// A question that is refused with this number.
pub fn refusal_answer(answer: u64) -> HostQueryAnswer
    ensures { result ≡ record { answer = answer; value = 0 } }
{
    HostQueryAnswer { answer, value: 0 }
}

// The answer to a question, as numbers.
fn query_answer(value: Result<u64, Refusal>) -> HostQueryAnswer
    ensures { result ≡ answered_by value }
{
    match value {
        Ok(value) => HostQueryAnswer { answer: 0, value },
        Err(refusal) => refusal_answer(refusal.number()),
    }
}

fn target_count(c: HostControls) -> Result<u64, Refusal>
    ensures { answered_by result ≡ host_target_count c }
{
    refusal_of(c)?; // else nothing is counted
    Ok(queries::target_count(c.into())? as u64)
}

// How many targets are removed.
#[unsafe(no_mangle)]
pub extern "C" fn tivembo_target_count(c: HostControls) -> HostQueryAnswer
    ensures { result ≡ host_target_count c }
{
    query_answer(target_count(c))
}

fn target_at(c: HostControls, at: u64) -> Result<Option<Place>, Refusal>
    ensures { target_by result ≡ host_target c at }
{
    refusal_of(c)?; // whatever place is asked for
    queries::target_at(c.into(), at as usize)
}

// The target at a place of the list, counted from 0, or none after its end.
#[unsafe(no_mangle)]
pub extern "C" fn tivembo_target_at(c: HostControls, at: u64) -> HostTarget
    ensures { result ≡ host_target c at }
{
    match target_at(c, at) {
        Ok(found) => HostTarget {
            answer: 0,
            target: found.into(),
        },
        Err(refusal) => HostTarget {
            answer: refusal.number(),
            target: None.into(),
        },
    }
}

fn engine_mode(c: HostControls, ruleset_mode: u64) -> Result<u64, Refusal>
    ensures { answered_by result ≡ host_mode c ruleset_mode }
{
    if 2 < ruleset_mode {
        return Err(Refusal::Settings);
    }
    refusal_of(c)?;
    let mode = queries::engine_mode(c.into(), fields::mode_of_number(ruleset_mode))?;
    Ok(mode.number())
}

// The mode set last, else the rule set's: 0, 1 or 2.
#[unsafe(no_mangle)]
pub extern "C" fn tivembo_engine_mode(c: HostControls, ruleset_mode: u64) -> HostQueryAnswer
    ensures { result ≡ host_mode c ruleset_mode }
{
    query_answer(engine_mode(c, ruleset_mode))
}

// Whether every number of the controls and of an id is known.
fn are_known(c: HostControls, id: HostNumber) -> bool
    ensures { result ≡ (known_controls c && number_known id) }
{
    host_controls::is_known_controls(c) && values::is_number_known(id)
}

fn is_rule_removed(c: HostControls, id: HostNumber) -> Result<u64, Refusal>
    ensures { answered_by result ≡ host_removed c id }
{
    refusal(c, are_known(c, id))?;
    let removed = queries::is_rule_removed(c.into(), id.into())?;
    Ok(values::flag_number(removed))
}

// Whether a rule of this id, or of none, is removed: 1 or 0.
#[unsafe(no_mangle)]
pub extern "C" fn tivembo_is_rule_removed(c: HostControls, id: HostNumber) -> HostQueryAnswer
    ensures { result ≡ host_removed c id }
{
    query_answer(is_rule_removed(c, id))
}

fn request_body_access(c: HostControls) -> Result<u64, Refusal>
    ensures { answered_by result ≡ host_access c }
{
    refusal_of(c)?; // whatever access is set
    let access = queries::request_body_access(c.into())?;
    Ok(access.number())
}

// Whether the request body is read: 0 On, 1 Off.
#[unsafe(no_mangle)]
pub extern "C" fn tivembo_request_body_access(c: HostControls) -> HostQueryAnswer
    ensures { result ≡ host_access c }
{
    query_answer(request_body_access(c))
}

fn request_body_processor(c: HostControls) -> Result<u64, Refusal>
    ensures { answered_by result ≡ host_processor c }
{
    refusal_of(c)?; // whatever processor is set
    let processor = queries::request_body_processor(c.into())?;
    Ok(values::setting_number(processor))
}

// The body processor: 0 where none is set, else one more than its number.
#[unsafe(no_mangle)]
pub extern "C" fn tivembo_request_body_processor(c: HostControls) -> HostQueryAnswer
    ensures { result ≡ host_processor c }
{
    query_answer(request_body_processor(c))
}
