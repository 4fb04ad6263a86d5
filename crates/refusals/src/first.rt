// Refusals 1 to 7: the first that applies, over everything that a call lends.
ghost use Rattle.std.specs.Prelude.{◌≡◌, ◌||◌, ◌+◌, ◌/◌, length, ltb};
ghost use Rattle.reading.specs.Lists.{any};
ghost use Rattle.reading.specs.Numbers.{answer_number};
ghost use Rattle.reading.specs.Records.{rule_list, action_list, marker_list, given_of};
ghost use Rattle.reading.specs.Refusals.{bad_rule, bad_action, bad_marker, bad_outcome};
ghost use Rattle.reading.specs.Call.{Call, Transaction, Lists};
ghost use Rattle.refusals.specs.FirstRefusal.{Sized, Roomed, Counted, first_of_four, first_of_seven};

use crate::{action_checks, marker_checks, rule_checks};
use reading::{CallSettings, Refusal, limits, widths};
use text::high_bytes;

// How many records, text bytes and outcomes a call lends.
#[derive(Clone, Copy)]
pub struct Counts {
    pub rules: usize,
    pub actions: usize,
    pub markers: usize,
    pub bytes: usize,
    pub outcomes: usize,
}

// What the transaction counts, and how many entries the lists have that it counts. Whether refusal 3 meets the controls is known by then.
#[derive(Clone, Copy)]
pub struct Sizes {
    pub bad_controls: bool,
    pub ids_used: usize,
    pub entries_used: usize,
    pub ids: usize,
    pub entries: usize,
}

// How many entries the lists have that begin empty in each call.
#[derive(Clone, Copy)]
pub struct Room {
    pub journal: usize,
}

// Refusal 1: a phase or a mode that there is not.
fn is_unknown(call: CallSettings) -> bool
    ensures { result ≡ (ltb call.phase 1 || ltb 5 call.phase || ltb 2 call.mode) }
{
    call.phase < 1 || 5 < call.phase || 2 < call.mode
}

// Refusal 2: more rules, actions, markers or text bytes than a call may have.
fn is_too_large(counts: Counts) -> bool
    ensures { result ≡ (ltb 512 counts.rules || ltb 4096 counts.actions || ltb 256 counts.markers || ltb 65536 counts.bytes) }
{
    limits::RULES < counts.rules
        || limits::ACTIONS < counts.actions
        || limits::MARKERS < counts.markers
        || limits::TEXT_BYTES < counts.bytes
}

// Refusal 3: the controls are beyond their limits or hold ranges that are not merged, or the transaction counts more than a lent list has.
fn is_miscounted(sizes: Sizes) -> bool
    ensures { result ≡ (sizes.bad_controls || ltb sizes.ids sizes.ids_used || ltb sizes.entries sizes.entries_used) }
{
    sizes.bad_controls || sizes.ids < sizes.ids_used || sizes.entries < sizes.entries_used
}

// The first refusal of 1 to 4 that applies, or none. These look at the controls, at numbers and at no record, so the answer is
// the same whatever the lists hold.
pub fn early_refusal(call: CallSettings, counts: Counts, sizes: Sizes) -> Result<(), Refusal>
    ensures { (q : Call) → Counted q call counts sizes → answer_number result ≡ first_of_four q }
{
    if is_unknown(call) {
        return Err(Refusal::Settings);
    }
    if is_too_large(counts) {
        return Err(Refusal::TooLarge);
    }
    if is_miscounted(sizes) {
        return Err(Refusal::Counts);
    }
    if counts.outcomes != counts.rules {
        return Err(Refusal::Outcomes);
    }
    Ok(())
}

// Refusal 5: a record that holds what no record may.
fn has_bad_record(
    rules: &[u64],
    actions: &[u64],
    markers: &[u64],
    bytes: usize,
    outcomes: &[u8],
) -> bool
    ensures { result ≡ (any (bad_rule (length actions.now / 6)) (rule_list rules.now)
        || any (bad_action bytes) (action_list actions.now)
        || any (bad_marker bytes (length rules.now / 5)) (marker_list markers.now)
        || any bad_outcome outcomes.now) }
{
    rule_checks::any_bad_rule(rules, actions.len() / widths::ACTION)
        || action_checks::any_bad_action(actions, bytes)
        || marker_checks::any_bad_marker(markers, bytes, rules.len() / widths::RULE)
        || marker_checks::any_bad_outcome(outcomes)
}

// Whether a list of so many entries, some of them used, has fewer free than are needed. The sum is never formed, so it
// can't wrap.
fn is_short(entries: usize, used: usize, needed: usize) -> bool
    ensures { result ≡ ltb entries (used + needed) }
{
    entries < used || entries - used < needed
}

// Refusal 7: a list with fewer free entries than there are rules.
fn has_no_room(sizes: Sizes, room: Room, rules: usize) -> bool
    ensures { result ≡ (ltb sizes.ids (sizes.ids_used + rules)
        || ltb sizes.entries (sizes.entries_used + rules) || ltb room.journal rules) }
{
    is_short(sizes.ids, sizes.ids_used, rules)
        || is_short(sizes.entries, sizes.entries_used, rules)
        || room.journal < rules
}

// The first refusal of 1 to 7 that applies, or none.
pub fn first_refusal(
    call: CallSettings,
    rules: &[u64],
    actions: &[u64],
    markers: &[u64],
    text: &[u8],
    outcomes: &[u8],
    sizes: Sizes,
    room: Room,
) -> Result<(), Refusal>
    ensures { (t : Transaction) (lists : Lists) → Sized t lists sizes → Roomed lists room
        → answer_number result ≡ first_of_seven (record {
          given = given_of call rules.now actions.now (marker_list markers.now) text.now outcomes.now;
          transaction = t;
          lists = lists;
        }) }
{
    let n = rules.len() / widths::RULE;
    let bytes = text.len();
    let counts = Counts {
        rules: n,
        actions: actions.len() / widths::ACTION,
        markers: markers.len() / widths::MARKER,
        bytes,
        outcomes: outcomes.len(),
    };
    early_refusal(call, counts, sizes)?;
    if has_bad_record(rules, actions, markers, bytes, outcomes) {
        return Err(Refusal::Record);
    }
    if high_bytes::has_high_byte(text) {
        return Err(Refusal::HighByte);
    }
    if has_no_room(sizes, room, n) {
        return Err(Refusal::NoRoom);
    }
    Ok(())
}
