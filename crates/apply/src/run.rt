// What a closed unit's actions do to the controls (`TransactionControls::apply`), by the codes of the module codes, so that no
// text but that of added ranges is read again. A unit's members are the matched entries of a lent part of the journal.
ghost use Rattle.std.specs.Prelude.{[], ◌∷◌, ltb, eqb, get_or};
ghost use Rattle.reading.specs.Lists.{keep};
ghost use Rattle.reading.specs.Text.{part_of};
ghost use Rattle.reading.specs.Walk.{no_action};
ghost use Rattle.reading.specs.Records.{rule_list, action_list, journal_list, matched_in};
ghost use Rattle.control.specs.ControlsStruct.{controls_of};
ghost use Rattle.apply.specs.Append.{struct_of};
ghost use Rattle.apply.specs.UnitCodes.{applied_code, rule_by_codes, unit_by_codes};
ghost use Rattle.apply.specs.UnitChanges.{rule_adds, unit_adds};
ghost use Rattle.apply.specs.ApplyUnit.{Turned};

use crate::append::{ControlArrays, ControlCounts};
use crate::{append, changes, codes, settings};
use actions::record;
use reading::{Place, Rule, widths};
use ruleset::rules;
use text::span;

// The controls after the action at an index, by its code: up to `XML` a setting or nothing, `TARGET` the place as a target, all others the ranges
// of the value, which is read only here.
fn apply(
    h: ControlCounts,
    code: u16,
    i: usize,
    actions: &[u64],
    text: &[u8],
    phase: u64,
    arrays: &mut ControlArrays,
) -> ControlCounts
    ensures { Turned (ltb 17 code) h arrays.old.starts arrays.old.ends arrays.old.phases arrays.old.positions
        result arrays.new.starts arrays.new.ends arrays.new.phases arrays.new.positions
        (applied_code (record { phase = phase; position = i })
        (part_of text.now (get_or (action_list actions.now) i no_action).value) code
        (controls_of (struct_of h arrays.old.starts arrays.old.ends arrays.old.phases arrays.old.positions))) }
{
    match code {
        0..=codes::XML => ControlCounts {
            settings: settings::set_by_code(h.settings, code),
            ..h
        },
        codes::TARGET => {
            let at = Place {
                phase,
                position: i as u64,
            };
            append::add_target(h, at, arrays)
        }
        _ => {
            let action = record::action_at(actions, i);
            let value = span::part_of(text, action.value);
            append::add_ranges(h, value, arrays)
        }
    }
}

// The controls after a rule's actions.
fn rule_controls(
    h: ControlCounts,
    rule: Rule,
    actions: &[u64],
    text: &[u8],
    codes: &[u16],
    phase: u64,
    arrays: &mut ControlArrays,
) -> ControlCounts
    ensures { Turned (rule_adds codes.now rule) h arrays.old.starts arrays.old.ends arrays.old.phases arrays.old.positions
        result arrays.new.starts arrays.new.ends arrays.new.phases arrays.new.positions
        (rule_by_codes (record { phase = phase; text = text.now; actions = action_list actions.now }) codes.now rule
        (controls_of (struct_of h arrays.old.starts arrays.old.ends arrays.old.phases arrays.old.positions))) }
{
    let first = rule.first as usize;
    let end = changes::codes_end(codes.len(), first, rule.count as usize);
    let mut r = h;
    for i in first..end {
        r = apply(r, codes[i], i, actions, text, phase, arrays);
    }
    r
}

// The controls after a journal entry: those after its rule where that is a member.
fn entry_controls(
    h: ControlCounts,
    index: u64,
    verdict: u64,
    rules: &[u64],
    actions: &[u64],
    text: &[u8],
    codes: &[u16],
    phase: u64,
    arrays: &mut ControlArrays,
) -> ControlCounts
    ensures { Turned (unit_adds codes.now (rule_list rules.now) (keep (eqb verdict 1) (index ∷ []))) h arrays.old.starts arrays.old.ends arrays.old.phases arrays.old.positions
        result arrays.new.starts arrays.new.ends arrays.new.phases arrays.new.positions
        (unit_by_codes (record { phase = phase; text = text.now; actions = action_list actions.now }) codes.now
        (rule_list rules.now) (keep (eqb verdict 1) (index ∷ []))
        (controls_of (struct_of h arrays.old.starts arrays.old.ends arrays.old.phases arrays.old.positions))) }
{
    if verdict == 1 {
        let rule = rules::rule_at(rules, index as usize);
        rule_controls(h, rule, actions, text, codes, phase, arrays)
    } else {
        h
    }
}

// The controls after the members of a unit.
fn members_controls(
    h: ControlCounts,
    entries: &[u64],
    rules: &[u64],
    actions: &[u64],
    text: &[u8],
    codes: &[u16],
    phase: u64,
    arrays: &mut ControlArrays,
) -> ControlCounts
    ensures { Turned (unit_adds codes.now (rule_list rules.now) (matched_in (journal_list entries.now))) h arrays.old.starts arrays.old.ends arrays.old.phases arrays.old.positions
        result arrays.new.starts arrays.new.ends arrays.new.phases arrays.new.positions
        (unit_by_codes (record { phase = phase; text = text.now; actions = action_list actions.now }) codes.now
        (rule_list rules.now) (matched_in (journal_list entries.now))
        (controls_of (struct_of h arrays.old.starts arrays.old.ends arrays.old.phases arrays.old.positions))) }
{
    let n = entries.len() / widths::JOURNAL_ENTRY;
    let mut r = h;
    for i in 0..n {
        let index = entries[widths::JOURNAL_ENTRY * i];
        let verdict = entries[widths::JOURNAL_ENTRY * i + 1];
        r = entry_controls(
            r, index, verdict, rules, actions, text, codes, phase, arrays,
        );
    }
    r
}

// The controls after a closed unit. Where no action of the unit changes them, as for most, no more than that is looked at.
pub fn unit_controls(
    h: ControlCounts,
    entries: &[u64],
    rules: &[u64],
    actions: &[u64],
    text: &[u8],
    codes: &[u16],
    phase: u64,
    arrays: &mut ControlArrays,
) -> ControlCounts
    ensures { Turned (unit_adds codes.now (rule_list rules.now) (matched_in (journal_list entries.now))) h arrays.old.starts arrays.old.ends arrays.old.phases arrays.old.positions
        result arrays.new.starts arrays.new.ends arrays.new.phases arrays.new.positions
        (unit_by_codes (record { phase = phase; text = text.now; actions = action_list actions.now }) codes.now
        (rule_list rules.now) (matched_in (journal_list entries.now))
        (controls_of (struct_of h arrays.old.starts arrays.old.ends arrays.old.phases arrays.old.positions))) }
{
    if !changes::changes(entries, rules, codes) {
        return h;
    }
    members_controls(h, entries, rules, actions, text, codes, phase, arrays)
}
