// What a ctl directive says (`CtlDirective::parse`).
ghost use Rattle.std.specs.Prelude.{◌≡◌, List, ℕ};
ghost use Rattle.reading.specs.Text.{fold};
ghost use Rattle.reading.specs.Numbers.{reason_number};
ghost use Rattle.reading.specs.Directive.{engine_value, access_value, processor_value, removal_value, target_value, other_named, directive_of, without_lists};
ghost use Rattle.ctl.specs.SettingNames.{engine_by, access_by, processor_by, target_by};

use crate::range_count;
use reading::{BodyAccess, BodyProcessor, CtlDirective, RuleEngineMode, UnsupportedReason};
use text::{ascii, trim};

// 02's number of a reason.
pub fn reason_number(reason: UnsupportedReason) -> u16
    ensures { result ≡ reason_number reason }
{
    match reason {
        UnsupportedReason::ModeValue => 1,
        UnsupportedReason::IdList => 2,
        UnsupportedReason::TargetForm => 3,
        UnsupportedReason::BodyAccessValue => 4,
        UnsupportedReason::Processor => 5,
        UnsupportedReason::Audit => 6,
        UnsupportedReason::Unrecognised => 7,
    }
}

// The mode that a value names. Here and below each spelling stands in a comparison of its own, and not in a table for all three: so the
// compiler compares letter by letter, as tools/folding looks at.
fn mode_named(value: &[u8]) -> Option<RuleEngineMode>
    ensures { engine_by result ≡ engine_value (fold value.now) }
{
    if ascii::folds_to(value, b"on") {
        Some(RuleEngineMode::On)
    } else if ascii::folds_to(value, b"off") {
        Some(RuleEngineMode::Off)
    } else if ascii::folds_to(value, b"detectiononly") {
        Some(RuleEngineMode::DetectionOnly)
    } else {
        None
    }
}

// The body access that a value names.
fn access_named(value: &[u8]) -> Option<BodyAccess>
    ensures { access_by result ≡ access_value (fold value.now) }
{
    if ascii::folds_to(value, b"on") {
        Some(BodyAccess::On)
    } else if ascii::folds_to(value, b"off") {
        Some(BodyAccess::Off)
    } else {
        None
    }
}

// The body processor that a value names.
fn processor_named(value: &[u8]) -> Option<BodyProcessor>
    ensures { processor_by result ≡ processor_value (fold value.now) }
{
    if ascii::folds_to(value, b"urlencoded") {
        Some(BodyProcessor::Urlencoded)
    } else if ascii::folds_to(value, b"multipart") {
        Some(BodyProcessor::Multipart)
    } else if ascii::folds_to(value, b"json") {
        Some(BodyProcessor::Json)
    } else if ascii::folds_to(value, b"xml") {
        Some(BodyProcessor::Xml)
    } else {
        None
    }
}

// 01 names `let .. else` for each of them. Of the four directives below the value as lent does not matter: only a target says where it is cut.
fn rule_engine(value: &[u8]) -> CtlDirective
    ensures { (lent : List ℕ) → result ≡ without_lists lent (engine_value (fold value.now)) }
{
    let Some(mode) = mode_named(value) else {
        return CtlDirective::Unsupported(UnsupportedReason::ModeValue);
    };
    CtlDirective::RuleEngine(mode)
}

fn rule_remove_by_id(value: &[u8]) -> CtlDirective
    ensures { (lent : List ℕ) → result ≡ without_lists lent (removal_value value.now) }
{
    let Some(n) = range_count::count_ranges(value) else {
        return CtlDirective::Unsupported(UnsupportedReason::IdList);
    };
    CtlDirective::RuleRemoveById(n)
}

fn request_body_access(value: &[u8]) -> CtlDirective
    ensures { (lent : List ℕ) → result ≡ without_lists lent (access_value (fold value.now)) }
{
    let Some(access) = access_named(value) else {
        return CtlDirective::Unsupported(UnsupportedReason::BodyAccessValue);
    };
    CtlDirective::RequestBodyAccess(access)
}

fn request_body_processor(value: &[u8]) -> CtlDirective
    ensures { (lent : List ℕ) → result ≡ without_lists lent (processor_value (fold value.now)) }
{
    let Some(processor) = processor_named(value) else {
        return CtlDirective::Unsupported(UnsupportedReason::Processor);
    };
    CtlDirective::RequestBodyProcessor(processor)
}

// A target has something on both sides of its first ';'. The value is given as lent and trimmed: the trimmed one is looked at, and
// where it is cut is said of the one as lent.
fn target_cut(value: &[u8], t: &[u8]) -> Option<usize>
    ensures { target_by result ≡ without_lists value.now (target_value t.now) }
{
    let cut = ascii::find(t, b';');
    if t.len() <= cut {
        return None;
    }
    let id = trim::trim(&t[..cut]);
    if id.is_empty() {
        return None; // without a look at the other side, which may have many blanks in front
    }
    let target = trim::trim(&t[cut + 1..]);
    if target.is_empty() {
        return None;
    }
    Some(ascii::find(value, b';'))
}

fn rule_remove_target_by_id(value: &[u8], t: &[u8]) -> CtlDirective
    ensures { result ≡ without_lists value.now (target_value t.now) }
{
    let Some(cut) = target_cut(value, t) else {
        return CtlDirective::Unsupported(UnsupportedReason::TargetForm);
    };
    CtlDirective::RuleRemoveTargetById(cut)
}

// A directive with none of the names that say something: of the audit log, which this engine has not, or unrecognised.
fn unsupported_named(name: &[u8]) -> CtlDirective
    ensures { (lent : List ℕ) → result ≡ without_lists lent (other_named (fold name.now)) }
{
    if ascii::folds_to(name, b"auditengine") || ascii::folds_to(name, b"auditlogparts") {
        CtlDirective::Unsupported(UnsupportedReason::Audit)
    } else {
        CtlDirective::Unsupported(UnsupportedReason::Unrecognised)
    }
}

// What a directive says; the ranges of ruleRemoveById are counted and not written.
pub fn parse(name: &[u8], value: &[u8]) -> CtlDirective
    ensures { result ≡ without_lists value.now (directive_of name.now value.now) }
{
    let directive = trim::trim(name);
    let v = trim::trim(value);
    if ascii::folds_to(directive, b"ruleengine") {
        rule_engine(v)
    } else if ascii::folds_to(directive, b"ruleremovebyid") {
        rule_remove_by_id(v)
    } else if ascii::folds_to(directive, b"ruleremovetargetbyid") {
        rule_remove_target_by_id(value, v)
    } else if ascii::folds_to(directive, b"requestbodyaccess") {
        request_body_access(v)
    } else if ascii::folds_to(directive, b"requestbodyprocessor") {
        request_body_processor(v)
    } else {
        unsupported_named(directive)
    }
}
