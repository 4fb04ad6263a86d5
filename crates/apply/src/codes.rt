// What each action does to the controls, as one small number. The text of a ctl action is read once in a call, for this.
ghost use Rattle.std.specs.Prelude.{◌≡◌, not, ◌&&◌, eqb, length, take, get_or};
ghost use Rattle.reading.specs.Lists.{any, over};
ghost use Rattle.reading.specs.Records.{action_list};
ghost use Rattle.reading.specs.Walk.{no_action};
ghost use Rattle.apply.specs.Codes.{code_of, code_at, codes_of, is_reason, same_texts, IsCodeOf};

use actions::record;
use ctl::directive;
use reading::{
    Action, BodyAccess, BodyProcessor, CtlDirective, RuleEngineMode, kinds, limits, widths,
};
use text::span;

// The codes. An action that is no ctl has 0, and an unsupported directive the number of its reason: codes up to `LAST_REASON` change
// nothing. One of n ranges has n more than `RANGES`, and no more than `TOO_MANY` more: more ranges than a transaction may hold are
// refused wherever a rule has the action.
pub const LAST_REASON: u16 = 7;

pub const MODE_ON: u16 = 8;

pub const MODE_DETECTION_ONLY: u16 = 9;

pub const MODE_OFF: u16 = 10;

pub const ACCESS_ON: u16 = 11;

pub const ACCESS_OFF: u16 = 12;

pub const URLENCODED: u16 = 13;

pub const MULTIPART: u16 = 14;

pub const JSON: u16 = 15;

pub const XML: u16 = 16;

pub const TARGET: u16 = 17;

pub const RANGES: u16 = 18;

const TOO_MANY: usize = limits::RANGES + 1;

fn mode_code(mode: RuleEngineMode) -> u16
    ensures { result ≡ code_of (CtlDirective.RuleEngine mode) }
{
    match mode {
        RuleEngineMode::On => MODE_ON,
        RuleEngineMode::DetectionOnly => MODE_DETECTION_ONLY,
        RuleEngineMode::Off => MODE_OFF,
    }
}

fn access_code(access: BodyAccess) -> u16
    ensures { result ≡ code_of (CtlDirective.RequestBodyAccess access) }
{
    match access {
        BodyAccess::On => ACCESS_ON,
        BodyAccess::Off => ACCESS_OFF,
    }
}

fn processor_code(processor: BodyProcessor) -> u16
    ensures { result ≡ code_of (CtlDirective.RequestBodyProcessor processor) }
{
    match processor {
        BodyProcessor::Urlencoded => URLENCODED,
        BodyProcessor::Multipart => MULTIPART,
        BodyProcessor::Json => JSON,
        BodyProcessor::Xml => XML,
    }
}

// The code of so many ranges, counted no further than one above the limit.
fn ranges_code(n: usize) -> u16
    ensures { result ≡ code_of (CtlDirective.RuleRemoveById n) }
{
    RANGES + n.min(TOO_MANY) as u16
}

// The code of a directive.
fn code_of(directive: CtlDirective) -> u16
    ensures { result ≡ code_of directive }
{
    match directive {
        CtlDirective::RuleEngine(mode) => mode_code(mode),
        CtlDirective::RuleRemoveById(n) => ranges_code(n),
        CtlDirective::RuleRemoveTargetById(_) => TARGET,
        CtlDirective::RequestBodyAccess(access) => access_code(access),
        CtlDirective::RequestBodyProcessor(processor) => processor_code(processor),
        CtlDirective::Unsupported(reason) => directive::reason_number(reason),
    }
}

// Whether an action has the two texts of the one at an index, whose code is given; 0 stands for no such action.
fn is_again(actions: &[u64], last: usize, last_code: u16, a: Action) -> bool
    ensures { result ≡ (not (eqb last_code 0) && same_texts (get_or (action_list actions.now) last no_action) a) }
{
    if last_code == 0 {
        return false;
    }
    let b = record::action_at(actions, last);
    // by the four numbers, as `same_texts` names them
    b.text.start == a.text.start
        && b.text.len == a.text.len
        && b.value.start == a.value.start
        && b.value.len == a.value.len
}

// The code of the action at an index. Only the text of a ctl action (19) is read, and not where it is that of the last one read, whose
// index and code are given: rule sets repeat a directive often, and a host that keeps equal texts once lends it at one place.
fn code_at(actions: &[u64], text: &[u8], index: usize, last: usize, last_code: u16) -> u16
    ensures { IsCodeOf text.now (get_or (action_list actions.now) last no_action) last_code
        → result ≡ code_at text.now (get_or (action_list actions.now) index no_action) }
{
    let a = record::action_at(actions, index);
    if a.kind != kinds::CTL {
        return 0;
    }
    if is_again(actions, last, last_code, a) {
        return last_code;
    }
    let name = span::part_of(text, a.text);
    let value = span::part_of(text, a.value);
    code_of(directive::parse(name, value))
}

// Whether a code is the reason of an unsupported directive.
pub fn is_reason(code: u16) -> bool
    ensures { result ≡ is_reason code }
{
    code != 0 && code <= LAST_REASON
}

// Writes the codes of the actions from the start of a lent list, as many as fit, and answers whether one of them is unsupported.
pub fn write_codes(actions: &[u64], text: &[u8], codes: &mut [u16]) -> bool
    ensures value { result ≡ any is_reason (take (length codes.old) (codes_of text.now (action_list actions.now))) }
    ensures codes_after { codes.new ≡ over codes.old (take (length codes.old) (codes_of text.now (action_list actions.now))) }
{
    let n = codes.len().min(actions.len() / widths::ACTION);
    let mut unsupported = false;
    let mut last = 0;
    let mut last_code = 0;
    for i in 0..n {
        let code = code_at(actions, text, i, last, last_code);
        codes[i] = code;
        if code != 0 {
            last = i;
            last_code = code;
        }
        unsupported |= is_reason(code);
    }
    unsupported
}
