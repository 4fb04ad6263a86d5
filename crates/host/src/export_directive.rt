// The directive reader, as C and Rust call it: a directive crosses as two numbers, its form and its value.
ghost use Rattle.std.specs.Prelude.{◌≡◌};
ghost use Rattle.reading.specs.Directive.{reader_outcome};
ghost use Rattle.reading.specs.Numbers.{directive_number, directive_value, read_number, read_value};
ghost use Rattle.host.specs.ReadRecord.{Recorded};

use abi::values::Numbered;
use ctl::{directive, read};
use reading::CtlDirective;

// What the reader answers, the number of the directive's form, and its value.
#[repr(C)]
#[derive(Clone, Copy)]
pub struct ReadRecord {
    // 0 or a refusal's number.
    pub answer: u64,
    // 0 unsupported, 1 ruleEngine, 2 ruleRemoveById, 3 ruleRemoveTargetById, 4 requestBodyAccess, 5 requestBodyProcessor; 0 too where
    // nothing was read.
    pub form: u64,
    // The number of a reason (1 to 7), a mode, an access or a processor, how many ranges, or where a target is cut; 0 where nothing was
    // read.
    pub value: u64,
}

// The number of a directive's form.
fn directive_form(d: CtlDirective) -> u64
    ensures { result ≡ directive_number d }
{
    match d {
        CtlDirective::Unsupported(_) => 0,
        CtlDirective::RuleEngine(_) => 1,
        CtlDirective::RuleRemoveById(_) => 2,
        CtlDirective::RuleRemoveTargetById(_) => 3,
        CtlDirective::RequestBodyAccess(_) => 4,
        CtlDirective::RequestBodyProcessor(_) => 5,
    }
}

// A directive's value: the number of a reason, a mode, an access or a processor, how many ranges, or where a target is cut.
fn directive_value(d: CtlDirective) -> u64
    ensures { result ≡ directive_value d }
{
    match d {
        CtlDirective::Unsupported(reason) => directive::reason_number(reason) as u64,
        CtlDirective::RuleEngine(m) => m.number(),
        CtlDirective::RuleRemoveById(n) => n as u64,
        CtlDirective::RuleRemoveTargetById(cut) => cut as u64,
        CtlDirective::RequestBodyAccess(a) => a.number(),
        CtlDirective::RequestBodyProcessor(p) => p.number(),
    }
}

// Reads a directive. The ranges of a ruleRemoveById go to the start of the two lists.
#[unsafe(no_mangle)]
pub extern "C" fn tivembo_read_directive(
    name: &[u8],
    value: &[u8],
    starts: &mut [u64],
    ends: &mut [u64],
) -> ReadRecord
    ensures { Recorded
        (reader_outcome name.now value.now starts.old ends.old)
        result starts.new ends.new }
{
    match read::read_directive(name, value, starts, ends) {
        Ok(d) => ReadRecord {
            answer: 0,
            form: directive_form(d),
            value: directive_value(d),
        },
        Err(refusal) => ReadRecord {
            answer: refusal.number(),
            form: 0,
            value: 0,
        },
    }
}
