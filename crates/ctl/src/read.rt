// The directive reader, a call of its own on two texts and two lent lists for the ranges.
ghost use Rattle.std.specs.Prelude.{◌≡◌};
ghost use Rattle.reading.specs.Directive.{reader_outcome};
ghost use Rattle.ctl.specs.ReadDirective.{ranges_counted, outcome_found};

use crate::{directive, id_ranges};
use reading::{CtlDirective, Refusal, limits};
use text::{high_bytes, trim};

// How many ranges a directive removes.
fn range_count(directive: CtlDirective) -> usize
    ensures { result ≡ ranges_counted directive }
{
    match directive {
        CtlDirective::RuleEngine(_) => 0,
        CtlDirective::RuleRemoveById(n) => n,
        CtlDirective::RuleRemoveTargetById(_) => 0,
        CtlDirective::RequestBodyAccess(_) => 0,
        CtlDirective::RequestBodyProcessor(_) => 0,
        CtlDirective::Unsupported(_) => 0,
    }
}

// Reads a directive, or says why the call is refused: 2, 6 or 7. The ranges of a supported ruleRemoveById go to the start of the two
// lists; nothing is written unless they fit.
pub fn read_directive(
    name: &[u8],
    value: &[u8],
    starts: &mut [u64],
    ends: &mut [u64],
) -> Result<CtlDirective, Refusal>
    ensures { outcome_found result starts.new ends.new ≡ reader_outcome name.now value.now starts.old ends.old }
{
    if limits::TEXT_BYTES < name.len() || limits::TEXT_BYTES < value.len() {
        return Err(Refusal::TooLarge);
    }
    if high_bytes::has_high_byte(name) || high_bytes::has_high_byte(value) {
        return Err(Refusal::HighByte);
    }
    let directive = directive::parse(name, value);
    let n = range_count(directive);
    if starts.len() < n || ends.len() < n {
        return Err(Refusal::NoRoom);
    }
    if 0 < n {
        id_ranges::write_ranges(trim::trim(value), starts, ends);
    }
    Ok(directive)
}
