// Refusal 5: what a lent action may hold. The list is looked through once.
ghost use Rattle.std.specs.Prelude.{◌≡◌, ltb};
ghost use Rattle.reading.specs.Lists.{any};
ghost use Rattle.reading.specs.Records.{action_list};
ghost use Rattle.reading.specs.Refusals.{number_limit, bad_action};

use crate::rule_checks;
use actions::record;
use reading::{Action, kinds, widths};

// The greatest number that an action of a kind may have.
fn number_limit(kind: u64) -> u64
    ensures { result ≡ number_limit kind }
{
    match kind {
        kinds::SKIP => 4294967295,
        kinds::SEVERITY..=kinds::ACCURACY => 255,
        kinds::STATUS => 65535,
        _ => u64::MAX,
    }
}

// Whether a number is above the limit of its kind. No limit is below 255, so that most kinds aren't asked for theirs.
fn is_above(kind: u64, number: u64) -> bool
    ensures { result ≡ ltb (number_limit kind) number }
{
    255 < number && number_limit(kind) < number
}

// An action beside a text of so many bytes.
fn bad_action(action: Action, bytes: usize) -> bool
    ensures { result ≡ bad_action bytes action }
{
    kinds::STATUS < action.kind
        || is_above(action.kind, action.number)
        || rule_checks::is_outside(bytes, action.text.start, action.text.len)
        || rule_checks::is_outside(bytes, action.value.start, action.value.len)
}

// Whether one of the actions has an unknown kind, a number above its limit, or a part outside a text of so many bytes.
pub fn any_bad_action(actions: &[u64], bytes: usize) -> bool
    ensures { result ≡ any (bad_action bytes) (action_list actions.now) }
{
    let n = actions.len() / widths::ACTION;
    (0..n).any(|i| bad_action(record::action_at(actions, i), bytes))
}
