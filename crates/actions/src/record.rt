// The action at an index. The actions are lent as one flat list of numbers, six to an action.
ghost use Rattle.std.specs.Prelude.{◌≡◌, get_or};
ghost use Rattle.reading.specs.Records.{action_list};
ghost use Rattle.reading.specs.Walk.{no_action};

use reading::{Action, Part, widths};

// The action at an index, all zeros where there is none.
pub fn action_at(actions: &[u64], index: usize) -> Action
    ensures { result ≡ get_or (action_list actions.now) index no_action }
{
    if actions.len() / widths::ACTION <= index {
        let none = Part { start: 0, len: 0 };
        return Action {
            kind: 0,
            number: 0,
            text: none,
            value: none,
        };
    }
    let at = widths::ACTION * index;
    let text = Part {
        start: actions[at + 2],
        len: actions[at + 3],
    };
    let value = Part {
        start: actions[at + 4],
        len: actions[at + 5],
    };
    Action {
        kind: actions[at],
        number: actions[at + 1],
        text,
        value,
    }
}
