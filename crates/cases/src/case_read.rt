// Reads the lines of a case into the records that the phase call is lent. Each `read` answers none where a line is not as expected,
// and where what it has does not fit into the lists.
ghost use Rattle.std.specs.Prelude.{◌≤◌, length};

use crate::case_text::Words;
use reading::{Action, CallSettings, Part, RuleEngineMode, RuleIdRange, kinds};

// Records of `W` numbers each, `N` at most, lent one after the other.
#[derive(Clone, Copy)]
pub struct Records<const W: usize, const N: usize> {
    records: [[u64; W]; N],
    count: usize,
}

impl<const W: usize, const N: usize> Records<W, N> {
    fn new() -> Records<W, N> {
        Records {
            records: [[0; W]; N],
            count: 0,
        }
    }

    fn clear(&mut self) {
        self.count = 0;
    }

    pub fn len(&self) -> usize {
        self.count.min(N)
    }

    pub fn as_slice(&self) -> &[[u64; W]]
        ensures { length result.now ≤ N }
    {
        let n = self.count.min(N);
        &self.records[..n]
    }

    fn push(&mut self, record: [u64; W]) -> Option<()> {
        let n = self.count;
        if N <= n {
            return None;
        }
        self.records[n] = record;
        self.count = n + 1;
        Some(())
    }

    fn last_mut(&mut self) -> Option<&mut [u64; W]> {
        let last = self.count.checked_sub(1)?;
        self.records.get_mut(last)
    }
}

// The settings of a case whose call line is still to come. A status of 0 is none.
#[derive(Clone, Copy)]
pub struct Settings {
    name: Part,
    mode: Option<RuleEngineMode>,
    status: Option<u64>,
    range: Option<RuleIdRange>,
}

// A case after its call line.
#[derive(Clone, Copy)]
pub struct Case {
    pub name: Part,
    pub mode: RuleEngineMode,
    pub status: u64,
    pub phase: u64,
    // What is held at entry.
    pub range: Option<RuleIdRange>,
    pub rules: Records<5, 16>,
    pub actions: Records<6, 64>,
    pub markers: Records<3, 8>,
    pub outcomes: [u8; 16],
}

// What the lines so far are: all before was run, or the settings of a case, or a case. The case itself is lent beside this: it is
// large, and each line would copy it.
#[derive(Clone, Copy)]
pub enum State {
    Outside,
    Settings(Settings),
    Case,
}

fn read_range(words: &mut Words<'_>) -> Option<RuleIdRange> {
    let start = words.number()?;
    let end = words.number()?;
    (start <= end).then_some(RuleIdRange { start, end })
}

impl Settings {
    // The line that opens a case, after its first word.
    pub fn read_name(mut words: Words<'_>) -> Option<State> {
        let name = words.word()?.part();
        words.end()?;
        Some(State::Settings(Settings {
            name,
            mode: None,
            status: None,
            range: None,
        }))
    }

    // A line of a case before its call, which begins the case. One range at most: no case has more.
    pub fn read(mut self, word: &[u8], mut words: Words<'_>, case: &mut Case) -> Option<State> {
        match word {
            b"mode" if self.mode.is_none() => self.mode = Some(words.mode()?),
            b"block-status" if self.status.is_none() => {
                self.status = Some(words.number()?).filter(|&n| n != 0);
            }
            b"entry-range" if self.range.is_none() => self.range = Some(read_range(&mut words)?),
            b"call" => return self.read_call(words, case),
            _ => return None,
        }
        words.end()?;
        Some(State::Settings(self))
    }

    // The call line is the last of the settings; mode and status must stand before it.
    fn read_call(self, mut words: Words<'_>, case: &mut Case) -> Option<State> {
        case.phase = words.number().filter(|&n| n != 0)?;
        words.end()?;
        case.name = self.name;
        case.mode = self.mode?;
        case.status = self.status?;
        case.range = self.range;
        case.rules.clear();
        case.actions.clear();
        case.markers.clear();
        Some(State::Case)
    }
}

pub fn mode_number(mode: RuleEngineMode) -> u64 {
    match mode {
        RuleEngineMode::On => 0,
        RuleEngineMode::DetectionOnly => 1,
        RuleEngineMode::Off => 2,
    }
}

fn outcome_number(word: &[u8]) -> Option<u8> {
    match word {
        b"missed" => Some(0),
        b"matched" => Some(1),
        b"matched-var" => Some(2),
        b"error" => Some(3),
        _ => None,
    }
}

impl Case {
    // Room for a case, before the first one.
    pub fn new() -> Case {
        Case {
            name: Part { start: 0, len: 0 },
            mode: RuleEngineMode::On,
            status: 0,
            phase: 0,
            range: None,
            rules: Records::new(),
            actions: Records::new(),
            markers: Records::new(),
            outcomes: [0; 16],
        }
    }

    pub fn settings(&self) -> CallSettings {
        CallSettings {
            phase: self.phase,
            mode: mode_number(self.mode),
            default_status: self.status,
        }
    }

    // A line of a case after its call, but its end.
    pub fn read(&mut self, word: &[u8], words: Words<'_>) -> Option<State> {
        match word {
            b"rule" => self.read_rule(words)?,
            b"marker" => self.read_marker(words)?,
            _ => self.read_action(word, words)?,
        }
        Some(State::Case)
    }

    // A rule with its outcome.
    fn read_rule(&mut self, mut words: Words<'_>) -> Option<()> {
        let id = words.word()?;
        let mut outcome = words.word()?;
        let mut link = 0;
        if matches!(outcome.bytes, b"link") {
            outcome = words.word()?;
            link = 1;
        }
        words.end()?;
        let (present, id) = match id.bytes {
            b"-" => (0, 0),
            _ => (1, id.number()?),
        };
        let n = self.rules.len();
        let first = self.actions.len() as u64;
        *self.outcomes.get_mut(n)? = outcome_number(outcome.bytes)?;
        self.rules.push([present, id, link, first, 0])
    }

    fn read_marker(&mut self, mut words: Words<'_>) -> Option<()> {
        let name = words.text()?.part();
        let position = words.number()?;
        words.end()?;
        self.markers.push([name.start, name.len, position])
    }

    // An action of the rule read last.
    fn read_action(&mut self, word: &[u8], words: Words<'_>) -> Option<()> {
        let a = read_action(word, words)?;
        let rule = self.rules.last_mut()?;
        rule[4] = rule[4].saturating_add(1);
        self.actions.push([
            a.kind,
            a.number,
            a.text.start,
            a.text.len,
            a.value.start,
            a.value.len,
        ])
    }
}

// An action with nothing but its kind.
fn plain(kind: u64) -> Action {
    let none = Part { start: 0, len: 0 };
    Action {
        kind,
        number: 0,
        text: none,
        value: none,
    }
}

fn with_number(kind: u64, words: &mut Words<'_>) -> Option<Action> {
    let mut action = plain(kind);
    action.number = words.number()?;
    Some(action)
}

fn skip_after(words: &mut Words<'_>) -> Option<Action> {
    let mut action = plain(kinds::SKIP_AFTER);
    action.text = words.text()?.part();
    Some(action)
}

// The cases have these two directives alone, and a walk shows nothing of what the others set.
fn ctl(words: &mut Words<'_>) -> Option<Action> {
    let text = words.text()?;
    let value = words.text()?;
    let mut action = plain(kinds::CTL);
    action.text = text.part();
    action.value = value.part();
    matches!(text.bytes, b"ruleEngine" | b"ruleRemoveById").then_some(action)
}

// The actions that the cases have.
fn read_action(word: &[u8], mut words: Words<'_>) -> Option<Action> {
    let action = match word {
        b"deny" => plain(kinds::DENY),
        b"pass" => plain(kinds::PASS),
        b"allow" => plain(kinds::ALLOW),
        b"skip" => with_number(kinds::SKIP, &mut words)?,
        b"skipAfter" => skip_after(&mut words)?,
        b"id" => with_number(kinds::ID, &mut words)?,
        b"ctl" => ctl(&mut words)?,
        b"status" => with_number(kinds::STATUS, &mut words)?,
        _ => return None,
    };
    words.end()?;
    Some(action)
}

// A directive that stands alone, after its first word.
pub fn read_directive(mut words: Words<'_>) -> Option<Action> {
    let action = ctl(&mut words)?;
    words.end()?;
    Some(action)
}
