// The enums and structs that the definitions in specs/ and the code of the crates above share.
// Lists are lent as records of plain numbers, for C lends them so: what such a record may hold is refusal
// 5's matter, so an unknown number is a value like any other.
#![tactic(auto)]

ghost use Rattle.std.specs.Prelude.{◌≡◌};

// Numbers and no enum: C lends a kind as one, and the definitions give every number a meaning.
pub mod kinds;
pub mod limits;
pub mod widths;

// The engine's mode (`RuleEngineMode`).
#[derive(Clone, Copy)]
pub enum RuleEngineMode {
    On,
    DetectionOnly,
    Off,
}

// The values of `ctl:requestBodyAccess`.
#[derive(Clone, Copy)]
pub enum BodyAccess {
    On,
    Off,
}

// The values of `ctl:requestBodyProcessor`.
#[derive(Clone, Copy)]
pub enum BodyProcessor {
    Urlencoded,
    Multipart,
    Json,
    Xml,
}

// Why a call is refused: 01's list, with its numbers.
#[derive(Clone, Copy)]
pub enum Refusal {
    // The phase, or the rule set's mode, is none that there is.
    Settings = 1,
    // More rules, actions, markers or text bytes than a call may have.
    TooLarge = 2,
    // The controls are beyond their limits or not in the merged form, or a list is shorter than what is counted of it.
    Counts = 3,
    // Not as many outcomes as rules.
    Outcomes = 4,
    // A record holds what no record may.
    Record = 5,
    // A text has a byte of 80 (hexadecimal) or more.
    HighByte = 6,
    // A list has too few free entries.
    NoRoom = 7,
    // More ranges than a transaction may hold.
    Ranges = 8,
    // More targets than it may hold.
    Targets = 9,
}

impl Refusal {
    ghost use Rattle.reading.specs.Numbers.{refusal_number};

    pub fn number(self) -> u64
        ensures { result ≡ refusal_number self }
    {
        self as u64
    }
}

// Removed ids from `start` to `end`, both included.
#[derive(Clone, Copy)]
pub struct RuleIdRange {
    pub start: u64,
    pub end: u64,
}

// One part of a list of id ranges, between two commas. An enum of its own: `Result` around `Option` would not be plainer.
#[derive(Clone, Copy)]
pub enum IdPart {
    Blank,
    Bad,
    Range(RuleIdRange),
}

// Why a directive is unsupported, by its name (the reasons of `CtlDirective::parse`): the value of a
// ruleEngine, the ids of a ruleRemoveById, the form of a ruleRemoveTargetById, the value of a
// requestBodyAccess, the name of a requestBodyProcessor, a directive of the audit log, or none of these.
#[derive(Clone, Copy)]
pub enum UnsupportedReason {
    ModeValue,
    IdList,
    TargetForm,
    BodyAccessValue,
    Processor,
    Audit,
    Unrecognised,
}

// What a directive says. The ranges of `RuleRemoveById` stand at the start of the
// lent lists, and the number here says how many; the number of `RuleRemoveTargetById` says where
// in the value the ';' stands.
#[derive(Clone, Copy)]
pub enum CtlDirective {
    RuleEngine(RuleEngineMode),
    RuleRemoveById(usize),
    RuleRemoveTargetById(usize),
    RequestBodyAccess(BodyAccess),
    RequestBodyProcessor(BodyProcessor),
    Unsupported(UnsupportedReason),
}

// A part of a lent text.
#[repr(C)]
#[derive(Clone, Copy)]
pub struct Part {
    // Its first byte.
    pub start: u64,
    // How many bytes it has.
    pub len: u64,
}

// Where a text or a target stands: the phase, and the position in that phase's action list.
#[derive(Clone, Copy)]
pub struct Place {
    pub phase: u64,
    pub position: u64,
}

// The numbers that a call is given: the phase, the rule set's mode, and the caller's default status, which a block has.
#[repr(C)]
#[derive(Clone, Copy)]
pub struct CallSettings {
    // 1 to 5.
    pub phase: u64,
    // 0 On, 1 DetectionOnly, 2 Off.
    pub mode: u64,
    // The status that a block stands for.
    pub default_status: u64,
}

// A rule's record. `present` is 1 where the rule has an id and 0 where it has none, `link` is
// `is_chain`, and its actions are the `count` from `first` on.
#[derive(Clone, Copy)]
pub struct Rule {
    // 1 where it has an id, else 0.
    pub present: u64,
    pub id: u64,
    // 1 where it is a link, else 0.
    pub link: u64,
    // Its first action.
    pub first: u64,
    // How many actions it has.
    pub count: u64,
}

// An action's record: its kind, its number, and two parts of the lent text.
#[derive(Clone, Copy)]
pub struct Action {
    // 01's number of the kind.
    pub kind: u64,
    // The number of a kind that has one.
    pub number: u64,
    // The text of a kind that has one, and the directive of a ctl.
    pub text: Part,
    // The value of a ctl.
    pub value: Part,
}

// A marker's record: its name, and the number of the phase's rules before it.
#[repr(C)]
#[derive(Clone, Copy)]
pub struct Marker {
    // Where its name stands.
    pub name: Part,
    // The number of the phase's rules before it.
    pub position: u64,
}

// An entry of the list of matched data. `present` is 1 where it has an id.
#[derive(Clone, Copy)]
pub struct DataEntry {
    // 1 where it has an id, else 0.
    pub present: u64,
    // The id, or 0.
    pub id: u64,
    pub phase: u64,
    // The index of the rule that matched with a variable.
    pub index: u64,
}

// An entry of the journal: a visited rule's index and the number of the verdict.
#[derive(Clone, Copy)]
pub struct JournalEntry {
    // The rule's index.
    pub index: u64,
    // 0 missed, 1 matched, 2 removed, 3 error.
    pub verdict: u64,
}

// An unsupported directive that a phase passed over: the rule that has it, and why. Both are 0 where there is none.
#[repr(C)]
#[derive(Clone, Copy)]
pub struct UnsupportedAt {
    // The index of the rule that has it.
    pub index: u64,
    // 1 mode value, 2 id list, 3 target form, 4 body access value, 5 processor, 6 audit, 7 unrecognised; 0 where there is none.
    pub reason: u64,
}

// What a phase tells besides: how many of its visits found each verdict, and the first unsupported directive of its closed units.
#[repr(C)]
#[derive(Clone, Copy)]
pub struct Report {
    // How many visits missed.
    pub missed: u64,
    // How many matched.
    pub matched: u64,
    // How many found their rule removed.
    pub removed: u64,
    // How many met a rule error: one, with answer 10, or none.
    pub errors: u64,
    // The first unsupported directive of its closed units.
    pub unsupported: UnsupportedAt,
}

// What a visit finds of its rule.
#[derive(Clone, Copy)]
pub enum Verdict {
    Missed,
    Matched,
    Removed,
    Error,
}

// A rule's last disruptive action, or none (`DisruptiveOutcome`). A redirect has its position in
// the action list.
#[derive(Clone, Copy)]
pub enum DisruptiveOutcome {
    Nothing,
    Deny,
    Block,
    Pass,
    Allow,
    Redirect(u64),
    Drop,
}

// A rule's last flow action (`FlowOutcome`). `SkipAfter` has its position in the action list.
#[derive(Clone, Copy)]
pub enum FlowOutcome {
    Continue,
    Chain,
    Skip(u64),
    SkipAfter(u64),
}

// A rule's metadata (`RuleMetadata`): the last of each kind.
#[derive(Clone, Copy)]
pub struct RuleMetadata {
    pub id: Option<u64>,
    pub msg: Option<Place>,
    pub logdata: Option<Place>,
    pub rev: Option<Place>,
    pub ver: Option<Place>,
    pub severity: Option<u64>,
    pub maturity: Option<u64>,
    pub accuracy: Option<u64>,
}

// What stops a request (`Intervention`). Its id list is `closing`, the closing rule's id, and then
// `starter`, the starter's metadata id, which is none where it is the same.
#[derive(Clone, Copy)]
pub struct Intervention {
    pub status: u64,
    pub url: Option<Place>,
    pub log: Option<Place>,
    pub closing: Option<u64>,
    pub starter: Option<u64>,
    pub phase: u64,
    pub drop: bool,
    pub metadata: RuleMetadata,
}
