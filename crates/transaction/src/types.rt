// The transaction that a phase call is lent, what the call answers, and how far its walk is on the way there. There is no
// function here: specs/RunPhase.antt says what the call promises, and proofs/ has the laws of the walk that need no code.
use apply::append::ControlCounts;
use control::state::Controls;
use intervention::decide::Ending;
use reading::{Intervention, Report};
use unit::visit::State;

// A transaction: the controls, the allowed flag, an intervention or none, and how many matched ids and data entries are in use.
#[derive(Clone, Copy)]
pub struct Transaction {
    pub controls: Controls,
    pub allowed: bool,
    pub intervention: Option<Intervention>,
    pub ids: usize,
    pub entries: usize,
}

// What a phase call answers, the same from the walk to a host: 0, 10, or the number of a refusal; the index of the rule that had
// the error, with 10; how many entries the journal holds; and what is told besides.
#[repr(C)]
#[derive(Clone, Copy)]
pub struct Answer {
    // 0, 10 or a refusal's number.
    pub answer: u64,
    // With 10, the index of the rule in error, else 0.
    pub error: u64,
    // How many entries the journal holds.
    pub visits: u64,
    // What is told besides.
    pub report: Report,
}

// The answer, and the transaction after the call.
#[derive(Clone, Copy)]
pub struct Phase {
    pub answer: Answer,
    pub transaction: Transaction,
}

// How far a walk is: where it stands, how many rules it has visited, how many matched ids and data entries are in use, and what
// of the controls is passed by value.
#[derive(Clone, Copy)]
pub struct WalkState {
    pub state: State,
    pub visits: usize,
    pub ids: usize,
    pub entries: usize,
    pub counts: ControlCounts,
}

// How a walk ended, how far it was then, and the intervention or none.
#[derive(Clone, Copy)]
pub struct End {
    pub ending: Ending,
    pub at: WalkState,
    pub stop: Option<Intervention>,
}

// Where a closed unit leaves the walk. An enum of its own: neither end is an error, as `Result` would say.
#[derive(Clone, Copy)]
pub enum AfterUnit {
    GoesOn(WalkState),
    Ends(End),
}
