// One turn of `run_phase` in engine/transaction.rs, and engine/chain.rs.
#![tactic(auto)]

pub mod close;
pub mod flow;
pub mod members;
pub mod visit;
