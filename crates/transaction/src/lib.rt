// The phase call: `Transaction::run_phase` in engine/transaction.rs, by value.
#![tactic(auto)]

pub mod outcome;
pub mod run_phase;
pub mod types;
mod walk;
