// What the directives of a transaction have set: `TransactionControls` in engine/control.rs.
#![tactic(auto)]

pub mod fields;
pub mod queries;
pub mod ranges;
pub mod state;
