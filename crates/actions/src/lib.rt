// Action records, and what a rule's actions come to: `execute_actions` in actions/mod.rs.
#![tactic(auto)]

pub mod execute;
pub mod record;
