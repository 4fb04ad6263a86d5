#![tactic(auto)]

pub mod unsupported;
pub mod verdicts;
