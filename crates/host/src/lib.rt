// What C and Rust call. None of these functions asks anything of what it is lent.
#![tactic(auto)]

pub mod export_directive;
pub mod export_markers;
pub mod export_phase;
pub mod export_queries;
pub mod export_updates;
