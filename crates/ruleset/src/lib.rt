// Rule records, chains and markers: engine/ruleset.rs.
#![tactic(auto)]

pub mod markers;
pub mod rules;
