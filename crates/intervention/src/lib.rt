// How a visit leaves the phase, and the intervention that a unit builds: engine/intervention.rs.
#![tactic(auto)]

pub mod build;
pub mod decide;
