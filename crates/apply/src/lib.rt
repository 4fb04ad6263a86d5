// What a closed unit does to the controls: `TransactionControls::apply` in engine/control.rs.
#![tactic(auto)]

pub mod append;
pub mod changes;
pub mod codes;
pub mod run;
pub mod settings;
