// The ctl directives: `CtlDirective::parse` and `parse_id_ranges` in engine/control.rs.
#![tactic(auto)]

pub mod directive;
pub mod id_ranges;
pub mod range_count;
pub mod read;
