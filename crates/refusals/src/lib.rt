// Why a call is refused: 01's list, in its order.
#![tactic(auto)]

pub mod action_checks;
pub mod first;
pub mod marker_checks;
pub mod rule_checks;
pub mod totals;
