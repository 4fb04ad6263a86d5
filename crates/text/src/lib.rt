// Leaves of the parsers: bytes, numbers and parts of a lent text.
#![tactic(auto)]

pub mod ascii;
pub mod high_bytes;
pub mod number;
pub mod span;
pub mod trim;
