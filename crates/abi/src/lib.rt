// A host's records: numbers alone, for no enum crosses to C or Rust, and the phase call on them.
#![tactic(auto)]

pub mod host_controls;
pub mod host_intervention;
pub mod host_phase;
pub mod marker_lookup;
pub mod marker_words;
pub mod values;
