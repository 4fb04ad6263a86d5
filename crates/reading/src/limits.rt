// 01: "more than 512 rules, 4,096 actions, 256 markers or 65,536 text bytes", "more than 256 ranges, more than 64 targets". The
// definitions name the same numbers (specs/Limits.antt); where a contract cites one of those, another number here is refused.

pub const RULES: usize = 512;

pub const ACTIONS: usize = 4096;

pub const MARKERS: usize = 256;

pub const TEXT_BYTES: usize = 65536;

pub const RANGES: usize = 256;

pub const TARGETS: usize = 64;
