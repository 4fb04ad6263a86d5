// 01's numbers of the kinds of actions.

pub const OTHER: u64 = 0;

pub const DENY: u64 = 1;

pub const BLOCK: u64 = 2;

pub const PASS: u64 = 3;

pub const ALLOW: u64 = 4;

pub const REDIRECT: u64 = 5;

pub const DROP: u64 = 6;

pub const CHAIN: u64 = 7;

pub const SKIP: u64 = 8;

pub const SKIP_AFTER: u64 = 9;

pub const MULTI_MATCH: u64 = 10;

pub const ID: u64 = 11;

pub const MSG: u64 = 12;

pub const LOGDATA: u64 = 13;

pub const REV: u64 = 14;

pub const VER: u64 = 15;

pub const SEVERITY: u64 = 16;

pub const MATURITY: u64 = 17;

pub const ACCURACY: u64 = 18;

pub const CTL: u64 = 19;

pub const STATUS: u64 = 20;
