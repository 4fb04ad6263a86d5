// How many numbers stand for one record in its lent list.

pub const RULE: usize = 5;

pub const ACTION: usize = 6;

pub const MARKER: usize = 3;

pub const DATA_ENTRY: usize = 4;

pub const JOURNAL_ENTRY: usize = 2;
