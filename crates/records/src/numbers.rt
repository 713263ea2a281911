// The numbers that a record's first word and its third may be: of the work, and of the phase.
// Kept: constants, not an enum: they stand in words that C lends, which may be any number, and `Flat` has each word as it is.

// The works
pub const NO_WORK: u64 = 0;

pub const LOOKUP: u64 = 1;

pub const INSERT: u64 = 2;

pub const REMOVE: u64 = 3;

// The phases
pub const WALK: u64 = 0;

pub const ON_ROUTING: u64 = 1;

pub const NEW: u64 = 2;

pub const TWO: u64 = 3;

pub const ONE: u64 = 4;

pub const LEAF: u64 = 5;

pub const UNDER_DATA: u64 = 6;

pub const UNDER_ROUTING: u64 = 7;
