//! The ranges of a file's numbers.

/// The deepest level that a file may ask for.
pub const DEEPEST: u64 = 12;

/// The deepest level of a file of the first version.
pub const DEEPEST_OF_FIRST: u64 = 8;

/// The most steps.
pub const MOST_STEPS: u64 = 10_000;

/// The most tables of a list.
pub const MOST_TABLES: usize = 1000;

/// The greatest `a`, and the greatest wind on an axis, in either direction.
pub const MOST_RATE: u64 = 1_000_000;

/// The greatest `b`.
pub const MOST_DIVISOR: u64 = 1_000_000_000_000_000_000;

/// The greatest `hi`: the last number of an `i64`.
pub const MOST_DIFFERENCE: u64 = 9_223_372_036_854_775_807;
