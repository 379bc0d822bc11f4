//! How large a grid may be.

/// The most cells of a grid, leaves and refined ones.
pub const MOST_CELLS: u64 = 200_000;
