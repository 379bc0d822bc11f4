//! When a leaf is refined or coarsened.

/// A leaf is refined where component `watch` differs from it across some face by `hi` or more and its level is below `depth`,
/// and coarsened where it differs everywhere by less than `lo`. `hi` is at least 1, `lo` is 0 to `hi`.
#[derive(Clone, Copy, Debug, PartialEq, Eq)]
pub struct Criterion {
    pub hi: i64,
    pub lo: i64,
    pub watch: u32,
    pub depth: u32,
}
