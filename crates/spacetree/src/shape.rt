//! What a grid and a field are opened from: refined boxes and filled boxes.
use crate::listed::Listed;
use peano_keys::{Dim, State};

/// A box of cells of one level, `from` below `to` on each axis, whose cells are refined down to level `until`.
/// In two dimensions the coordinates on axis 2 say nothing.
#[derive(Clone, Copy, Debug, PartialEq, Eq)]
pub struct Zone {
    pub level: u32,
    pub from: [u32; 3],
    pub to: [u32; 3],
    pub until: u32,
}

/// A box of cells of one level, `from` below `to` on each axis, and the state that the leaves in it open with.
/// In two dimensions the coordinates on axis 2 say nothing.
#[derive(Clone, Copy, Debug, PartialEq, Eq)]
pub struct Fill {
    pub level: u32,
    pub from: [u32; 3],
    pub to: [u32; 3],
    pub value: State,
}

/// The form of an opening grid: each cell of a level below `base` is refined, and each that a zone says.
#[derive(Drop)]
pub struct Shape {
    pub dim: Dim,
    pub depth: u32,
    pub base: u32,
    pub zones: Listed<Zone>,
}
