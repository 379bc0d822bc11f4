//! Cell records, and what a visitor sees of a cell.
use crate::stored::Stored;
use peano_keys::{CellKey, Sides, State, VertexKey};
use std::mem::size_of;

/// What the cell stream has of a cell: whether it is refined, and the number of the task that computes it.
#[derive(Clone, Copy, Debug, PartialEq, Eq)]
pub struct CellRecord {
    pub refined: bool,
    pub task: u32,
}

/// A corner of a cell: the record of a stored vertex, a hanging vertex, or no corner, which fills the places that two
/// dimensions leave.
#[derive(Drop)]
pub enum Corner {
    Vertex(Stored),
    Hanging(VertexKey),
    Beyond,
}

const _: () = prove!(size_of::<Corner>() <= 600);

/// What a visitor sees of a cell. `was` and `will` say whether the cell is refined in the old and in the new grid, and
/// are none where it is no cell there. `carried` is the value of the cell's parent.
#[derive(Drop)]
pub struct CellView {
    pub key: CellKey,
    pub was: Option<bool>,
    pub will: Option<bool>,
    pub corners: [Corner; 8],
    pub sides: Sides,
    pub carried: State,
    pub task: u32,
}
