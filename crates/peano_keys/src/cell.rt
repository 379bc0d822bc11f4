//! Cells by level and coordinates.
ghost use Rattle.std.specs.Prelude.{◌≡◌, ◌^◌, ◌<◌, ◌≤◌, ◌↔◌, IsTrue, IfSome};
ghost use Rattle.peano_keys.specs.declared.dim.Dim.{Dim};
ghost use Rattle.peano_keys.specs.Dim.{axes};
ghost use Rattle.peano_keys.specs.Cell.{IsCell, IsCellKey, IsDigits, root as root_cell, parent_of, child_of, neighbour_of};

use crate::dim::Dim;
use crate::power::extent;

/// A cell: its level, 0 for the root, and its coordinates, 0 to `3^level - 1` on each axis in use, 0 on an unused one.
/// Keys are ordered by level, then by coordinates from axis 0.
#[derive(Clone, Copy, Debug, PartialEq, Eq, PartialOrd, Ord, Hash)]
pub struct CellKey {
    pub level: u32,
    pub x: [u32; 3],
}

/// A face of a cell: the low or the high one on an axis.
#[derive(Clone, Copy, Debug, PartialEq, Eq)]
pub struct Face {
    pub axis: u32,
    pub high: bool,
}

/// Whether a key is a cell of the domain, of a level up to 12.
pub fn is_cell(dim: Dim, key: &CellKey) -> bool
    ensures { IsTrue result ↔ IsCell dim key.now }
{
    if key.level > 12 {
        return false;
    }
    let end = extent(key.level);
    let third_end = match dim {
        Dim::Two => 1,
        Dim::Three => end,
    };
    key.x[0] < end && key.x[1] < end && key.x[2] < third_end
}

/// The root: the one cell of level 0.
pub fn root() -> CellKey
    ensures { result ≡ root_cell }
{
    CellKey {
        level: 0,
        x: [0; 3],
    }
}

/// The cell that a cell below the root is a child of.
#[tactic(auto, using(crate::proofs::Powers::pow3_positive))]
pub fn parent(key: CellKey) -> CellKey
    requires cell { IsCellKey key }
    requires below_root { 1 ≤ key.level }
    ensures value { result ≡ parent_of key }
    ensures cell { (dim : Dim) → IsCell dim key → IsCell dim result }
{
    CellKey {
        level: key.level - 1,
        x: [key.x[0] / 3, key.x[1] / 3, key.x[2] / 3],
    }
}

/// The child at three digits, each 0, 1 or 2, and 0 on an unused axis.
#[tactic(auto, using(crate::proofs::Powers::pow3_by_12))]
pub fn child(key: CellKey, digits: [u32; 3]) -> CellKey
    requires cell { IsCellKey key }
    requires room { key.level < 12 }
    requires digits { IsDigits Dim.Three digits }
    ensures value { result ≡ child_of key digits }
    ensures cell { (dim : Dim) → IsCell dim key → IsDigits dim digits → IsCell dim result }
{
    CellKey {
        level: key.level + 1,
        x: [
            3 * key.x[0] + digits[0],
            3 * key.x[1] + digits[1],
            3 * key.x[2] + digits[2],
        ],
    }
}

/// The cell of the same level across a face, none where the face lies on the domain's edge.
#[tactic(auto, using(crate::proofs::Powers::pow3_by_12))]
pub fn neighbour(dim: Dim, key: CellKey, face: Face) -> Option<CellKey>
    requires cell { IsCell dim key }
    requires axis { face.axis < axes dim }
    ensures value { result ≡ neighbour_of key face }
    ensures cell { IfSome result (λ c. IsCell dim c) }
{
    let i = face.axis as usize;
    let mut x = key.x;
    if face.high {
        if x[i] + 1 >= extent(key.level) {
            return None;
        }
        x[i] += 1;
    } else {
        if x[i] == 0 {
            return None;
        }
        x[i] -= 1;
    }
    Some(CellKey {
        level: key.level,
        x,
    })
}
