//! What a tree hands out of the cells that it shares.
ghost use Rattle.std.specs.Prelude.{◌≡◌, ◌<◌, ◌≤◌, ◌++◌, [], ◌∷◌, length};

use peano_keys::{CellKey, root};
use std::marker::Model;

/// A shared cell as one tree sees it: the sums of the components over the leaves that the tree has of it, each times its
/// weight, and whether the cell merges, which the cell's owner alone says.
#[derive(Clone, Copy, Debug, PartialEq, Eq)]
pub struct Partial {
    pub key: CellKey,
    pub sums: [i128; 4],
    pub merges: bool,
}

/// The partials of a tree, at most 24 of them. Contracts see a list.
#[derive(Drop)]
pub struct Partials {
    items: [Partial; 24],
    count: u32,
}

impl Model for Partials {
    ghost use Rattle.std.specs.Prelude.{◌≡◌, ◌≤◌, List, length, take};
    ghost use Rattle.peano_records.specs.declared.partials.Partial.{Partial};

    ghost Value = { List Partial };

    ghost view = { λ p. take p.count p.items };

    ghost invariant = { λ p. (length p.items ≡ 24) × (p.count ≤ 24) };
}

impl Partials {
    /// No partials.
    pub fn new() -> Partials
        ensures { result ≡ [] }
    {
        Partials {
            items: [Partial {
                key: root(),
                sums: [0; 4],
                merges: false,
            }; 24],
            count: 0,
        }
    }

    /// Adds a partial behind the others.
    pub fn push(&mut self, partial: Partial)
        requires { length self.old < 24 }
        ensures { self.new ≡ self.old ++ partial ∷ [] }
    {
        self.items[self.count as usize] = partial;
        self.count += 1;
    }

    /// The partials in the order in which they were added.
    pub fn as_slice(&self) -> &[Partial]
        ensures value { result.now ≡ self.now }
        ensures few { length result.now ≤ 24 }
    {
        &self.items[..self.count as usize]
    }
}
