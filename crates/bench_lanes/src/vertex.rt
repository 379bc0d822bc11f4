//! The vertices that are moved.
use peano_keys::{Dim, Mark, State, VertexKey, is_vertex};
use peano_records::{Intent, Slot, Status, Stored};

/// A kind of vertices: the dimension, and whether states have one value or four.
#[derive(Clone, Copy)]
pub struct Kind {
    pub dim: Dim,
    pub wide: bool,
}

/// Vertex number `k` of a kind; none past the last one of the finest level.
pub fn vertex(kind: Kind, k: u32) -> Option<Stored> {
    let key = VertexKey {
        level: 12,
        v: [k, 0, 0],
    };
    if !is_vertex(kind.dim, &key) {
        return None;
    }
    let mut v = Stored::new(kind.dim, key);
    let value = if kind.wide {
        State::Quadruple(1, 2, 3, 4)
    } else {
        State::Single(5)
    };
    let slots = match kind.dim {
        Dim::Two => 4,
        Dim::Three => 8,
    };
    for n in 0..slots {
        v.set(
            n,
            Slot {
                status: Status::Leaf,
                value,
                next: value,
                mark: Mark::Keep,
                intent: Intent::Stay,
            },
        );
    }
    Some(v)
}
