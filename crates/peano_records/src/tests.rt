//! Worked values of records, and their sizes.
ghost use Rattle.std.specs.Prelude.{◌≡◌};

use crate::{CellView, Corner, Intent, Slot, Status, Stored};
use peano_keys::{Dim, Mark, State, VertexKey, is_vertex};
use std::mem::size_of;

fn vertex(level: u32, v: [u32; 3]) -> VertexKey
    ensures { result ≡ record { level = level; v = v } }
{
    VertexKey { level, v }
}

fn blank(status: Status) -> Slot {
    Slot {
        status,
        value: State::one(0),
        next: State::one(0),
        mark: Mark::Keep,
        intent: Intent::Stay,
    }
}

#[test]
fn new_records_at_corners_edges_and_inside(rt: HostRuntime) {
    // Of each key the slots that say `Outside`; all others say `Unset`.
    for (dim, key, outside) in [
        (
            Dim::Two,
            vertex(0, [0, 0, 0]),
            [true, true, true, false, false, false, false, false],
        ),
        (
            Dim::Two,
            vertex(1, [0, 1, 0]),
            [true, false, true, false, false, false, false, false],
        ),
        (
            Dim::Two,
            vertex(1, [3, 3, 0]),
            [false, true, true, true, false, false, false, false],
        ),
        (Dim::Two, vertex(2, [4, 5, 0]), [false; 8]),
        (
            Dim::Three,
            vertex(1, [3, 3, 1]),
            [false, true, true, true, false, true, true, true],
        ),
        (
            Dim::Three,
            vertex(1, [1, 1, 0]),
            [true, true, true, true, false, false, false, false],
        ),
        (Dim::Three, vertex(1, [1, 2, 1]), [false; 8]),
    ] {
        assert!(rt; is_vertex(dim, &key));
        let record = Stored::new(dim, key);
        assert_eq!(rt; record.key(), key);
        for n in 0..8 {
            let status = if outside[n as usize] {
                Status::Outside
            } else {
                Status::Unset
            };
            assert_eq!(rt; record.slot(n), blank(status), "{key:?} slot {n}");
        }
    }
}

#[test]
fn slots_of_one_to_four_values_come_back(rt: HostRuntime) {
    let key = vertex(1, [1, 1, 0]);
    assert!(rt; is_vertex(Dim::Two, &key));
    for (n, value, next) in [
        (0, State::one(i64::MIN), State::Quadruple(1, -2, 3, -4)),
        (2, State::two(7, -8), State::one(5)),
        (3, State::Triple(1, 2, i64::MAX), State::two(-9, 0)),
        (7, State::Quadruple(4, 3, 2, 1), State::Triple(6, 5, 4)),
    ] {
        let mut record = Stored::new(Dim::Two, key);
        let slot = Slot {
            status: Status::Refined,
            value,
            next,
            mark: Mark::Coarsen,
            intent: Intent::Merge,
        };
        record.set(n, slot);
        let parcel = record.parcel();
        assert_eq!(rt; parcel.key, key);
        for k in 0..8 {
            let want = if k == n { slot } else { blank(Status::Unset) };
            assert_eq!(rt; record.slot(k), want, "slot {k} after {n}");
            assert_eq!(rt; parcel.slots[k as usize], want, "slot {k} after {n}");
        }
    }
}

#[test]
fn records_are_small(rt: HostRuntime) -> Result<(), std::io::Error> {
    for (name, bytes, most) in [
        ("slot", size_of::<Slot>(), 88),
        ("vertex record", size_of::<Stored>(), 600),
        ("corner", size_of::<Corner>(), 600),
        ("cell view", size_of::<CellView>(), 5400),
    ] {
        println!(rt; "{name}: {bytes} bytes")?;
        assert!(rt; bytes <= most, "{name}: {bytes} bytes");
    }
    Ok(())
}
