//! Lanes by worked lists: what is taken, popped and turned, and what notes and tales say of it.
ghost use Rattle.std.specs.Prelude.{◌≡◌, ◌*◌, ◌<◌, ◌≤◌, IsTrue, length};
ghost use Rattle.peano_keys.specs.Dim.{axes};

use crate::{Kind, Lanes, SweepNote, Tale};
use peano_keys::{Dim, Mark, State, VertexKey};
use peano_records::{Intent, Slot, Status, Stored};

// The record of a vertex on the low side of a plane of level 3.
fn record(place: u32) -> Stored
    requires { place ≤ 27 }
{
    Stored::new(
        Dim::Two,
        VertexKey {
            level: 3,
            v: [place, 0, 0],
        },
    )
}

// The place of a record of `record`; none where no record came.
fn place(taken: Option<Stored>) -> Option<u32> {
    let taken = taken?;
    Some(taken.key().v[0])
}

// Whether these lanes use a lane of this number.
fn is_lane(lanes: &Lanes, lane: u32) -> bool
    ensures { IsTrue result → lane < 2 * axes lanes.now.dim }
{
    match lanes.dim {
        Dim::Two => lane < 4,
        Dim::Three => lane < 6,
    }
}

// How many vertices the input holds.
fn input_count(lanes: &Lanes) -> u64
    ensures { result ≡ length lanes.now.input }
{
    lanes.input.len() as u64
}

// The record of one of many vertices.
fn numbered(place: u32) -> Stored
    requires { place ≤ 19683 }
{
    Stored::new(
        Dim::Two,
        VertexKey {
            level: 9,
            v: [place, 0, 0],
        },
    )
}

#[test]
fn new_lanes_answer_none(rt: HostRuntime) {
    for (dim, lane_count) in [(Dim::Two, 4u32), (Dim::Three, 6)] {
        let mut lanes = Lanes::new(rt.alloc(), dim);
        assert_eq!(rt; place(lanes.take_input()), None);
        for lane in 0..lane_count {
            assert!(rt; is_lane(&lanes, lane));
            assert_eq!(rt; place(lanes.pop(lane)), None);
        }
        assert!(rt; lanes.is_drained());
        assert_eq!(rt; lanes.counts(), (0, 0, 0));
        assert_eq!(rt;
            lanes.tale(),
            Tale {
                sweeps: [0; 6],
                taken: 0,
                put: 0,
                pushed: 0
            }
        );
    }
}

#[test]
fn a_vertex_lies_on_its_lane_alone(rt: HostRuntime) {
    for (dim, lane, others) in [
        (Dim::Two, 2u32, [3u32, 0, 1]),
        (Dim::Two, 0, [1, 2, 3]),
        (Dim::Three, 2, [3, 4, 5]),
        (Dim::Three, 5, [4, 1, 0]),
    ] {
        let mut lanes = Lanes::new(rt.alloc(), dim);
        assert!(rt; is_lane(&lanes, lane));
        assert!(rt; lanes.push(lane, record(7)).is_ok());
        assert!(rt; !lanes.is_drained());
        for other in others {
            assert!(rt; is_lane(&lanes, other));
            assert_eq!(rt; place(lanes.pop(other)), None, "lane {other}");
        }
        assert!(rt; is_lane(&lanes, lane));
        assert_eq!(rt; place(lanes.pop(lane)), Some(7));
        assert!(rt; lanes.is_drained());
        assert_eq!(rt; lanes.counts(), (0, 0, 1));
    }
}

#[test]
fn a_lane_gives_its_last_vertex_and_the_input_that_of_the_output(rt: HostRuntime) {
    let mut lanes = Lanes::new(rt.alloc(), Dim::Two);
    assert!(rt; lanes.reserve(8).is_ok());
    for x in 1..4 {
        assert!(rt; is_lane(&lanes, 1));
        assert!(rt; lanes.push(1, record(x)).is_ok());
    }
    // Popped 3, 2, 1 and put in that order, so 1 is taken first.
    for want in [3u32, 2, 1] {
        assert!(rt; is_lane(&lanes, 1));
        let Some(v) = lanes.pop(1) else {
            return assert!(rt; false, "the lane is empty before {want}");
        };
        assert_eq!(rt; v.key().v[0], want);
        assert!(rt; lanes.put_output(v).is_ok());
    }
    assert!(rt; lanes.is_drained());
    let note = lanes.turn(4, Kind::Show, 9);
    assert_eq!(rt; (note.step(), note.kind(), note.tree()), (4, Kind::Show, 9));
    assert_eq!(rt; (note.taken(), note.put(), note.pushed()), (0, 3, 3));
    assert_eq!(rt; lanes.counts(), (0, 0, 0));

    // The vertex at place 1 gets a slot, and no other vertex does.
    let slot = Slot {
        status: Status::Leaf,
        value: State::one(5),
        next: State::one(6),
        mark: Mark::Refine,
        intent: Intent::Split,
    };
    assert_eq!(rt; input_count(&lanes), 3);
    lanes.set_slot(1, 2, slot);
    for (k, want) in [(0u64, 1u32), (1, 2), (2, 3)] {
        assert!(rt; k < input_count(&lanes));
        let parcel = lanes.parcel_at(k);
        assert_eq!(rt; parcel.key.v[0], want);
        for n in 0..8 {
            assert_eq!(rt;
                parcel.slots[n] == slot,
                k == 1 && n == 2,
                "slot {n} at {k}"
            );
        }
    }
    for want in [Some(1), Some(2), Some(3), None] {
        assert_eq!(rt; place(lanes.take_input()), want);
    }
    assert_eq!(rt; lanes.counts(), (3, 0, 0));
}

#[test]
fn counts_stand_at_their_last_value(rt: HostRuntime) {
    for (before, after) in [(0, 1), (u64::MAX - 1, u64::MAX), (u64::MAX, u64::MAX)] {
        let mut lanes = Lanes::new(rt.alloc(), Dim::Two);
        assert!(rt; lanes.put_output(record(1)).is_ok());
        let _first = lanes.turn(0, Kind::Raise, 0);
        lanes.taken = before;
        lanes.put = before;
        lanes.pushed = before;
        assert_eq!(rt; place(lanes.take_input()), Some(1));
        assert!(rt; lanes.put_output(record(2)).is_ok());
        assert!(rt; is_lane(&lanes, 3));
        assert!(rt; lanes.push(3, record(3)).is_ok());
        assert_eq!(rt; lanes.counts(), (after, after, after));
    }
}

// One vertex goes from the input, or anew, over lane 0 so many times and to the output.
fn sweep(lanes: &mut Lanes, kind: Kind, times: u32) -> Option<SweepNote> {
    let mut v = lanes.take_input().unwrap_or(record(1));
    for _ in 0..times {
        if !is_lane(lanes, 0) {
            return None;
        }
        lanes.push(0, v).ok()?;
        if !is_lane(lanes, 0) {
            return None;
        }
        v = lanes.pop(0)?;
    }
    lanes.put_output(v).ok()?;
    if !lanes.is_drained() {
        return None;
    }
    Some(lanes.turn(times, kind, 2))
}

#[test]
fn the_tale_counts_each_kind_and_sums_what_was_moved(rt: HostRuntime) {
    let mut lanes = Lanes::new(rt.alloc(), Dim::Three);
    // The kind of each sweep, how often it pushes, and the tale after it.
    for (kind, times, sweeps, taken, put, pushed) in [
        (Kind::Raise, 3u32, [1u64, 0, 0, 0, 0, 0], 0u64, 1u64, 3u64),
        (Kind::Show, 0, [1, 1, 0, 0, 0, 0], 1, 2, 3),
        (Kind::Primary, 2, [1, 1, 1, 0, 0, 0], 2, 3, 5),
        (Kind::Secondary, 2, [1, 1, 1, 1, 0, 0], 3, 4, 7),
        (Kind::Adapt, 1, [1, 1, 1, 1, 1, 0], 4, 5, 8),
        (Kind::Show, 4, [1, 2, 1, 1, 1, 0], 5, 6, 12),
        (Kind::Recut, 2, [1, 2, 1, 1, 1, 1], 6, 7, 14),
    ] {
        let Some(note) = sweep(&mut lanes, kind, times) else {
            return assert!(rt; false, "no note of {kind:?}");
        };
        assert_eq!(rt; (note.step(), note.kind(), note.tree()), (times, kind, 2));
        assert_eq!(rt; note.pushed(), times as u64);
        assert_eq!(rt;
            lanes.tale(),
            Tale {
                sweeps,
                taken,
                put,
                pushed
            }
        );
    }
}

#[test]
fn pages_are_made_as_room_is_asked_for(rt: HostRuntime) {
    let mut lanes = Lanes::new(rt.alloc(), Dim::Two);
    assert_eq!(rt; (lanes.pages(), lanes.room()), (0, 0));
    // The vertices that are to have room, and the pages and the room after that.
    for (held, pages, room) in [
        (0u64, 0u64, 0u64),
        (65, 8, 128),
        (128, 8, 128),
        (129, 9, 192),
        (1, 9, 192),
    ] {
        assert!(rt; lanes.reserve_live(held).is_ok());
        assert_eq!(rt; (lanes.pages(), lanes.room()), (pages, room), "for {held}");
    }
}

#[test]
fn vertices_come_back_in_order_over_many_pages(rt: HostRuntime) {
    let mut lanes = Lanes::new(rt.alloc(), Dim::Two);
    assert!(rt; lanes.reserve_live(2000).is_ok());
    let pages = lanes.pages();
    // Round and round, so that the pages of the lanes lie between each other.
    for k in 0..2000u32 {
        assert!(rt; is_lane(&lanes, k % 4));
        assert!(rt; lanes.push(k % 4, numbered(k)).is_ok());
    }
    for turned in 0..2000u32 {
        let k = 1999 - turned;
        assert!(rt; is_lane(&lanes, k % 4));
        let Some(v) = lanes.pop(k % 4) else {
            return assert!(rt; false, "the lane is empty before {k}");
        };
        assert_eq!(rt; v.key().v[0], k);
        assert!(rt; lanes.put_output(v).is_ok());
    }
    assert!(rt; lanes.is_drained());
    let _note = lanes.turn(0, Kind::Show, 0);
    for k in 0..2000u32 {
        assert_eq!(rt; place(lanes.take_input()), Some(k));
    }
    assert_eq!(rt; lanes.pages(), pages);
}

#[test]
fn a_vertex_goes_from_a_place_and_to_another(rt: HostRuntime) {
    let mut lanes = Lanes::new(rt.alloc(), Dim::Two);
    let wide = Slot {
        status: Status::Refined,
        value: State::Quadruple(1, -2, 3, -4),
        next: State::two(5, 6),
        mark: Mark::Coarsen,
        intent: Intent::Merge,
    };
    let mut from = numbered(7);
    from.set(3, wide);
    let mut to = numbered(8);
    // What lay in the place before does not show: its slots 6 and 7 were written.
    to.set(6, wide);
    to.set(7, wide);
    let blank = Stored::blank().slot(6);
    assert!(rt; is_lane(&lanes, 2));
    assert!(rt; lanes.push_from(2, &mut from).is_ok());
    assert!(rt; is_lane(&lanes, 2));
    assert!(rt; lanes.pop_into(2, &mut to));
    assert!(rt; lanes.put_output_from(&mut to).is_ok());
    assert!(rt; lanes.is_drained());
    let _note = lanes.turn(0, Kind::Show, 0);
    let mut last = Stored::blank();
    assert!(rt; lanes.take_input_into(&mut last));
    assert_eq!(rt; last.key().v[0], 7);
    assert_eq!(rt; last.slot(3), wide);
    assert_eq!(rt; last.slot(6), blank);
    assert_eq!(rt; last.slot(7), blank);
    assert!(rt; !lanes.take_input_into(&mut last));
}

#[test]
fn a_refusal_changes_nothing(rt: HostRuntime) {
    let mut lanes = Lanes::new(rt.alloc(), Dim::Two);
    // Each call is made again where memory was wanting, which it is where an allocation is made to fail.
    for k in 0..300u32 {
        let before = (lanes.pages(), lanes.counts());
        assert!(rt; is_lane(&lanes, k % 3));
        if let Err(v) = lanes.push(k % 3, numbered(k)) {
            assert_eq!(rt; v.key().v[0], k);
            assert_eq!(rt; (lanes.pages(), lanes.counts()), before);
            assert!(rt; is_lane(&lanes, k % 3));
            assert!(rt; lanes.push(k % 3, v).is_ok());
        }
    }
    let before = lanes.pages();
    if lanes.reserve_live(1000).is_err() {
        assert_eq!(rt; lanes.pages(), before);
        assert!(rt; lanes.reserve_live(1000).is_ok());
    }
    for turned in 0..300u32 {
        let k = 299 - turned;
        assert!(rt; is_lane(&lanes, k % 3));
        assert_eq!(rt; place(lanes.pop(k % 3)), Some(k));
    }
}
