//! The mark of a leaf by a criterion.
ghost use Rattle.std.specs.Prelude.{◌≡◌, ◌<◌, ◌||◌, ◌&&◌, IfSome};
ghost use Rattle.peano_keys.specs.State.{count_of};
ghost use Rattle.solver_api.specs.Parts.{SideHas, HaveParts};
ghost use Rattle.solver_api.specs.Marks.{difference, mark_by, depth_of};
ghost use Rattle.volume_solver.specs.Seen.{reaches, is_calm, some_reaches, all_calm};

use peano_keys::{Dim, Mark, Side, Sides, State};
use solver_api::Criterion;

// What a leaf sees across some of its faces: whether a watched difference reaches `hi`, and whether all are below `lo`.
#[derive(Clone, Copy)]
struct Seen {
    reached: bool,
    calm: bool,
}

impl Seen {
    // Across these faces and others.
    fn with(self, others: Seen) -> Seen
        ensures reached { result.reached ≡ (self.reached || others.reached) }
        ensures calm { result.calm ≡ (self.calm && others.calm) }
    {
        Seen {
            reached: self.reached || others.reached,
            calm: self.calm && others.calm,
        }
    }
}

// How far a component across a face lies from the leaf's own, none at the domain's edge.
fn difference(watch: u32, own: State, side: Side) -> Option<u64>
    requires own { watch < count_of own }
    requires side { SideHas (count_of own) side }
    ensures { result ≡ difference watch own side }
{
    match side {
        Side::Edge => None,
        Side::Same(there) | Side::Coarse(there) => {
            Some(there.get(watch).abs_diff(own.get(watch)))
        }
    }
}

// What a leaf sees across one face.
fn seen_across(criterion: Criterion, own: State, side: Side) -> Seen
    requires own { criterion.watch < count_of own }
    requires side { SideHas (count_of own) side }
    ensures reached { result.reached ≡ reaches criterion own side }
    ensures calm { result.calm ≡ is_calm criterion own side }
{
    match difference(criterion.watch, own, side) {
        None => Seen {
            reached: false,
            calm: true,
        },
        Some(difference) => Seen {
            reached: i128::from(criterion.hi) <= i128::from(difference),
            calm: i128::from(difference) < i128::from(criterion.lo),
        },
    }
}

// What a leaf sees across the two faces of an axis.
fn seen_on(criterion: Criterion, own: State, low: Side, high: Side) -> Seen
    requires own { criterion.watch < count_of own }
    requires low { SideHas (count_of own) low }
    requires high { SideHas (count_of own) high }
    ensures reached { result.reached ≡ (reaches criterion own low || reaches criterion own high) }
    ensures calm { result.calm ≡ (is_calm criterion own low && is_calm criterion own high) }
{
    seen_across(criterion, own, low).with(seen_across(criterion, own, high))
}

// What a leaf sees across all its faces.
fn seen_around(dim: Dim, criterion: Criterion, own: State, sides: &Sides) -> Seen
    requires own { criterion.watch < count_of own }
    requires sides { HaveParts (count_of own) own sides.now }
    ensures reached { result.reached ≡ some_reaches dim criterion own sides.now }
    ensures calm { result.calm ≡ all_calm dim criterion own sides.now }
{
    let first = seen_on(criterion, own, sides.low[0], sides.high[0]);
    let second = seen_on(criterion, own, sides.low[1], sides.high[1]);
    match dim {
        Dim::Two => first.with(second),
        Dim::Three => {
            let third = seen_on(criterion, own, sides.low[2], sides.high[2]);
            first.with(second).with(third)
        }
    }
}

// The mark of a leaf of a level, by a criterion where there is one.
pub(crate) fn mark_by(
    dim: Dim,
    watch: Option<Criterion>,
    own: State,
    sides: &Sides,
    level: u32,
) -> Mark
    requires watch { IfSome watch (λ c. c.watch < count_of own) }
    requires sides { HaveParts (count_of own) own sides.now }
    ensures { result ≡ mark_by dim watch own sides.now level }
{
    let Some(criterion) = watch else {
        return Mark::Keep;
    };
    let seen = seen_around(dim, criterion, own, sides);
    if seen.reached && level < criterion.depth {
        Mark::Refine
    } else if seen.calm {
        Mark::Coarsen
    } else {
        Mark::Keep
    }
}

// The depth of a criterion, 0 where there is none.
pub(crate) fn depth(watch: Option<Criterion>) -> u32
    ensures { result ≡ depth_of watch }
{
    watch.map_or(0, |criterion| criterion.depth)
}
