//! Trees beside each other, each owned by the thread that works on it, and what they give back.
ghost use Rattle.std.specs.Prelude.{◌≡◌, Ok, IfOk, length, map};
ghost use Rattle.step_driver.specs.declared.beside.Swept.{Swept};

use std::alloc::{AllocError, Global};
use tree_automaton::TreeStore;
use vertex_stacks::SweepNote;

/// A tree after a sweep: its store, the sweep's note, and what else the sweep found.
#[derive(Drop)]
pub(crate) struct Swept<A> {
    pub(crate) store: TreeStore,
    pub(crate) note: SweepNote,
    pub(crate) found: A,
}

/// What all gave, in their order, unless one was refused memory.
pub(crate) fn all_of<T: Drop>(
    alloc: Global,
    given: Vec<Result<T, AllocError>>,
) -> Result<Vec<T>, AllocError>
    ensures { IfOk result (λ all. given.items ≡ map Ok all.items) }
{
    let mut all = Vec::new(alloc);
    for item in given {
        all.push(item?)?;
    }
    Ok(all)
}

/// The stores of swept trees, in their order.
pub(crate) fn stores_of<A: Drop>(
    alloc: Global,
    swept: Vec<Swept<A>>,
) -> Result<Vec<TreeStore>, AllocError>
    ensures { IfOk result (λ stores. stores.items ≡ map (λ (x : Swept A). x.store) swept.items) }
{
    swept.into_iter().map(|tree| tree.store).collect(alloc)
}

/// The items of two lists, in pairs.
pub(crate) fn paired<A: Drop, B: Drop>(
    alloc: Global,
    firsts: Vec<A>,
    seconds: Vec<B>,
) -> Result<Vec<(A, B)>, AllocError>
    requires { length firsts.items ≡ length seconds.items }
    ensures firsts { IfOk result (λ pairs. firsts.items ≡ map (λ (x : A × B). x.0) pairs.items) }
    ensures seconds { IfOk result (λ pairs. seconds.items ≡ map (λ (x : A × B). x.1) pairs.items) }
{
    let mut pairs = Vec::new(alloc);
    let mut left = seconds.into_iter();
    for first in firsts {
        if let Some(second) = left.next() {
            pairs.push((first, second))?;
        }
    }
    Ok(pairs)
}

/// The firsts and the seconds of pairs, each in their order.
pub(crate) fn parted<A: Drop, B: Drop>(
    alloc: Global,
    pairs: Vec<(A, B)>,
) -> Result<(Vec<A>, Vec<B>), AllocError>
    ensures firsts { IfOk result (λ r. r.0.items ≡ map (λ (x : A × B). x.0) pairs.items) }
    ensures seconds { IfOk result (λ r. r.1.items ≡ map (λ (x : A × B). x.1) pairs.items) }
{
    let mut firsts = Vec::new(alloc);
    let mut seconds = Vec::new(alloc);
    for (first, second) in pairs {
        firsts.push(first)?;
        seconds.push(second)?;
    }
    Ok((firsts, seconds))
}
