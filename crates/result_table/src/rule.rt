//! The rule of the desk as the rule of a table of atomic words and slots, and what each step tells.
use crate::done::Done;
use crate::updates::Updates;
use crate::view::{Brief, View};
use atomic_table::{Play, Split, TableRule};
use std::marker::PhantomData;

/// The rule that holds between any two steps.
pub struct Ruled<S> {
    of: PhantomData<S>,
}

impl<S: Updates> TableRule<Option<Done<S>>, View<S>, Brief<S>> for Ruled<S> {
    ghost use Rattle.result_table.specs.Rule.{DeskRule};
    ghost use Rattle.result_table.specs.Views.{newcomer};

    ghost holds = { DeskRule };

    ghost first = { λ b. newcomer b.solver.value 0 1 };
}

/// A compare and exchange from Free to Taken.
pub struct Claim;

impl<S: Updates> Play<Option<Done<S>>, View<S>> for Claim {
    ghost use Rattle.result_table.specs.Plays.{Claims};

    ghost then = { Claims };
}

/// A load, by which the slot of a claimed task comes out to take its result.
pub struct Fetch;

impl<S: Updates> Play<Option<Done<S>>, View<S>> for Fetch {
    ghost use Rattle.result_table.specs.Plays.{Fetches};

    ghost then = { Fetches };
}

/// A compare and exchange from Taken to Published.
pub struct Publish;

impl<S: Updates> Play<Option<Done<S>>, View<S>> for Publish {
    ghost use Rattle.result_table.specs.Plays.{Publishes};

    ghost then = { Publishes };
}

/// An exchange by Collected.
pub struct Collect;

impl<S: Updates> Play<Option<Done<S>>, View<S>> for Collect {
    ghost use Rattle.result_table.specs.Plays.{Collects};

    ghost then = { Collects };
}

/// A seat that is made from the first one.
pub struct Another;

impl<S> Split<View<S>> for Another {
    ghost use Rattle.std.specs.Prelude.{◌+◌};
    ghost use Rattle.result_table.specs.Views.{newcomer, with_made};

    ghost left = { λ v. with_made v (v.made + 1) };

    ghost right = { λ v. newcomer v.solver v.made 0 };
}
