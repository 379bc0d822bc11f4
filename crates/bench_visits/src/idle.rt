//! A visitor that changes nothing.
ghost use Rattle.std.specs.Prelude.{false};
ghost use Rattle.std.specs.FinSet as set;
ghost use Rattle.tree_automaton.specs.declared.kinds.Serves.TheVariants.{Plain};
ghost use Rattle.bench_visits.specs.Idle.{ChangesNothing};

use peano_keys::Dim;
use peano_records::CellView;
use std::alloc::AllocError;
use tree_automaton::Visitor;

/// Looks at nothing and changes nothing.
#[derive(Clone, Copy)]
pub struct Idle {
    pub dim: Dim,
}

impl Visitor for Idle {
    ghost meaning = { λ v. record {
      serves = Plain;
      dim = v.dim;
      new_grid = record { dim = v.dim; refined = set.empty };
      may_want = false;
      loan = 0;
    } };

    ghost entered = { ChangesNothing };

    ghost left = { ChangesNothing };

    fn refined_after(&mut self, cell: &CellView) -> bool {
        matches!(cell.was, Some(true))
    }

    fn enter(&mut self, _: &mut CellView) -> Result<(), AllocError> {
        Ok(())
    }

    fn leave(&mut self, _: &mut CellView) -> Result<(), AllocError> {
        Ok(())
    }
}
