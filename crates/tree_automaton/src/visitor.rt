//! What is told of each visit.
ghost use Rattle.std.specs.Prelude.{◌≡◌, false, OnOk, IsOk};
ghost use Rattle.peano_records.specs.declared.view.CellView.{CellView};
ghost use Rattle.tree_automaton.specs.Promises.{Foresees, IsViewIn, Keeps, MayEnter, MayLeave, Meaning};

use peano_records::CellView;
use std::alloc::AllocError;

/// What a sweep calls at each visit.
pub trait Visitor {
    // Which kinds it serves, the dimension, the new grid, whether it may want memory, and its loan.
    ghost meaning: { Self → Meaning };

    // What the calls do: of the visitor and the view before, and the view and the visitor after.
    ghost entered: { Self → CellView → CellView → Self → Type 0 };

    ghost left: { Self → CellView → CellView → Self → Type 0 };

    /// Whether a cell is refined in the new grid, asked before the cell is entered.
    fn refined_after(&mut self, cell: &CellView) -> bool
        requires { IsViewIn (meaning self.old).dim cell.now }
        ensures same { self.new ≡ self.old }
        ensures value { Foresees (meaning self.old).serves
            (meaning self.old).new_grid cell.now result };

    /// Called as a cell is entered, before all cells below it.
    fn enter(&mut self, cell: &mut CellView) -> Result<(), AllocError>
        requires { IsViewIn (meaning self.old).dim cell.old }
        ensures keeps { Keeps cell.old cell.new }
        ensures slots { MayEnter (meaning self.old).serves
            (meaning self.old).new_grid cell.old cell.new }
        ensures done { OnOk result (entered self.old cell.old cell.new self.new) }
        ensures memory { (meaning self.old).may_want ≡ false → IsOk result }
        ensures same { meaning self.new ≡ meaning self.old };

    /// Called as a cell is left, after all cells below it, with the view as the call at its enter left it.
    fn leave(&mut self, cell: &mut CellView) -> Result<(), AllocError>
        requires { IsViewIn (meaning self.old).dim cell.old }
        ensures keeps { Keeps cell.old cell.new }
        ensures slots { MayLeave (meaning self.old).serves
            (meaning self.old).new_grid cell.old cell.new }
        ensures done { OnOk result (left self.old cell.old cell.new self.new) }
        ensures memory { (meaning self.old).may_want ≡ false → IsOk result }
        ensures same { meaning self.new ≡ meaning self.old };
}
