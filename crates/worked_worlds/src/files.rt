//! The worked files.
use std::alloc::{AllocError, Global};

// A file of the first version, or the same in the second, with trees that are cut anew after every so many steps.
pub(crate) fn with_recuts(
    alloc: Global,
    file: &str,
    recut: Option<u32>,
) -> Result<String, AllocError> {
    match recut {
        Some(every) => format!(in alloc; "version = 2\nrecut_every = {every}\n{file}"),
        None => String::from_str(alloc, file),
    }
}

// The root alone.
pub(crate) const SINGLE_CELL: &str =
    "dim = 2\ndepth = 0\nbase = 0\nsolver = 'diffuse'\na = 1\nb = 1\nsteps = 0\n[[fill]]\nlevel = 0\nfrom = [0, 0]\nto = [1, 1]\nvalue = [7]\n";

// Diffusion of 100 in the centre of nine leaves.
pub(crate) const NINE_LEAVES: &str =
    "dim = 2\ndepth = 1\nbase = 1\nsolver = 'diffuse'\na = 1\nb = 90\nsteps = 1\n[[fill]]\nlevel = 1\nfrom = [1, 1]\nto = [2, 2]\nvalue = [100]\n";

// The same with a divisor that does not divide.
pub(crate) const FLOORED: &str =
    "dim = 2\ndepth = 1\nbase = 1\nsolver = 'diffuse'\na = 1\nb = 91\nsteps = 1\n[[fill]]\nlevel = 1\nfrom = [1, 1]\nto = [2, 2]\nvalue = [100]\n";

// The same with 9 outside the domain.
pub(crate) const FIXED_EDGE: &str =
    "dim = 2\ndepth = 1\nbase = 1\nsolver = 'diffuse'\na = 1\nb = 90\nsteps = 1\nedge = 'fixed'\nedge_value = [9]\n[[fill]]\nlevel = 1\nfrom = [1, 1]\nto = [2, 2]\nvalue = [100]\n";

// A wind along both axes.
pub(crate) const WIND: &str =
    "dim = 2\ndepth = 1\nbase = 1\nsolver = 'advect'\nb = 11\nsteps = 1\nwind = [-2, 7]\n[[fill]]\nlevel = 1\nfrom = [1, 1]\nto = [2, 2]\nvalue = [100]\n";

// A wave that starts in the centre of nine leaves.
pub(crate) const WAVE: &str =
    "dim = 2\ndepth = 1\nbase = 1\nsolver = 'wave'\na = 1\nb = 90\nsteps = 2\nprint_every = 1\n[[fill]]\nlevel = 1\nfrom = [1, 1]\nto = [2, 2]\nvalue = [100, 0]\n";

// Nine leaves, of which the centre one is refined once more.
pub(crate) const REFINED_CENTRE: &str =
    "dim = 2\ndepth = 2\nbase = 1\nsolver = 'diffuse'\na = 1\nb = 1\nsteps = 0\n[[refine]]\nlevel = 1\nfrom = [1, 1]\nto = [2, 2]\nuntil = 2\n";

// Diffusion in space.
pub(crate) const SPACE: &str =
    "dim = 3\ndepth = 1\nbase = 1\nsolver = 'diffuse'\na = 1\nb = 90\nsteps = 1\n[[fill]]\nlevel = 1\nfrom = [1, 1, 1]\nto = [2, 2, 2]\nvalue = [600]\n";

// A leaf of level 3 beside one of level 1.
pub(crate) const THREE_LEVELS: &str =
    "dim = 2\ndepth = 3\nbase = 1\nsolver = 'diffuse'\na = 1\nb = 7290\nsteps = 1\n[[refine]]\nlevel = 1\nfrom = [1, 1]\nto = [2, 2]\nuntil = 2\n[[refine]]\nlevel = 2\nfrom = [3, 4]\nto = [4, 5]\nuntil = 3\n[[fill]]\nlevel = 1\nfrom = [0, 1]\nto = [1, 2]\nvalue = [90]\n";

// Two refined cells, which two trees share.
pub(crate) const TWO_REFINED: &str =
    "dim = 2\ndepth = 2\nbase = 1\nsolver = 'diffuse'\na = 1\nb = 810\nsteps = 2\n[[refine]]\nlevel = 1\nfrom = [0, 0]\nto = [1, 1]\nuntil = 2\n[[refine]]\nlevel = 1\nfrom = [1, 1]\nto = [2, 2]\nuntil = 2\n[[fill]]\nlevel = 2\nfrom = [4, 4]\nto = [5, 5]\nvalue = [900]\n";

// Inflow: the refined centre merges in step 1, and six leaves and the centre split in step 2.
pub(crate) const INFLOW: &str =
    "dim = 2\ndepth = 2\nbase = 1\nsolver = 'advect'\nwind = [1, 0]\nb = 3\nedge = 'fixed'\nedge_value = [100]\nsteps = 2\nprint_every = 1\n[criterion]\nhi = 50\nlo = 1\n[[refine]]\nlevel = 1\nfrom = [1, 1]\nto = [2, 2]\nuntil = 2\n";

// The same inflow, by trees that are cut anew after each step.
pub(crate) const INFLOW_RECUT: &str =
    "version = 2\nrecut_every = 1\ndim = 2\ndepth = 2\nbase = 1\nsolver = 'advect'\nwind = [1, 0]\nb = 3\nedge = 'fixed'\nedge_value = [100]\nsteps = 2\nprint_every = 1\n[criterion]\nhi = 50\nlo = 1\n[[refine]]\nlevel = 1\nfrom = [1, 1]\nto = [2, 2]\nuntil = 2\n";

// One child is kept, and so its siblings are.
pub(crate) const KEPT_CHILD: &str =
    "dim = 2\ndepth = 2\nbase = 1\nsolver = 'diffuse'\na = 0\nb = 1\nsteps = 1\n[criterion]\nhi = 1000\nlo = 5\n[[refine]]\nlevel = 1\nfrom = [0, 1]\nto = [2, 2]\nuntil = 2\n[[fill]]\nlevel = 2\nfrom = [2, 3]\nto = [3, 4]\nvalue = [7]\n";

// So it is where the difference is the least that keeps.
pub(crate) const KEPT_AT_LO: &str =
    "dim = 2\ndepth = 2\nbase = 1\nsolver = 'diffuse'\na = 0\nb = 1\nsteps = 1\n[criterion]\nhi = 1000\nlo = 5\n[[refine]]\nlevel = 1\nfrom = [0, 1]\nto = [2, 2]\nuntil = 2\n[[fill]]\nlevel = 2\nfrom = [2, 3]\nto = [3, 4]\nvalue = [5]\n";

// Two refined cells merge.
pub(crate) const NOT_KEPT: &str =
    "dim = 2\ndepth = 2\nbase = 1\nsolver = 'diffuse'\na = 0\nb = 1\nsteps = 1\n[criterion]\nhi = 1000\nlo = 5\n[[refine]]\nlevel = 1\nfrom = [0, 1]\nto = [2, 2]\nuntil = 2\n[[fill]]\nlevel = 2\nfrom = [2, 3]\nto = [3, 4]\nvalue = [4]\n";

// All leaves of level 2.
pub(crate) const FLAT: &str =
    "dim = 2\ndepth = 2\nbase = 2\nsolver = 'diffuse'\na = 0\nb = 1\nsteps = 1\n";

// Cells of two levels merge one after the other.
pub(crate) const MEANS: &str =
    "dim = 2\ndepth = 3\nbase = 1\nsolver = 'diffuse'\na = 0\nb = 1\nsteps = 2\n[criterion]\nhi = 2\nlo = 2\n[[refine]]\nlevel = 1\nfrom = [1, 1]\nto = [2, 2]\nuntil = 2\n[[refine]]\nlevel = 2\nfrom = [3, 3]\nto = [4, 4]\nuntil = 3\n[[refine]]\nlevel = 2\nfrom = [4, 4]\nto = [5, 5]\nuntil = 3\n[[fill]]\nlevel = 0\nfrom = [0, 0]\nto = [1, 1]\nvalue = [2]\n[[fill]]\nlevel = 1\nfrom = [1, 1]\nto = [2, 2]\nvalue = [1]\n[[fill]]\nlevel = 2\nfrom = [4, 4]\nto = [5, 5]\nvalue = [0]\n[[fill]]\nlevel = 3\nfrom = [12, 12]\nto = [13, 15]\nvalue = [1]\n[[fill]]\nlevel = 3\nfrom = [13, 12]\nto = [14, 14]\nvalue = [1]\n[[fill]]\nlevel = 3\nfrom = [9, 9]\nto = [10, 12]\nvalue = [2]\n[[fill]]\nlevel = 3\nfrom = [10, 9]\nto = [11, 11]\nvalue = [2]\n";

// A chain of refined cells down to level 8, on both sides of whose tip the values differ.
pub(crate) const DEEP: &str =
    "dim = 2\ndepth = 8\nbase = 0\nsolver = 'diffuse'\na = 1\nb = 9000000\nsteps = 3\n[[refine]]\nlevel = 8\nfrom = [3280, 3280]\nto = [3281, 3281]\nuntil = 8\n[[fill]]\nlevel = 7\nfrom = [1093, 1093]\nto = [1094, 1094]\nvalue = [1000000]\n";

// The middle cell of each level down to level 12, whose field is flat.
pub(crate) const DEEP_CORNER: &str =
    "version = 2\ndim = 2\ndepth = 12\nbase = 0\nsolver = 'diffuse'\na = 0\nb = 1\nsteps = 0\n[[fill]]\nlevel = 0\nfrom = [0, 0]\nto = [1, 1]\nvalue = [5]\n[[refine]]\nlevel = 12\nfrom = [265720, 265720]\nto = [265721, 265721]\nuntil = 12\n";

// The same cells with a peak at level 12, which fades; from the second step on cells merge, and trees are cut anew.
pub(crate) const DEEP_FADING: &str =
    "version = 2\nrecut_every = 1\ndim = 2\ndepth = 12\nbase = 0\nsolver = 'diffuse'\na = 1\nb = 1412147682405\nsteps = 4\n[criterion]\nhi = 1000000\nlo = 100\n[[fill]]\nlevel = 12\nfrom = [265720, 265720]\nto = [265721, 265721]\nvalue = [200]\n[[refine]]\nlevel = 12\nfrom = [265720, 265720]\nto = [265721, 265721]\nuntil = 12\n";

// Four leaves and the centre leave the range of values.
pub(crate) const OVERFLOWS: &str =
    "dim = 2\ndepth = 1\nbase = 1\nsolver = 'diffuse'\na = 1\nb = 1\nsteps = 1\n[[fill]]\nlevel = 0\nfrom = [0, 0]\nto = [1, 1]\nvalue = [9000000000000000000]\n[[fill]]\nlevel = 1\nfrom = [1, 1]\nto = [2, 2]\nvalue = [-9000000000000000000]\n";

// Nine leaves whose values grow, with changing signs, until they leave the range in step 11, all of them.
pub(crate) const OVERFLOWS_LATE: &str =
    "dim = 2\ndepth = 1\nbase = 1\nsolver = 'diffuse'\na = 1\nb = 1\nsteps = 20\n[[fill]]\nlevel = 1\nfrom = [1, 1]\nto = [2, 2]\nvalue = [100]\n";

// Leaves in space leave it.
pub(crate) const OVERFLOWS_IN_SPACE: &str =
    "dim = 3\ndepth = 1\nbase = 1\nsolver = 'diffuse'\na = 1000000\nb = 1\nsteps = 1\n[[fill]]\nlevel = 1\nfrom = [1, 1, 1]\nto = [2, 2, 2]\nvalue = [9000000000000000000]\n";

// The opening grid has 20,440 cells; the 3,458 leaves inside the faces of a box and the 3,750 outside split.
pub(crate) const CROWDED: &str =
    "dim = 3\ndepth = 4\nbase = 3\nsolver = 'diffuse'\na = 0\nb = 1\nsteps = 1\n[criterion]\nhi = 7\nlo = 0\n[[fill]]\nlevel = 3\nfrom = [1, 1, 1]\nto = [26, 26, 26]\nvalue = [7]\n";

// All leaves of level 5, which are 59,049.
pub(crate) const MANY_LEAVES: &str =
    "dim = 2\ndepth = 5\nbase = 5\nsolver = 'diffuse'\na = 0\nb = 1\nsteps = 8\nprint_every = 1\n";

// A grid of 199,999 cells.
pub(crate) const LARGEST: &str =
    "dim = 2\ndepth = 6\nbase = 5\nsolver = 'diffuse'\na = 0\nb = 1\nsteps = 0\n[[refine]]\nlevel = 5\nfrom = [0, 0]\nto = [61, 243]\nuntil = 6\n[[refine]]\nlevel = 5\nfrom = [61, 0]\nto = [62, 18]\nuntil = 6\n";

// A wave whose fronts are refined.
pub(crate) const ADAPTIVE_WAVE: &str =
    "dim = 2\ndepth = 5\nbase = 3\nsolver = 'wave'\na = 1\nb = 59049000\nedge = 'copy'\nsteps = 200\nprint_every = 50\n[criterion]\nhi = 200\nlo = 20\n[[fill]]\nlevel = 3\nfrom = [12, 12]\nto = [15, 15]\nvalue = [1000000, 0]\n[[refine]]\nlevel = 3\nfrom = [11, 11]\nto = [16, 16]\nuntil = 5\n";
