//! The files whose steps are timed.
use std::alloc::{AllocError, Global};

/// A file of the first version, or the same in the second, with trees that are cut anew after every so many steps.
pub fn with_recuts(alloc: Global, file: &str, recut: Option<u32>) -> Result<String, AllocError> {
    match recut {
        Some(every) => format!(in alloc; "version = 2\nrecut_every = {every}\n{file}"),
        None => String::from_str(alloc, file),
    }
}

/// Nine leaves.
pub const NINE_LEAVES: &str =
    "dim = 2\ndepth = 1\nbase = 1\nsolver = 'diffuse'\na = 1\nb = 90\nsteps = 2\n[[fill]]\nlevel = 1\nfrom = [1, 1]\nto = [2, 2]\nvalue = [100]\n";

/// All leaves of level 4 of the plane.
pub const PLANE_FOUR: &str =
    "dim = 2\ndepth = 4\nbase = 4\nsolver = 'diffuse'\na = 1\nb = 65610\nsteps = 20\n[[fill]]\nlevel = 1\nfrom = [1, 1]\nto = [2, 2]\nvalue = [100000]\n";

/// All leaves of level 5 of the plane.
pub const PLANE_FIVE: &str =
    "dim = 2\ndepth = 5\nbase = 5\nsolver = 'diffuse'\na = 1\nb = 590490\nsteps = 4\n[[fill]]\nlevel = 1\nfrom = [1, 1]\nto = [2, 2]\nvalue = [100000]\n";

/// The plane with 177,777 leaves of levels 5 and 6.
pub const LARGEST: &str =
    "dim = 2\ndepth = 6\nbase = 5\nsolver = 'diffuse'\na = 1\nb = 5314410\nsteps = 2\n[[refine]]\nlevel = 5\nfrom = [0, 0]\nto = [61, 243]\nuntil = 6\n[[refine]]\nlevel = 5\nfrom = [61, 0]\nto = [62, 18]\nuntil = 6\n[[fill]]\nlevel = 1\nfrom = [1, 1]\nto = [2, 2]\nvalue = [100000]\n";

/// A wave whose fronts are refined.
pub const ADAPTIVE_WAVE: &str =
    "dim = 2\ndepth = 5\nbase = 3\nsolver = 'wave'\na = 1\nb = 59049000\nsteps = 40\n[criterion]\nhi = 200\nlo = 20\n[[fill]]\nlevel = 3\nfrom = [12, 12]\nto = [15, 15]\nvalue = [1000000, 0]\n[[refine]]\nlevel = 3\nfrom = [11, 11]\nto = [16, 16]\nuntil = 5\n";

/// All leaves of level 3 of space.
pub const SPACE_THREE: &str =
    "dim = 3\ndepth = 3\nbase = 3\nsolver = 'diffuse'\na = 1\nb = 7290\nsteps = 6\n[[fill]]\nlevel = 1\nfrom = [1, 1, 1]\nto = [2, 2, 2]\nvalue = [100000]\n";

/// A front that crosses the domain by one leaf of the finest level a step, and is refined there alone.
pub const FRONT: &str =
    "dim = 2\ndepth = 5\nbase = 3\nsolver = 'advect'\nwind = [1, 0]\nb = 243\nedge = 'fixed'\nedge_value = [100000]\nsteps = 180\n[criterion]\nhi = 10000\nlo = 1000\n[[fill]]\nlevel = 3\nfrom = [0, 0]\nto = [3, 27]\nvalue = [100000]\n[[refine]]\nlevel = 3\nfrom = [0, 0]\nto = [6, 27]\nuntil = 5\n";

/// A front on a grid of three levels.
pub const SMALL_FRONT: &str =
    "dim = 2\ndepth = 3\nbase = 1\nsolver = 'advect'\nwind = [1, 0]\nb = 27\nedge = 'fixed'\nedge_value = [100000]\nsteps = 12\n[criterion]\nhi = 10000\nlo = 1000\n[[fill]]\nlevel = 3\nfrom = [0, 0]\nto = [3, 27]\nvalue = [100000]\n[[refine]]\nlevel = 3\nfrom = [0, 0]\nto = [6, 27]\nuntil = 3\n";
