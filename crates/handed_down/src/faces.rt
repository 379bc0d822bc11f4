//! How the curve crosses the faces of a cell.
ghost use Rattle.std.specs.Prelude.{◌≡◌, ◌<◌};

/// How the curve crosses a face of a cell: not at all on the domain's boundary; in, where the neighbour across it comes
/// earlier; out, where it comes later. The number is the age of the face's plane: the level at which it first divides cells.
#[derive(Clone, Copy, Debug, PartialEq, Eq)]
pub enum Crossing {
    Wall,
    In(u32),
    Out(u32),
}

/// How the curve crosses each face of a cell, by axis. A plane has walls on axis 2.
#[derive(Clone, Copy, Debug, PartialEq, Eq)]
pub struct Faces {
    pub low: [Crossing; 3],
    pub high: [Crossing; 3],
}

impl Crossing {
    ghost use Rattle.std.specs.Prelude.{◌≡◌};
    ghost use Rattle.handed_down.specs.Ages.{age_in, age_out};

    // The age of a face by which the curve goes on, else 0.
    fn age_out(self) -> u32
        ensures { result ≡ age_out self }
    {
        match self {
            Crossing::Out(age) => age,
            Crossing::In(_) | Crossing::Wall => 0,
        }
    }

    // The age of a face by which the curve came, else 0.
    fn age_in(self) -> u32
        ensures { result ≡ age_in self }
    {
        match self {
            Crossing::In(age) => age,
            Crossing::Out(_) | Crossing::Wall => 0,
        }
    }
}

impl Faces {
    ghost use Rattle.std.specs.Prelude.{◌≡◌, ◌<◌};
    ghost use Rattle.handed_down.specs.Ages.{face_at, age_in, age_out};

    // The face on an axis at corner `n`.
    fn at(&self, n: u32, axis: u32) -> Crossing
        requires axis { axis < 3 }
        ensures { result ≡ face_at self.now n axis }
    {
        if (n >> axis) % 2 == 1 {
            self.high[axis as usize]
        } else {
            self.low[axis as usize]
        }
    }

    // At corner `n` the age of the face on an axis by which the curve goes on, else 0.
    pub(crate) fn age_out(&self, n: u32, axis: u32) -> u32
        requires axis { axis < 3 }
        ensures { result ≡ age_out (face_at self.now n axis) }
    {
        self.at(n, axis).age_out()
    }

    // At corner `n` the age of the face on an axis by which the curve came, else 0.
    pub(crate) fn age_in(&self, n: u32, axis: u32) -> u32
        requires axis { axis < 3 }
        ensures { result ≡ age_in (face_at self.now n axis) }
    {
        self.at(n, axis).age_in()
    }
}
