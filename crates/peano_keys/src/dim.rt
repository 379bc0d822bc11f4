//! How many axes there are, and so how many corners and children a cell has.
ghost use Rattle.std.specs.Prelude.{◌≡◌, ◌^◌, ◌≤◌};
ghost use Rattle.peano_keys.specs.Dim.{axes, corners, children};

/// Two axes or three. In two dimensions the coordinates on axis 2 are 0.
#[derive(Clone, Copy, Debug, PartialEq, Eq, PartialOrd, Ord, Hash)]
pub enum Dim {
    Two,
    Three,
}

/// How many corners a cell has, and so many positions a vertex.
pub fn corner_count(dim: Dim) -> u32
    ensures value { result ≡ corners dim }
    ensures most { result ≤ 8 }
{
    match dim {
        Dim::Two => 4,
        Dim::Three => 8,
    }
}

/// How many children a refined cell has.
pub fn child_count(dim: Dim) -> u32
    ensures value { result ≡ children dim }
    ensures power { result ≡ 3 ^ axes dim }
{
    match dim {
        Dim::Two => 9,
        Dim::Three => 27,
    }
}
