//! What a tree moves over one grid, in numbers.

/// The counts of one tree over one grid: `cells` that it holds; `stored` vertices that are corners of them; `pushes`
/// on its lanes in a sweep; `hanging` pairs of a held cell and a corner of it that hangs; its owned leaves, of which
/// `skeleton` ones lie beside another tree, a refined cell or a hanging corner, and `enclave` ones do not; and `sent`
/// pairs of such a vertex and another tree that has it too.
#[derive(Clone, Copy, Debug, PartialEq, Eq)]
pub struct Traffic {
    pub tree: u32,
    pub cells: u64,
    pub stored: u64,
    pub pushes: u64,
    pub hanging: u64,
    pub enclave: u64,
    pub skeleton: u64,
    pub sent: u64,
}
