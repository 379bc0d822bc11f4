//! What a command line can say.

/// What is printed of each step that the file asks for.
#[derive(Clone, Copy, Debug, PartialEq, Eq)]
pub enum ShowWhat {
    /// The leaves with their values.
    Fields,
    /// The counts of each tree.
    Traffic,
    /// Both.
    All,
}

/// Why there are no settings.
#[derive(Clone, Copy, Debug, PartialEq, Eq)]
pub enum WordsFault {
    /// The words mean nothing.
    Usage,
    /// Memory ran out.
    NoMemory,
}

/// The settings of a command line.
#[derive(Clone, Copy, Debug, PartialEq, Eq)]
pub struct Words {
    /// How many trees the grid is cut into: 1 to 64.
    pub trees: u32,
    /// How many helpers compute tasks: 0 to 16.
    pub workers: u32,
    /// What is printed.
    pub show: ShowWhat,
    /// The number of the demonstration, where one is asked for.
    pub demo: Option<u64>,
}
