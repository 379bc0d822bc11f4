//! Keys of a file, and the places that a refusal names.
ghost use Rattle.std.specs.Prelude.{◌≡◌, ◌≤◌, length};
ghost use Rattle.grid_file.specs.Places.{spelled, part_name};

/// A part of a file: the document, its criterion, one of its two lists, or a table of a list.
#[derive(Clone, Copy, Debug, PartialEq, Eq)]
pub enum Part {
    Document,
    Criterion,
    FillList,
    Fill,
    RefineList,
    Refine,
}

/// A key of a table, or the whole of it.
#[derive(Clone, Copy, Debug, PartialEq, Eq)]
pub enum KeyName {
    Whole,
    Version,
    Dim,
    Depth,
    Base,
    Solver,
    A,
    B,
    Wind,
    Edge,
    EdgeValue,
    Steps,
    PrintEvery,
    RecutEvery,
    Hi,
    Lo,
    Watch,
    Level,
    From,
    To,
    Value,
    Until,
    Criterion,
    Fill,
    Refine,
}

/// Where something is refused: a part, a key of it or the whole, and for a table of a list its number from 0.
/// `index` is 0 for every other part.
#[derive(Clone, Copy, Debug, PartialEq, Eq)]
pub struct Place {
    pub part: Part,
    pub index: u32,
    pub key: KeyName,
}

// A key as it is spelled in a file.
pub(crate) fn spelled(key: KeyName) -> &'static str
    ensures value { result.now ≡ spelled key }
    ensures short { length result.now ≤ 11 }
{
    match key {
        KeyName::Whole => "",
        KeyName::Version => "version",
        KeyName::Dim => "dim",
        KeyName::Depth => "depth",
        KeyName::Base => "base",
        KeyName::Solver => "solver",
        KeyName::A => "a",
        KeyName::B => "b",
        KeyName::Wind => "wind",
        KeyName::Edge => "edge",
        KeyName::EdgeValue => "edge_value",
        KeyName::Steps => "steps",
        KeyName::PrintEvery => "print_every",
        KeyName::RecutEvery => "recut_every",
        KeyName::Hi => "hi",
        KeyName::Lo => "lo",
        KeyName::Watch => "watch",
        KeyName::Level => "level",
        KeyName::From => "from",
        KeyName::To => "to",
        KeyName::Value => "value",
        KeyName::Until => "until",
        KeyName::Criterion => "criterion",
        KeyName::Fill => "fill",
        KeyName::Refine => "refine",
    }
}

// The name of a part.
pub(crate) fn part_name(part: Part) -> &'static str
    ensures value { result.now ≡ part_name part }
    ensures short { length result.now ≤ 9 }
{
    match part {
        Part::Document => "document",
        Part::Criterion => spelled(KeyName::Criterion),
        Part::FillList | Part::Fill => spelled(KeyName::Fill),
        Part::RefineList | Part::Refine => spelled(KeyName::Refine),
    }
}
