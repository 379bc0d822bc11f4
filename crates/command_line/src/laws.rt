//! Laws of command lines.
ghost use Rattle.command_line.specs.CommandLine.{OneMeaning};

/// Words have one meaning at most.
pub fn one_meaning()
    ensures { OneMeaning }
{}
