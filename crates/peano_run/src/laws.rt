//! A file has one outcome: whatever `run` answers, no other answer would have been right, but for want of memory.
ghost use Rattle.peano_run.specs.Outcome.{EachFileHasAnOutcome, OneReport, NoneIsBoth, OneRefusal, OneSummary};

/// Each file has a report, or is refused for another reason than want of memory.
pub fn each_file_has_an_outcome()
    ensures { EachFileHasAnOutcome }
{}

/// A file has at most one report.
pub fn one_report()
    ensures { OneReport }
{}

/// A file that has a report is refused for want of memory alone.
pub fn none_is_both()
    ensures { NoneIsBoth }
{}

/// A file is refused by one answer, or for want of memory.
pub fn one_refusal()
    ensures { OneRefusal }
{}

/// A demonstration has at most one summary.
pub fn one_summary()
    ensures { OneSummary }
{}
