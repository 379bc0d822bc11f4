//! Runs as a caller sees them: what was written, what was told, and what is left of the input.
use super::*;
use peano_io::{MemSink, MemSource};
use std::alloc::{Alloc, AllocError, Global};
use std::test::Fail;
use std::thread::Threads;
use task_pool::Through;

const SINGLE_CELL: &str =
    "dim = 2\ndepth = 0\nbase = 0\nsolver = 'diffuse'\na = 1\nb = 90\nsteps = 0\n[[fill]]\nlevel = 0\nfrom = [0, 0]\nto = [1, 1]\nvalue = [7]\n";

const PULSE: &str =
    "dim = 2\ndepth = 1\nbase = 1\nsolver = 'diffuse'\na = 1\nb = 90\nsteps = 1\n[[fill]]\nlevel = 1\nfrom = [1, 1]\nto = [2, 2]\nvalue = [100]\n";

const WAVE: &str =
    "dim = 2\ndepth = 1\nbase = 1\nsolver = 'wave'\na = 1\nb = 90\nsteps = 2\nprint_every = 2\n[[fill]]\nlevel = 1\nfrom = [1, 1]\nto = [2, 2]\nvalue = [100, 0]\n";

const PULSE_3D: &str =
    "dim = 3\ndepth = 1\nbase = 1\nsolver = 'diffuse'\na = 1\nb = 90\nsteps = 1\n[[fill]]\nlevel = 1\nfrom = [1, 1, 1]\nto = [2, 2, 2]\nvalue = [900]\n";

const MERGES: &str =
    "dim = 2\ndepth = 1\nbase = 0\nsolver = 'diffuse'\na = 0\nb = 1\nsteps = 1\n[criterion]\nhi = 1000\nlo = 5\n[[refine]]\nlevel = 0\nfrom = [0, 0]\nto = [1, 1]\nuntil = 1\n[[fill]]\nlevel = 0\nfrom = [0, 0]\nto = [1, 1]\nvalue = [3]\n[[fill]]\nlevel = 1\nfrom = [1, 1]\nto = [2, 2]\nvalue = [7]\n";

const OVERFLOWS: &str =
    "dim = 2\ndepth = 1\nbase = 1\nsolver = 'diffuse'\na = 1\nb = 1\nsteps = 1\n[[fill]]\nlevel = 0\nfrom = [0, 0]\nto = [1, 1]\nvalue = [9000000000000000000]\n[[fill]]\nlevel = 1\nfrom = [1, 1]\nto = [2, 2]\nvalue = [-9000000000000000000]\n";

const OVERFLOWS_3D: &str =
    "dim = 3\ndepth = 1\nbase = 1\nsolver = 'diffuse'\na = 1000000\nb = 1\nsteps = 1\n[[fill]]\nlevel = 1\nfrom = [1, 1, 1]\nto = [2, 2, 2]\nvalue = [9000000000000000000]\n";

const TOO_MANY_CELLS: &str =
    "dim = 2\ndepth = 6\nbase = 6\nsolver = 'diffuse'\na = 0\nb = 1\nsteps = 0\n";

// The report has 9 x 59,049 = 531,441 leaf lines.
const TOO_MANY_LINES: &str =
    "dim = 2\ndepth = 5\nbase = 5\nsolver = 'diffuse'\na = 0\nb = 1\nsteps = 8\nprint_every = 1\n";

// The opening grid has 20,440 cells; the 3,458 leaves inside the box's faces and the 3,750 outside are marked to split.
const CROWDED: &str =
    "dim = 3\ndepth = 4\nbase = 3\nsolver = 'diffuse'\na = 0\nb = 1\nsteps = 1\n[criterion]\nhi = 7\nlo = 0\n[[fill]]\nlevel = 3\nfrom = [1, 1, 1]\nto = [26, 26, 26]\nvalue = [7]\n";

// What a run left behind.
#[derive(Drop)]
struct Left {
    outcome: Outcome,
    input: MemSource,
    out: MemSink,
    err: MemSink,
}

// The call at which the input, the report's sink or the error sink fails.
#[derive(Clone, Copy)]
struct Failing {
    input: Option<u64>,
    out: Option<u64>,
    err: Option<u64>,
}

const NOWHERE: Failing = Failing {
    input: None,
    out: None,
    err: None,
};

// The numbers of the calls that fail.
fn calls(alloc: Global, failing: Option<u64>) -> Result<Vec<u64>, AllocError> {
    let mut calls = Vec::new(alloc);
    if let Some(call) = failing {
        calls.push(call)?;
    }
    Ok(calls)
}

// Runs a file, with a report's sink that takes at most ten bytes a call.
fn run_with<R: Threads + Sync + Alloc<A = Global>>(
    rt: &R,
    words: &[&str],
    file: &str,
    failing: Failing,
) -> Result<Left, Fail> {
    let alloc = rt.alloc();
    let mut given = Vec::new(alloc);
    for word in words {
        let mut text = String::new(alloc);
        text.push_str(word)?;
        given.push(text)?;
    }
    let mut input = MemSource::new(file.as_bytes().to_vec(alloc)?, calls(alloc, failing.input)?);
    let mut out = MemSink::new(alloc, 10_000, 10, calls(alloc, failing.out)?)?;
    let mut err = MemSink::new(alloc, 1_000, 1_000, calls(alloc, failing.err)?)?;
    let outcome = run(
        rt,
        alloc,
        given.as_slice(),
        &mut input,
        &mut out,
        &mut err,
        &Through,
    );
    Ok(Left {
        outcome,
        input,
        out,
        err,
    })
}

#[test]
fn reports_are_written_whole(rt: HostRuntime) -> Result<(), Fail> {
    let table = [
        (SINGLE_CELL, "step 0 leaves 1\n0 0 0 7\n"),
        (
            PULSE,
            "step 1 leaves 9\n1 0 0 0\n1 0 1 10\n1 0 2 0\n1 1 0 10\n1 1 1 60\n1 1 2 10\n1 2 0 0\n1 2 1 10\n1 2 2 0\n",
        ),
        (
            WAVE,
            "step 0 leaves 9\n1 0 0 0 0\n1 0 1 0 0\n1 0 2 0 0\n1 1 0 0 0\n1 1 1 100 0\n1 1 2 0 0\n1 2 0 0 0\n1 2 1 0 0\n1 2 2 0 0\nstep 2 leaves 9\n1 0 0 2 2\n1 0 1 23 13\n1 0 2 2 2\n1 1 0 23 13\n1 1 1 0 -60\n1 1 2 23 13\n1 2 0 2 2\n1 2 1 23 13\n1 2 2 2 2\n",
        ),
        (
            PULSE_3D,
            "step 1 leaves 27\n1 0 0 0 0\n1 0 0 1 0\n1 0 0 2 0\n1 0 1 0 0\n1 0 1 1 90\n1 0 1 2 0\n1 0 2 0 0\n1 0 2 1 0\n1 0 2 2 0\n1 1 0 0 0\n1 1 0 1 90\n1 1 0 2 0\n1 1 1 0 90\n1 1 1 1 360\n1 1 1 2 90\n1 1 2 0 0\n1 1 2 1 90\n1 1 2 2 0\n1 2 0 0 0\n1 2 0 1 0\n1 2 0 2 0\n1 2 1 0 0\n1 2 1 1 90\n1 2 1 2 0\n1 2 2 0 0\n1 2 2 1 0\n1 2 2 2 0\n",
        ),
        (MERGES, "step 1 leaves 1\n0 0 0 3\n"),
    ];
    for (file, want) in table {
        let left = run_with(&rt, &[], file, NOWHERE)?;
        assert_eq!(rt; left.out.bytes(), want.as_bytes(), "{want}");
        assert!(rt;
            left.outcome.answer == Answer::Done && left.outcome.status == 0,
            "{want}"
        );
        assert!(rt;
            left.err.bytes().is_empty() && left.input.left().is_empty(),
            "{want}"
        );
    }
    Ok(())
}

#[test]
fn refusals_name_their_cause(rt: HostRuntime) -> Result<(), Fail> {
    let table = [
        ("", 4, "malformed 3 at dim\n"),
        ("dim = 4\n", 4, "malformed 3 at depth\n"),
        (TOO_MANY_CELLS, 5, "limit cells 200000\n"),
        (TOO_MANY_LINES, 5, "limit lines 500000\n"),
        (CROWDED, 5, "crowded step 1 cells 215056\n"),
        (OVERFLOWS, 6, "overflow step 1 at 1 0 1\n"),
        (OVERFLOWS_3D, 6, "overflow step 1 at 1 0 1 1\n"),
    ];
    for (file, status, text) in table {
        let left = run_with(&rt, &[], file, NOWHERE)?;
        assert_eq!(rt; left.err.bytes(), text.as_bytes(), "{text}");
        assert_eq!(rt; left.outcome.status, status, "{text}");
        assert!(rt;
            left.out.bytes().is_empty() && left.input.left().is_empty(),
            "{text}"
        );
    }
    Ok(())
}

#[test]
fn words_are_refused_before_the_input_is_read(rt: HostRuntime) -> Result<(), Fail> {
    let usage = "usage: peano [--trees N] [--workers N] [--show fields|traffic|all] [--demo N]\n";
    let tables: [&[&str]; 9] = [
        &["--help"],
        &[""],
        &["--"],
        &["--trees", "0"],
        &["--trees=65"],
        &["--workers=17"],
        &["--show", "some"],
        &["--demo", "1", "--show", "fields"],
        &["--demo", "10000000000000000000"],
    ];
    for words in tables {
        let left = run_with(&rt, words, PULSE, NOWHERE)?;
        assert_eq!(rt; left.err.bytes(), usage.as_bytes());
        assert!(rt; left.outcome.answer == Answer::Usage && left.outcome.status == 2);
        assert!(rt; left.out.bytes().is_empty());
        assert_eq!(rt; left.input.left(), PULSE.as_bytes());
    }
    Ok(())
}

#[test]
fn words_that_ask_for_the_report(rt: HostRuntime) -> Result<(), Fail> {
    let tables: [&[&str]; 5] = [
        &["--show", "fields"],
        &["--show=fields", "--trees=1"],
        &["--trees", "001"],
        &["--workers", "0"],
        &["--workers=16", "--trees", "64"],
    ];
    for words in tables {
        let left = run_with(&rt, words, SINGLE_CELL, NOWHERE)?;
        assert_eq!(rt; left.out.bytes(), "step 0 leaves 1\n0 0 0 7\n".as_bytes());
        assert!(rt; left.outcome.answer == Answer::Done && left.err.bytes().is_empty());
    }
    Ok(())
}

#[test]
fn words_that_ask_for_trees_and_traffic(rt: HostRuntime) -> Result<(), Fail> {
    let fields =
        "step 1 leaves 9\n1 0 0 0\n1 0 1 10\n1 0 2 0\n1 1 0 10\n1 1 1 60\n1 1 2 10\n1 2 0 0\n1 2 1 10\n1 2 2 0\n";
    let alone =
        "traffic 1 trees 1\ntree 0 cells 10 stored 20 pushes 20 hanging 0 enclave 9 skeleton 0 sent 0\n";
    let halves =
        "traffic 1 trees 2\ntree 0 cells 5 stored 14 pushes 6 hanging 0 enclave 0 skeleton 4 sent 9\ntree 1 cells 6 stored 15 pushes 9 hanging 0 enclave 1 skeleton 4 sent 9\n";
    let table: [(&[&str], &str, &str); 5] = [
        (&["--trees", "2"], fields, ""),
        (&["--trees=64", "--show", "fields"], fields, ""),
        (&["--show", "traffic"], "", alone),
        (&["--trees", "2", "--show=traffic"], "", halves),
        (&["--show", "all", "--trees=2"], fields, halves),
    ];
    for (words, field, traffic) in table {
        let left = run_with(&rt, words, PULSE, NOWHERE)?;
        let want = format!(in rt.alloc(); "{field}{traffic}")?;
        assert_eq!(rt; left.out.bytes(), want.as_bytes());
        assert!(rt; left.outcome.answer == Answer::Done && left.err.bytes().is_empty());
    }
    let many = run_with(&rt, &["--show", "traffic"], TOO_MANY_LINES, NOWHERE)?;
    assert!(rt; many.outcome.answer == Answer::Done && many.err.bytes().is_empty());
    Ok(())
}

#[test]
fn a_demonstration_reads_nothing_and_writes_its_summary(rt: HostRuntime) -> Result<(), Fail> {
    let table: [(&[&str], &str); 3] = [
        (
            &["--demo", "1"],
            "demo 1\nsteps 20\ncells 7021\nleaves 6241\nlow -696\nhigh 798\nlevel 0 leaves 0\nlevel 1 leaves 0\nlevel 2 leaves 41\nlevel 3 leaves 240\nlevel 4 leaves 470\nlevel 5 leaves 5490\n",
        ),
        (
            &["--demo", "1", "--trees=7"],
            "demo 1\nsteps 20\ncells 7021\nleaves 6241\nlow -696\nhigh 798\nlevel 0 leaves 0\nlevel 1 leaves 0\nlevel 2 leaves 41\nlevel 3 leaves 240\nlevel 4 leaves 470\nlevel 5 leaves 5490\n",
        ),
        (
            &["--workers=0", "--demo=9999999999999999999", "--trees", "1"],
            "demo 9999999999999999999\nsteps 20\ncells 7777\nleaves 6913\nlow -955\nhigh 939\nlevel 0 leaves 0\nlevel 1 leaves 1\nlevel 2 leaves 27\nlevel 3 leaves 279\nlevel 4 leaves 450\nlevel 5 leaves 6156\n",
        ),
    ];
    for (words, want) in table {
        let left = run_with(&rt, words, PULSE, NOWHERE)?;
        assert_eq!(rt; left.out.bytes(), want.as_bytes());
        assert!(rt; left.outcome.answer == Answer::Done && left.outcome.status == 0);
        assert!(rt; left.err.bytes().is_empty());
        assert_eq!(rt; left.input.left(), PULSE.as_bytes());
    }
    Ok(())
}

#[test]
fn a_write_of_a_summary_fails(rt: HostRuntime) -> Result<(), Fail> {
    let failing = Failing {
        out: Some(1),
        ..NOWHERE
    };
    let left = run_with(&rt, &["--demo", "0"], "", failing)?;
    assert_eq!(rt; left.outcome.status, 7);
    assert_eq!(rt; left.err.bytes(), "write fault after 10 bytes\n".as_bytes());
    assert_eq!(rt; left.out.bytes(), "demo 0\nste".as_bytes());
    Ok(())
}

#[test]
fn faults_are_told(rt: HostRuntime) -> Result<(), Fail> {
    let read = |call| Failing {
        input: Some(call),
        ..NOWHERE
    };
    let write = |call| Failing {
        out: Some(call),
        ..NOWHERE
    };
    let table = [
        (read(0), 3, "read fault\n", ""),
        (read(1), 3, "read fault\n", ""),
        (write(0), 7, "write fault after 0 bytes\n", ""),
        (write(1), 7, "write fault after 10 bytes\n", "step 0 lea"),
        (
            write(2),
            7,
            "write fault after 20 bytes\n",
            "step 0 leaves 1\n0 0 ",
        ),
    ];
    for (failing, status, text, written) in table {
        let left = run_with(&rt, &[], SINGLE_CELL, failing)?;
        assert_eq!(rt; left.outcome.status, status, "{text}");
        assert_eq!(rt; left.err.bytes(), text.as_bytes(), "{text}");
        assert_eq!(rt; left.out.bytes(), written.as_bytes(), "{text}");
    }
    let untold = Failing {
        err: Some(0),
        ..NOWHERE
    };
    let left = run_with(&rt, &["--demo"], SINGLE_CELL, untold)?;
    assert!(rt; left.outcome.status == 2 && left.err.bytes().is_empty());
    Ok(())
}

// A file, then a comment that fills it up to a length.
fn filled(alloc: Global, file: &str, length: usize) -> Result<Vec<u8>, AllocError> {
    let mut bytes = file.as_bytes().to_vec(alloc)?;
    bytes.push(b'#')?;
    for _ in bytes.len()..length {
        bytes.push(b'-')?;
    }
    Ok(bytes)
}

#[test]
fn an_input_is_a_megabyte_at_most(rt: HostRuntime) -> Result<(), Fail> {
    let alloc = rt.alloc();
    let cell = "step 0 leaves 1\n0 0 0 7\n";
    for (file, length, status, report, text) in [
        (SINGLE_CELL, 1_048_576usize, 0u8, cell, ""),
        (
            SINGLE_CELL,
            1_048_577,
            3,
            "",
            "input longer than 1048576 bytes\n",
        ),
        ("", 1_048_576, 4, "", "malformed 3 at dim\n"),
        ("", 1_048_577, 3, "", "input longer than 1048576 bytes\n"),
    ] {
        let mut input = MemSource::new(filled(alloc, file, length)?, Vec::new(alloc));
        let mut out = MemSink::new(alloc, 100, 10, Vec::new(alloc))?;
        let mut err = MemSink::new(alloc, 100, 100, Vec::new(alloc))?;
        let outcome = run(&rt, alloc, &[], &mut input, &mut out, &mut err, &Through);
        assert_eq!(rt; outcome.status, status);
        assert_eq!(rt; out.bytes(), report.as_bytes());
        assert_eq!(rt; err.bytes(), text.as_bytes());
    }
    Ok(())
}

#[test]
fn the_world_that_ran_is_left(rt: HostRuntime) -> Result<(), Fail> {
    // The words, the file, and of the world that is left its step, whether it is live, and how many notes it has.
    let table: [(&[&str], &str, Option<(u32, bool, usize)>); 9] = [
        (&[], SINGLE_CELL, Some((0, true, 2))),
        (&["--trees", "2"], PULSE, Some((1, true, 8))),
        (&[], MERGES, Some((1, true, 5))),
        (&["--show", "traffic"], WAVE, Some((2, true, 7))),
        (&["--demo", "1", "--trees", "2"], "", Some((20, true, 124))),
        (&["--trees", "3"], OVERFLOWS, Some((0, false, 9))),
        (&[], CROWDED, Some((0, false, 3))),
        (&[], TOO_MANY_LINES, Some((8, true, 25))),
        (&[], TOO_MANY_CELLS, None),
    ];
    for (words, file, want) in table {
        let left = run_with(&rt, words, file, NOWHERE)?;
        let notes = left.outcome.notes().len();
        let got = left
            .outcome
            .world
            .as_ref()
            .map(|world| (world.step(), world.is_live(), notes));
        assert_eq!(rt; got, want, "{file}");
    }
    Ok(())
}
