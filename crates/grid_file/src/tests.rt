//! Refusals and plans of whole files, printed steps, and texts of places.
use crate::{KeyName, Malformed, Part, Place, PlanFault, is_printed, place_text, read_plan};
use peano_keys::{Dim, State};
use solver_api::Solver;
use spacetree::{Fill, Zone};
use std::alloc::{AllocError, Global};
use std::process::Abort;
use std::test::Fail;
use volume_solver::AnySolver;

// A pulse in the centre of nine cells.
const PULSE: &str =
    "dim = 2\ndepth = 1\nbase = 1\nsolver = \"diffuse\"\na = 1\nb = 90\nsteps = 1\n[[fill]]\nlevel = 1\nfrom = [1, 1]\nto = [2, 2]\nvalue = [100]\n";

const HEAD: &str = "dim = 2\ndepth = 1\nbase = 1\nsolver = \"diffuse\"\na = 1\nb = 90\nsteps = 1\n";

const INFLOW: &str =
    "dim = 2\ndepth = 2\nbase = 1\nsolver = \"advect\"\nwind = [1, -7]\nb = 3\nedge = \"fixed\"\nedge_value = [100]\nsteps = 3\nprint_every = 2\n[criterion]\nhi = 50\nlo = 1\n[[refine]]\nlevel = 1\nfrom = [1, 1]\nto = [2, 2]\nuntil = 2\n";

const WAVE: &str =
    "dim = 3\ndepth = 1\nbase = 1\nsolver = \"wave\"\na = 1\nb = 90\nsteps = 1\n[[fill]]\nlevel = 1\nfrom = [1, 0, 2]\nto = [2, 1, 3]\nvalue = [600, -5]\n";

const DEEP: &str =
    "version = 2\ndim = 2\ndepth = 12\nbase = 0\nsolver = \"diffuse\"\na = 0\nb = 1\nsteps = 9\nrecut_every = 4\n[[refine]]\nlevel = 12\nfrom = [265720, 265720]\nto = [265721, 265721]\nuntil = 12\n";

// The pulse with one piece of its text changed.
fn changed(alloc: Global, old: &str, new: &str) -> Result<String, AllocError> {
    let mut text = String::new(alloc);
    match PULSE.split_once(old) {
        None => text.push_str(old)?,
        Some((before, after)) => {
            text.push_str(before)?;
            text.push_str(new)?;
            text.push_str(after)?;
        }
    }
    Ok(text)
}

// What a file gives: its refusal, or nothing.
fn said(alloc: Global, text: &[u8]) -> Result<String, AllocError> {
    let mut said = String::new(alloc);
    if let Err(PlanFault::Malformed(Malformed { code, place })) = read_plan(alloc, text) {
        let at = place_text(&place);
        let at = str::from_utf8(at.as_slice()).unwrap_or("no text");
        said = format!(in alloc; "{code} at {at}")?;
    }
    Ok(said)
}

// The pulse with each of these pieces of text changed, and how it is refused.
fn expect_refused(
    rt: &impl Abort,
    alloc: Global,
    rows: &[(&str, &str, &str)],
) -> Result<(), AllocError> {
    for (old, new, want) in rows {
        let text = changed(alloc, old, new)?;
        let said = said(alloc, text.as_bytes())?;
        assert_eq!(rt; said.as_str(), *want, "with {new}");
    }
    Ok(())
}

#[test]
fn no_document(rt: HostRuntime) -> Result<(), Fail> {
    let alloc = rt.alloc();
    assert_eq!(rt; said(alloc, b"\xff\xfe")?.as_str(), "1 at document");
    assert_eq!(rt; said(alloc, b"")?.as_str(), "3 at dim");
    let rows = [
        ("steps = 1\n", "steps = 1\ndim = 2\n", "1 at document"),
        ("100", "9223372036854775808", "1 at document"),
    ];
    expect_refused(&rt, alloc, &rows)?;
    Ok(())
}

#[test]
fn changed_values_of_the_document(rt: HostRuntime) -> Result<(), Fail> {
    let rows = [
        ("dim = 2\n", "size = 3\n", "2 at document"),
        ("b = 90\nsteps = 1\n", "", "3 at b"),
        ("dim = 2", "dim = \"2\"", "4 at dim"),
        ("dim = 2", "dim = 2.0", "4 at dim"),
        ("dim = 2", "dim = true", "4 at dim"),
        ("dim = 2", "dim = 4\nprint_every = 0", "4 at dim"),
        ("depth = 1", "depth = 9", "5 at depth"),
        ("base = 1", "base = 2", "6 at base"),
        ("diffuse", "heat", "7 at solver"),
        ("a = 1\n", "", "7 at a"),
        ("a = 1\n", "version = 2\n", "7 at a"),
        ("a = 1\n", "a = 1000001\n", "8 at a"),
        ("b = 90", "b = 0", "8 at b"),
        ("b = 90", "b = 1000000000000000001", "8 at b"),
        ("steps = 1", "steps = -1", "13 at steps"),
        ("steps = 1", "steps = 10001", "13 at steps"),
    ];
    expect_refused(&rt, rt.alloc(), &rows)?;
    Ok(())
}

#[test]
fn keys_added_to_the_document(rt: HostRuntime) -> Result<(), Fail> {
    for (lines, want) in [
        ("size = 3\n", "2 at document"),
        ("wind = [1, 0]\n", "7 at wind"),
        ("wind = 5\n", "7 at wind"),
        ("version = 0\n", "8 at version"),
        ("version = 3\n", "8 at version"),
        ("version = 2.0\n", "8 at version"),
        ("criterion = 5\n", "9 at criterion"),
        ("[[criterion]]\nhi = 5\nlo = 1\n", "9 at criterion"),
        ("[criterion]\nhi = 5\n", "3 at criterion lo"),
        ("[criterion]\nhi = 5\nlo = 6\n", "9 at criterion lo"),
        ("[criterion]\nhi = 0\nlo = 0\n", "9 at criterion hi"),
        (
            "criterion = { hi = 5, lo = 5, watch = 1 }\n",
            "9 at criterion watch",
        ),
        ("edge = \"fixed\"\n", "12 at edge_value"),
        ("edge = 3\nedge_value = 5\n", "12 at edge"),
        ("edge_value = [0]\n", "12 at edge_value"),
        ("print_every = 0\n", "14 at print_every"),
        ("print_every = 10001\n", "14 at print_every"),
    ] {
        let alloc = rt.alloc();
        let more = format!(in alloc; "steps = 1\n{lines}")?;
        expect_refused(&rt, alloc, &[("steps = 1\n", more.as_str(), want)])?;
    }
    Ok(())
}

#[test]
fn refusals_by_version(rt: HostRuntime) -> Result<(), Fail> {
    for (depth, lines, want) in [
        (13, "version = 2\n", "5 at depth"),
        (9, "version = 1\n", "5 at depth"),
        (9, "version = 3\n", "5 at depth"),
        (1, "recut_every = 1\n", "2 at document"),
        (1, "version = 1\nrecut_every = 1\n", "2 at document"),
        (1, "version = 3\nrecut_every = 1\n", "2 at document"),
        (1, "version = 2\nrecut_every = 0\n", "15 at recut_every"),
        (1, "version = 2\nrecut_every = 10001\n", "15 at recut_every"),
        (1, "version = 2\nrecut_every = [1]\n", "15 at recut_every"),
        (
            1,
            "version = 2\nrecut_every = 0\nprint_every = 0\n",
            "14 at print_every",
        ),
        (
            12,
            "version = 2\nrefine = [{ level = 12, from = [0, 0], to = [531441, 1], until = 13 }]\n",
            "11 at refine 0 until",
        ),
        (
            12,
            "version = 2\nrefine = [{ level = 12, from = [0, 0], to = [531442, 1], until = 12 }]\n",
            "11 at refine 0 to",
        ),
    ] {
        let alloc = rt.alloc();
        let more = format!(in alloc; "depth = {depth}\n{lines}")?;
        expect_refused(&rt, alloc, &[("depth = 1\n", more.as_str(), want)])?;
    }
    let base = "version = 2\ndepth = 12\nbase = 13\n";
    let rows = [("depth = 1\nbase = 1\n", base, "6 at base")];
    expect_refused(&rt, rt.alloc(), &rows)?;
    Ok(())
}

#[test]
fn changed_values_of_a_fill(rt: HostRuntime) -> Result<(), Fail> {
    let rows = [
        ("value = [100]\n", "", "3 at fill 0 value"),
        ("[[fill]]", "[fill]", "10 at fill"),
        ("[[fill]]\n", "[[fill.x]]\n", "10 at fill"),
        ("level = 1", "level = 2", "10 at fill 0 level"),
        ("from = [1, 1]", "from = [1, 3]", "10 at fill 0 from"),
        ("from = [1, 1]", "from = [1, 1, 1]", "10 at fill 0 from"),
        ("to = [2, 2]", "to = [1, 2]", "10 at fill 0 to"),
        ("to = [2, 2]", "to = [2, 4]", "10 at fill 0 to"),
        ("value = [100]", "value = [100, 0]", "10 at fill 0 value"),
    ];
    expect_refused(&rt, rt.alloc(), &rows)?;
    Ok(())
}

#[test]
fn tables_added_to_a_list(rt: HostRuntime) -> Result<(), Fail> {
    let corners = "from = [1, 1]\nto = [2, 2]";
    for (table, rest, want) in [
        ("[fill.size]", "", "2 at fill 0"),
        ("[[fill]]", "", "3 at fill 1 value"),
        ("[[refine]]", "until = 2", "11 at refine 0 until"),
        ("[[refine]]", "until = 0", "11 at refine 0 until"),
        ("[[refine]]", "value = [1]", "2 at refine 0"),
    ] {
        let alloc = rt.alloc();
        let more = format!(in alloc; "[100]\n{table}\nlevel = 1\n{corners}\n{rest}\n")?;
        expect_refused(&rt, alloc, &[("[100]\n", more.as_str(), want)])?;
    }
    Ok(())
}

#[test]
fn other_spellings_and_limits_are_accepted(rt: HostRuntime) -> Result<(), Fail> {
    let alloc = rt.alloc();
    for (old, new) in [
        ("steps = 1\n", "steps = 10000\n"),
        ("steps = 1\n", "steps = 1\nprint_every = 10000\n"),
        ("steps = 1\n", "steps = 0\nversion = 1\n"),
        ("steps = 1\n", "steps = 0\nversion = 2\n"),
        (
            "steps = 1\n",
            "steps = 1\nrecut_every = 10000\nversion = 2\n",
        ),
        ("depth = 1\nbase = 1\n", "depth = 8\nbase = 8\n"),
        (
            "depth = 1\nbase = 1\n",
            "version = 2\ndepth = 12\nbase = 12\n",
        ),
        (
            "[[fill]]\nlevel = 1\nfrom = [1, 1]\nto = [2, 2]\nvalue = [100]\n",
            "fill = []\n",
        ),
        (
            "[[fill]]\nlevel = 1\nfrom = [1, 1]\nto = [2, 2]\nvalue = [100]\n",
            "fill = [{ level = 1, from = [0, 0], to = [3, 3], value = [-1] }]\n",
        ),
        ("dim = 2\n", "\"dim\" = 0x2\r\n"),
        ("a = 1\n", "a = +1_000_000\n"),
        ("b = 90\n", "b = 1000000000000000000\n"),
        ("100", "-9223372036854775808"),
    ] {
        let text = changed(alloc, old, new)?;
        assert!(rt; read_plan(alloc, text.as_bytes()).is_ok(), "with {new}");
    }
    Ok(())
}

#[test]
fn a_pulse_is_read(rt: HostRuntime) -> Result<(), Fail> {
    let alloc = rt.alloc();
    let plan = read_plan(alloc, PULSE.as_bytes())?;
    assert!(rt; plan.shape.dim == Dim::Two && plan.shape.depth == 1 && plan.shape.base == 1);
    assert_eq!(rt; plan.shape.zones.as_slice().len(), 0);
    let fill = Fill {
        level: 1,
        from: [1, 1, 0],
        to: [2, 2, 0],
        value: State::Single(100),
    };
    assert!(rt; plan.fills.as_slice() == [fill].as_slice());
    assert!(rt; matches!(plan.solver, AnySolver::Diffuse(_)) && !plan.solver.adapts());
    assert_eq!(rt; plan.steps, 1);
    assert_eq!(rt; plan.print_every, None);
    assert_eq!(rt; plan.recut_every, None);
    Ok(())
}

#[test]
fn a_pulse_of_the_second_version_is_read_alike(rt: HostRuntime) -> Result<(), Fail> {
    let alloc = rt.alloc();
    let first = read_plan(alloc, PULSE.as_bytes())?;
    let text = changed(alloc, "dim = 2\n", "version = 2\ndim = 2\n")?;
    let plan = read_plan(alloc, text.as_bytes())?;
    assert!(rt; plan.shape.dim == Dim::Two && plan.shape.depth == 1 && plan.shape.base == 1);
    assert_eq!(rt; plan.shape.zones.as_slice().len(), 0);
    assert!(rt; plan.fills.as_slice() == first.fills.as_slice());
    assert!(rt; matches!(plan.solver, AnySolver::Diffuse(_)) && !plan.solver.adapts());
    assert_eq!(rt; plan.steps, 1);
    assert_eq!(rt; plan.print_every, None);
    assert_eq!(rt; plan.recut_every, None);
    Ok(())
}

#[test]
fn a_deep_plan_of_the_second_version_is_read(rt: HostRuntime) -> Result<(), Fail> {
    let plan = read_plan(rt.alloc(), DEEP.as_bytes())?;
    let zone = Zone {
        level: 12,
        from: [265_720, 265_720, 0],
        to: [265_721, 265_721, 0],
        until: 12,
    };
    assert_eq!(rt; plan.shape.depth, 12);
    assert!(rt; plan.shape.zones.as_slice() == [zone].as_slice());
    assert_eq!(rt; plan.print_every, None);
    assert_eq!(rt; plan.recut_every, Some(4));
    Ok(())
}

#[test]
fn a_wind_with_a_criterion_is_read(rt: HostRuntime) -> Result<(), Fail> {
    let plan = read_plan(rt.alloc(), INFLOW.as_bytes())?;
    let zone = Zone {
        level: 1,
        from: [1, 1, 0],
        to: [2, 2, 0],
        until: 2,
    };
    assert!(rt; plan.shape.zones.as_slice() == [zone].as_slice());
    assert_eq!(rt; plan.fills.as_slice().len(), 0);
    assert!(rt; matches!(plan.solver, AnySolver::Advect(_)) && plan.solver.adapts());
    assert_eq!(rt; plan.solver.deepest(), 2);
    for (step, printed) in [
        (0, true),
        (1, false),
        (2, true),
        (3, true),
        (4, false),
        (6, false),
    ] {
        assert_eq!(rt; is_printed(&plan, step), printed, "step {step}");
    }
    Ok(())
}

#[test]
fn a_wave_in_space_is_read(rt: HostRuntime) -> Result<(), Fail> {
    let plan = read_plan(rt.alloc(), WAVE.as_bytes())?;
    let fill = Fill {
        level: 1,
        from: [1, 0, 2],
        to: [2, 1, 3],
        value: State::Pair(600, -5),
    };
    assert!(rt; plan.shape.dim == Dim::Three);
    assert!(rt; plan.fills.as_slice() == [fill].as_slice());
    assert!(rt; matches!(plan.solver, AnySolver::Wave(_)));
    assert_eq!(rt; plan.solver.parts(), 2);
    for (step, printed) in [(0, false), (1, true), (2, false)] {
        assert_eq!(rt; is_printed(&plan, step), printed, "step {step}");
    }
    Ok(())
}

// The head of the pulse, then a table as often as said, then a comment that fills the text up to a length.
fn repeated(alloc: Global, table: &str, times: u32, length: usize) -> Result<String, AllocError> {
    let mut text = String::from_str(alloc, HEAD)?;
    for _ in 0..times {
        text.push_str(table)?;
    }
    text.push_str("#")?;
    for _ in text.len()..length {
        text.push_str("-")?;
    }
    Ok(text)
}

#[test]
fn a_thousand_boxes_are_the_most(rt: HostRuntime) -> Result<(), Fail> {
    let alloc = rt.alloc();
    let fill = "[[fill]]\nlevel = 1\nfrom = [1, 1]\nto = [2, 2]\nvalue = [100]\n";
    let zone = "[[refine]]\nlevel = 1\nfrom = [1, 1]\nto = [2, 2]\nuntil = 1\n";
    let text = repeated(alloc, fill, 1000, 1_048_576)?;
    assert_eq!(rt;
        read_plan(alloc, text.as_bytes())?.fills.as_slice().len(),
        1000
    );
    let text = repeated(alloc, fill, 1001, 0)?;
    assert_eq!(rt; said(alloc, text.as_bytes())?.as_str(), "10 at fill");
    let text = repeated(alloc, zone, 1001, 0)?;
    assert_eq!(rt; said(alloc, text.as_bytes())?.as_str(), "11 at refine");
    Ok(())
}

#[test]
fn places_have_texts(rt: HostRuntime) {
    for (part, index, key, want) in [
        (Part::Document, 0, KeyName::Whole, "document"),
        (Part::Document, 0, KeyName::EdgeValue, "edge_value"),
        (Part::Document, 0, KeyName::PrintEvery, "print_every"),
        (Part::Document, 0, KeyName::RecutEvery, "recut_every"),
        (Part::Criterion, 0, KeyName::Whole, "criterion"),
        (Part::Criterion, 0, KeyName::Hi, "criterion hi"),
        (Part::FillList, 0, KeyName::Whole, "fill"),
        (Part::FillList, 0, KeyName::Level, "fill"),
        (Part::Fill, 2, KeyName::Whole, "fill 2"),
        (Part::Fill, 2, KeyName::Value, "fill 2 value"),
        (Part::RefineList, 7, KeyName::Whole, "refine"),
        (Part::Refine, 999, KeyName::Until, "refine 999 until"),
        (
            Part::Refine,
            4_294_967_295,
            KeyName::PrintEvery,
            "refine 4294967295 print_every",
        ),
    ] {
        let text = place_text(&Place { part, index, key });
        assert_eq!(rt; text.as_slice(), want.as_bytes(), "{want}");
    }
}
