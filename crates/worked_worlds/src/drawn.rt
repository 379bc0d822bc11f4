//! Small files by a generator with a fixed seed: worlds of several trees are where the evaluation is.
ghost use Rattle.std.specs.Prelude.{◌<◌, ◌≤◌};

use crate::beside::{compare, compare_last};
use crate::files::with_recuts;
use spacetree::EvalFault;
use std::alloc::{AllocError, Global};

// How many files are drawn.
const FILES: u32 = 12;

// How many of them with trees that are cut anew.
const RECUT_FILES: u32 = 8;

const TREES: [u32; 4] = [1, 2, 5, 64];

// How many cells of a level lie on an axis.
const EXTENTS: [u32; 4] = [1, 3, 9, 27];

// The divisors of the solvers.
const DIVISORS: [u32; 4] = [3, 90, 7_290, 1_000_000];

// What a file has of: axes, levels, and values in a state.
#[derive(Clone, Copy)]
struct Form {
    axes: u32,
    depth: u32,
    values: u32,
}

// The next random number, below a bound.
fn drawn(seed: &mut u32, bound: u32) -> u32
    requires { 0 < bound }
    ensures { result < bound }
{
    *seed = seed.wrapping_mul(1_664_525).wrapping_add(1_013_904_223);
    (*seed >> 8) % bound
}

// A random number of at most a thousand units on either side of 0.
fn drawn_value(seed: &mut u32, unit: i64) -> i64 {
    (i64::from(drawn(seed, 2_001)) - 1_000).saturating_mul(unit)
}

// Some cells beside each other, of so many on an axis.
fn drawn_span(seed: &mut u32, extent: u32) -> (u32, u32)
    requires { 0 < extent }
{
    let from = drawn(seed, extent);
    (from, from + 1 + drawn(seed, extent - from))
}

// Appends a key with a list of two or three numbers.
fn push_places(
    text: &mut String,
    key: &str,
    axes: u32,
    places: [u32; 3],
) -> Result<(), AllocError> {
    let [first, second, third] = places;
    if axes == 2 {
        writeln!(text, "{key} = [{first}, {second}]")
    } else {
        writeln!(text, "{key} = [{first}, {second}, {third}]")
    }
}

// Appends a key with a list of one to three values.
fn push_values(
    text: &mut String,
    seed: &mut u32,
    key: &str,
    count: u32,
    unit: i64,
) -> Result<(), AllocError> {
    let first = drawn_value(seed, unit);
    write!(text, "{key} = [{first}")?;
    for _ in 1..count {
        let next = drawn_value(seed, unit);
        write!(text, ", {next}")?;
    }
    writeln!(text, "]")
}

// Appends a box of a level that the file has.
fn push_box(text: &mut String, seed: &mut u32, form: Form) -> Result<(), AllocError>
    requires { form.depth ≤ 3 }
{
    let level = drawn(seed, form.depth + 1);
    let extent = EXTENTS[level as usize];
    let first = drawn_span(seed, extent);
    let second = drawn_span(seed, extent);
    let third = drawn_span(seed, extent);
    writeln!(text, "level = {level}")?;
    push_places(text, "from", form.axes, [first.0, second.0, third.0])?;
    push_places(text, "to", form.axes, [first.1, second.1, third.1])
}

// Appends the solver that the file names, with its numbers.
fn push_solver(
    text: &mut String,
    seed: &mut u32,
    form: Form,
    choice: u32,
) -> Result<(), AllocError> {
    let divisor = DIVISORS[drawn(seed, 4) as usize];
    let factor = drawn(seed, 4);
    writeln!(text, "b = {divisor}")?;
    match choice {
        0 => writeln!(text, "solver = 'wave'\na = {factor}"),
        1 => writeln!(text, "solver = 'diffuse'\na = {factor}"),
        _ => {
            writeln!(text, "solver = 'advect'")?;
            push_values(text, seed, "wind", form.axes, 1)
        }
    }
}

// Appends what is at the edge, and a criterion where there is one.
fn push_rules(text: &mut String, seed: &mut u32, form: Form) -> Result<(), AllocError> {
    if drawn(seed, 2) == 0 {
        writeln!(text, "edge = 'fixed'")?;
        push_values(text, seed, "edge_value", form.values, 1)?;
    }
    if drawn(seed, 4) > 0 {
        let hi = 1 + drawn(seed, 1_000);
        let lo = drawn(seed, hi);
        let watch = drawn(seed, form.values.max(1));
        writeln!(text, "[criterion]\nhi = {hi}\nlo = {lo}\nwatch = {watch}")?;
    }
    Ok(())
}

// Appends boxes that are filled, and boxes that are refined.
fn push_boxes(text: &mut String, seed: &mut u32, form: Form) -> Result<(), AllocError>
    requires least { 0 < form.depth }
    requires most { form.depth ≤ 3 }
{
    // Large values may overflow.
    let unit = if drawn(seed, 4) == 0 {
        1_000_000_000_000_000
    } else {
        1
    };
    for _ in 0..3 {
        writeln!(text, "[[fill]]")?;
        push_box(text, seed, form)?;
        push_values(text, seed, "value", form.values, unit)?;
    }
    for _ in 0..2 {
        writeln!(text, "[[refine]]")?;
        push_box(text, seed, form)?;
        let until = 1 + drawn(seed, form.depth);
        writeln!(text, "until = {until}")?;
    }
    Ok(())
}

// A random file.
fn drawn_file(alloc: Global, seed: &mut u32) -> Result<String, AllocError> {
    let choice = drawn(seed, 3);
    let values = if choice == 0 { 2 } else { 1 };
    let (axes, depth) = if drawn(seed, 2) == 0 {
        (2, 1 + drawn(seed, 3))
    } else {
        (3, 1 + drawn(seed, 2))
    };
    let form = Form {
        axes,
        depth,
        values,
    };
    let mut text = String::new(alloc);
    let base = drawn(seed, depth);
    let steps = 1 + drawn(seed, 5);
    writeln!(
        text,
        "dim = {axes}\ndepth = {depth}\nbase = {base}\nsteps = {steps}"
    )?;
    push_solver(&mut text, seed, form, choice)?;
    push_rules(&mut text, seed, form)?;
    push_boxes(&mut text, seed, form)?;
    Ok(text)
}

// In some of them the grid changes, and some are refused.
#[test]
fn worlds_of_drawn_files_are_where_the_evaluation_is(rt: HostRuntime) -> Result<(), AllocError> {
    let alloc = rt.alloc();
    let mut seed = 7;
    let mut changed: u32 = 0;
    let mut refused: u32 = 0;
    for _ in 0..FILES {
        let file = drawn_file(alloc, &mut seed)?;
        compare_last(&rt, alloc, file.as_str(), &[2, 5], &[2])?;
        match compare(&rt, alloc, file.as_str(), &TREES, &[0]) {
            Ok((first, last)) if first == last => {}
            Ok(_) => changed = changed.saturating_add(1),
            Err(EvalFault::NoMemory) => return Err(AllocError),
            Err(_) => refused = refused.saturating_add(1),
        }
    }
    assert!(rt; changed >= 3, "{changed} changed");
    assert!(rt; refused >= 1, "{refused} refused");
    Ok(())
}

// Trees that are cut anew after every so many steps change no field and no refusal.
#[test]
fn drawn_worlds_that_are_cut_anew_are_where_the_evaluation_is(
    rt: HostRuntime,
) -> Result<(), AllocError> {
    let alloc = rt.alloc();
    let mut seed = 11;
    let mut changed: u32 = 0;
    for _ in 0..RECUT_FILES {
        let every = 1 + drawn(&mut seed, 3);
        let plain = drawn_file(alloc, &mut seed)?;
        let file = with_recuts(alloc, plain.as_str(), Some(every))?;
        match compare(&rt, alloc, file.as_str(), &[2, 7], &[0]) {
            Ok((first, last)) if first == last => {}
            Ok(_) => changed = changed.saturating_add(1),
            Err(EvalFault::NoMemory) => return Err(AllocError),
            Err(_) => {}
        }
    }
    assert!(rt; changed >= 3, "{changed} changed");
    Ok(())
}
