//! The course of a run: from the opening grid and field through the steps of a plan, with the report so far.
ghost use Rattle.std.specs.Prelude.{◌≡◌, ◌+◌, ◌<◌, ◌≤◌, ◌++◌, [], ℕ, true, if◌then◌else◌, IfOk, IfErr, OnOk};
ghost use Rattle.peano_keys.specs.Grid.{Spacetree};
ghost use Rattle.peano_keys.specs.Field.{States};
ghost use Rattle.step_driver.specs.Worlds.{IsAt};
ghost use Rattle.field_report.specs.Block.{field_block};
ghost use Rattle.field_report.specs.Traffic.{traffic_block};
ghost use Rattle.grid_file.specs.Plan.{printed};
ghost use Rattle.grid_file.specs.Valid.{IsPlan};
ghost use Rattle.peano_run.specs.Asked.{IsCrew};
ghost use Rattle.peano_run.specs.Report.{Moment, most_lines, shows_fields, shows_traffic};
ghost use Rattle.peano_run.specs.Course.{IsCourse, IsStopped, IsUnderWay, IsShowing, StandsUnshown, CountsLines};

use crate::answer::{Answer, LimitKind};
use crate::asked::Request;
use crate::begin::begin;
use crate::refused::Refused;
use command_line::ShowWhat;
use field_report::{field_text, traffic_text};
use grid_file::{Plan, is_printed};
use peano_keys::Dim;
use spacetree::{BuildFault, Grid, MOST_CELLS};
use std::alloc::{AllocError, Global};
use std::thread::Threads;
use step_driver::{Shown, StepFault, World};
use task_pool::Gate;
use volume_solver::AnySolver;

// The most leaf lines of a report.
const MOST_LINES: u64 = 500_000;

// Where a run stands after a step: its world, and the report so far with the number of its leaf lines.
#[derive(Drop)]
pub(crate) struct Course {
    pub world: World<AnySolver>,
    pub text: Vec<u8>,
    pub lines: u64,
}

// Whether fields are shown.
fn shows_fields(show: ShowWhat) -> bool
    ensures { result ≡ shows_fields show }
{
    match show {
        ShowWhat::Fields | ShowWhat::All => true,
        ShowWhat::Traffic => false,
    }
}

// Whether traffic is shown.
fn shows_traffic(show: ShowWhat) -> bool
    ensures { result ≡ shows_traffic show }
{
    match show {
        ShowWhat::Traffic | ShowWhat::All => true,
        ShowWhat::Fields => false,
    }
}

// How many leaf lines the report has with those of a printed step, if they are not too many.
fn counted(request: Request, course: &Course) -> Option<u64>
    requires { course.now.lines ≤ most_lines }
    ensures { (parts n : ℕ) (g : Spacetree) (f : States) → IsAt parts course.now.world g f n
        → CountsLines request course.now.lines f result }
{
    if !shows_fields(request.show) {
        return Some(course.lines);
    }
    let leaves = course.world.leaf_count();
    if leaves > MOST_LINES - course.lines {
        None
    } else {
        Some(course.lines + leaves)
    }
}

// Adds the field block of what is shown, where fields are.
fn add_fields(
    alloc: Global,
    dim: Dim,
    request: Request,
    shown: &Shown,
    text: &mut Vec<u8>,
) -> Result<(), AllocError>
    ensures { OnOk result
        (text.new.items
        ≡ text.old.items
        ++ (if shows_fields request.show
        then field_block dim shown.now.step shown.now.rows.items else [])) }
{
    if !shows_fields(request.show) {
        return Ok(());
    }
    let block = field_text(alloc, dim, shown.step, shown.rows.as_slice())?;
    text.extend_from_slice(block.as_slice())
}

// Adds the traffic block of what is shown, where traffic is.
fn add_traffic(
    alloc: Global,
    request: Request,
    shown: &Shown,
    text: &mut Vec<u8>,
) -> Result<(), AllocError>
    ensures { OnOk result
        (text.new.items
        ≡ text.old.items
        ++ (if shows_traffic request.show
        then traffic_block shown.now.step shown.now.traffic.items else [])) }
{
    if !shows_traffic(request.show) {
        return Ok(());
    }
    let block = traffic_text(alloc, shown.step, shown.traffic.as_slice())?;
    text.extend_from_slice(block.as_slice())
}

// Adds what a printed step shows.
fn print<R: Threads + Sync>(
    rt: &R,
    alloc: Global,
    plan: &Plan,
    request: Request,
    mut course: Course,
) -> Result<Course, Refused>
    requires way { IsUnderWay plan.now course.world.step course }
    requires lines { course.lines ≤ most_lines }
    requires printed { printed plan.now course.world.step ≡ true }
    ensures { (m : Moment) → StandsUnshown request plan.now course.world.step course m
        → IsShowing request plan.now course.world.step m result }
{
    let Some(lines) = counted(request, &course) else {
        let answer = Answer::Limit {
            which: LimitKind::Lines,
            number: MOST_LINES,
        };
        return Err(Refused::with(answer, course.world));
    };
    let shown = course.world.show(rt, alloc)?;
    add_fields(alloc, plan.shape.dim, request, &shown, &mut course.text)?;
    add_traffic(alloc, request, &shown, &mut course.text)?;
    course.lines = lines;
    Ok(course)
}

// Adds what a step shows, where it is printed.
fn show<R: Threads + Sync>(
    rt: &R,
    alloc: Global,
    plan: &Plan,
    request: Request,
    step: u32,
    course: Course,
) -> Result<Course, Refused>
    requires way { IsUnderWay plan.now step course }
    requires lines { course.lines ≤ most_lines }
    ensures { (m : Moment) → StandsUnshown request plan.now step course m
        → IsShowing request plan.now step m result }
{
    if is_printed(plan, step) {
        print(rt, alloc, plan, request, course)
    } else {
        Ok(course)
    }
}

// The opening of a plan's run.
fn opened<R: Threads + Sync>(
    rt: &R,
    alloc: Global,
    plan: &Plan,
    request: Request,
) -> Result<Course, Refused>
    requires plan { IsPlan plan.now }
    requires crew { IsCrew request.trees request.workers }
    ensures ok { IfOk result (IsCourse request plan.now 0) }
    ensures err { IfErr result (IsStopped request plan.now) }
{
    let grid = match Grid::build(alloc, &plan.shape) {
        Ok(grid) => grid,
        Err(BuildFault::TooMany) => {
            return Err(Refused::at_once(Answer::Limit {
                which: LimitKind::Cells,
                number: MOST_CELLS,
            }));
        }
        Err(BuildFault::NoMemory) => return Err(Refused::at_once(Answer::NoMemory)),
    };
    let course = Course {
        world: begin(rt, alloc, plan, &grid, request.trees)?,
        text: Vec::new(alloc),
        lines: 0,
    };
    show(rt, alloc, plan, request, 0, course)
}

// One step more.
fn stepped<R: Threads + Sync, G: Gate>(
    rt: &R,
    alloc: Global,
    plan: &Plan,
    request: Request,
    step: u32,
    mut course: Course,
    gate: &G,
) -> Result<Course, Refused>
    requires plan { IsPlan plan.now }
    requires course { IsCourse request plan.now step course }
    requires more { step < plan.now.steps }
    requires workers { request.workers ≤ 16 }
    ensures ok { IfOk result (IsCourse request plan.now (step + 1)) }
    ensures err { IfErr result (IsStopped request plan.now) }
{
    match course.world.advance(rt, alloc, request.workers, gate) {
        Ok(()) => show(rt, alloc, plan, request, step + 1, course),
        Err(StepFault::Overflow { step, key }) => {
            Err(Refused::with(Answer::Overflow { step, key }, course.world))
        }
        Err(StepFault::Crowded { step, cells }) => {
            Err(Refused::with(Answer::Crowded { step, cells }, course.world))
        }
        Err(StepFault::NoMemory) => Err(Refused::at_once(Answer::NoMemory)),
    }
}

// The course of a plan to its end.
pub(crate) fn run_plan<R: Threads + Sync, G: Gate>(
    rt: &R,
    alloc: Global,
    plan: &Plan,
    request: Request,
    gate: &G,
) -> Result<Course, Refused>
    requires plan { IsPlan plan.now }
    requires crew { IsCrew request.trees request.workers }
    ensures ok { IfOk result (IsCourse request plan.now plan.now.steps) }
    ensures err { IfErr result (IsStopped request plan.now) }
{
    let mut course = opened(rt, alloc, plan, request)?;
    for step in 0..plan.steps {
        course = stepped(rt, alloc, plan, request, step, course, gate)?;
    }
    Ok(course)
}
