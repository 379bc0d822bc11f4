//! The report of a file, from its bytes.
ghost use Rattle.std.specs.Prelude.{◌≤◌, IfOk, IfErr, length};
ghost use Rattle.peano_run.specs.Asked.{IsCrew};
ghost use Rattle.peano_run.specs.Run.{EndsAtReport, EndsBy};

use crate::answer::Answer;
use crate::asked::Request;
use crate::course::{Course, run_plan};
use crate::ending::Ending;
use crate::refused::Refused;
use grid_file::{PlanFault, read_plan};
use std::alloc::Global;
use std::thread::Threads;
use task_pool::Gate;

// The course to the report of a file that is not too long, or the answer that stands in its place.
pub(crate) fn report<R: Threads + Sync, G: Gate>(
    rt: &R,
    alloc: Global,
    bytes: &[u8],
    request: Request,
    gate: &G,
) -> Result<Course, Ending>
    requires size { length bytes.now ≤ 1048576 }
    requires crew { IsCrew request.trees request.workers }
    ensures ok { IfOk result (EndsAtReport request bytes.now) }
    ensures err { IfErr result (λ ending. EndsBy request ending bytes.now) }
{
    let plan = match read_plan(alloc, bytes) {
        Ok(plan) => plan,
        Err(PlanFault::Malformed(fault)) => {
            return Err(Ending::of(Answer::Malformed {
                code: fault.code,
                place: fault.place,
            }));
        }
        Err(PlanFault::NoMemory) => return Err(Ending::of(Answer::NoMemory)),
    };
    let dim = plan.shape.dim;
    match run_plan(rt, alloc, &plan, request, gate) {
        Ok(course) => Ok(course),
        Err(Refused { answer, world }) => Err(Ending { dim, answer, world }),
    }
}
