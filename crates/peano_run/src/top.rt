//! The top call.
ghost use Rattle.std.specs.Prelude.{◌≡◌, ◌≢◌, ◌⊎◌, None, false, map, string_bytes};
ghost use Rattle.peano_run.specs.Texts.{status_of};
ghost use Rattle.peano_run.specs.declared.asked.Asked.{Asked};
ghost use Rattle.peano_run.specs.declared.asked.Asked.TheVariants.{File};
ghost use Rattle.peano_run.specs.declared.asked.Request.{Request};
ghost use Rattle.peano_run.specs.Asked.{Asks, AreRefused, AskForNoFile, HasCrew, IsCrew};
ghost use Rattle.peano_run.specs.Run.{WritesNothing, ReadFaultRose, WriteFaultRose, Reports, NamesIn, Tells, TellsAnswer};
ghost use Rattle.peano_run.specs.Left.{LeavesBy, leaves_world};
ghost use Rattle.peano_run.specs.Served.{Leaves, ReportsFile, Serves};

use crate::answer::{Answer, Outcome};
use crate::asked::{Asked, Request, asked_in};
use crate::course::Course;
use crate::demo::demonstrated;
use crate::ending::Ending;
use crate::report::report;
use crate::text::refusal_text;
use command_line::WordsFault;
use peano_io::{ReadAllFault, Sink, Source, read_all, write_whole};
use std::alloc::Global;
use std::thread::Threads;
use task_pool::Gate;

// The longest input that is read.
const LONGEST_INPUT: u64 = 1_048_576;

// Reads the source to its end and makes the report of what it had.
fn report_of<R: Threads + Sync, S: Source, G: Gate>(
    rt: &R,
    alloc: Global,
    input: &mut S,
    request: Request,
    gate: &G,
) -> Result<Course, Ending>
    requires fresh { S.ended input.old ≡ false }
    requires crew { IsCrew request.trees request.workers }
    ensures { Reports request (S.left input.old) (S.left input.new) (S.ended input.new)
        (S.faults input.old) (S.faults input.new) result }
{
    match read_all(alloc, input, LONGEST_INPUT) {
        Ok(bytes) => report(rt, alloc, bytes.as_slice(), request, gate),
        Err(ReadAllFault::ReadFault) => Err(Ending::of(Answer::ReadFault)),
        Err(ReadAllFault::TooLong) => Err(Ending::of(Answer::TooLong)),
        Err(ReadAllFault::NoMemory) => Err(Ending::of(Answer::NoMemory)),
    }
}

// Reads the input, and writes its report.
fn reported<R: Threads + Sync, S: Source, K: Sink, G: Gate>(
    rt: &R,
    alloc: Global,
    request: Request,
    input: &mut S,
    out: &mut K,
    gate: &G,
) -> Ending
    requires fresh { S.ended input.old ≡ false }
    requires crew { IsCrew request.trees request.workers }
    ensures served { result.answer ≢ Answer.Usage }
    ensures reports { ReportsFile request result.answer (S.left input.old) (S.left input.new)
        (S.ended input.new) (K.taken out.old) (K.taken out.new) }
    ensures world { LeavesBy request result.answer (S.left input.old) result.world }
    ensures nothing { WritesNothing result.answer out.old out.new }
    ensures read_fault { ReadFaultRose result.answer (S.faults input.old) (S.faults input.new) }
    ensures write_fault { WriteFaultRose result.answer (K.faults out.old) (K.faults out.new) }
    ensures named { NamesIn result.dim result.answer (S.left input.old) }
{
    let course = match report_of(rt, alloc, input, request, gate) {
        Ok(course) => course,
        Err(ending) => return ending,
    };
    match write_whole(out, course.text.as_slice()) {
        Ok(()) => Ending::with(Answer::Done, course.world),
        Err(fault) => Ending::with(
            Answer::WriteFault {
                written: fault.written,
            },
            course.world,
        ),
    }
}

// Does what is asked for: the demonstration of a number, or the report of the input.
fn served<R: Threads + Sync, S: Source, K: Sink, G: Gate>(
    rt: &R,
    alloc: Global,
    asked: Asked,
    input: &mut S,
    out: &mut K,
    gate: &G,
) -> Ending
    requires fresh { S.ended input.old ≡ false }
    requires crew { HasCrew asked }
    ensures served { result.answer ≢ Answer.Usage }
    ensures unread { ((r : Request) → asked ≢ File r) → input.new ≡ input.old }
    ensures serves { Serves asked result.answer (S.left input.old) (S.left input.new)
        (S.ended input.new) (K.taken out.old) (K.taken out.new) }
    ensures world { Leaves asked result.answer (S.left input.old) result.world }
    ensures nothing { WritesNothing result.answer out.old out.new }
    ensures read_fault { ReadFaultRose result.answer (S.faults input.old) (S.faults input.new) }
    ensures write_fault { WriteFaultRose result.answer (K.faults out.old) (K.faults out.new) }
    ensures named { NamesIn result.dim result.answer (S.left input.old) }
{
    match asked {
        Asked::Demo {
            number,
            trees,
            workers,
        } => demonstrated(rt, alloc, number, trees, workers, out, gate),
        Asked::File(request) => reported(rt, alloc, request, input, out, gate),
    }
}

// Reads the words, and does what they ask for.
fn ended<R: Threads + Sync, S: Source, K: Sink, G: Gate>(
    rt: &R,
    alloc: Global,
    words: &[String],
    input: &mut S,
    out: &mut K,
    gate: &G,
) -> Ending
    requires { S.ended input.old ≡ false }
    ensures usage { result.answer ≡ Answer.Usage → AreRefused (map string_bytes words.now) }
    ensures refused { AreRefused (map string_bytes words.now)
        → (result.answer ≡ Answer.Usage) ⊎ (result.answer ≡ Answer.NoMemory) }
    ensures unread { AskForNoFile (map string_bytes words.now) → input.new ≡ input.old }
    ensures serves { (asked : Asked) → Asks (map string_bytes words.now) asked
        → Serves asked result.answer (S.left input.old) (S.left input.new) (S.ended input.new)
        (K.taken out.old) (K.taken out.new) }
    ensures world { (asked : Asked) → Asks (map string_bytes words.now) asked
        → Leaves asked result.answer (S.left input.old) result.world }
    ensures no_world { leaves_world result.answer ≡ false → result.world ≡ None }
    ensures nothing { WritesNothing result.answer out.old out.new }
    ensures read_fault { ReadFaultRose result.answer (S.faults input.old) (S.faults input.new) }
    ensures write_fault { WriteFaultRose result.answer (K.faults out.old) (K.faults out.new) }
    ensures named { NamesIn result.dim result.answer (S.left input.old) }
{
    match asked_in(alloc, words) {
        Ok(asked) => served(rt, alloc, asked, input, out, gate),
        Err(WordsFault::Usage) => Ending::of(Answer::Usage),
        Err(WordsFault::NoMemory) => Ending::of(Answer::NoMemory),
    }
}

// Writes a text as far as the sink takes it.
fn tell<E: Sink>(err: &mut E, text: &[u8])
    ensures { Tells text.now (E.taken err.old) (E.taken err.new) (E.faults err.old)
        (E.faults err.new) }
{
    match write_whole(err, text) {
        Ok(()) => {}
        Err(_) => {}
    }
}

/// Reads a file from `input`, takes the steps that it asks for, and writes the report of its printed steps to `out`; or, with
/// `--demo N`, takes the steps of a demonstration and writes its summary. `words` are those of the command line without the
/// program's name; those that mean nothing are refused. The text of a refusal goes to `err`. `gate` is told of each task that
/// a thread computes.
/// Nothing is written before the last step. The outcome carries the world that ran, with the notes of its sweeps.
pub fn run<R: Threads + Sync, S: Source, K: Sink, E: Sink, G: Gate>(
    rt: &R,
    alloc: Global,
    words: &[String],
    input: &mut S,
    out: &mut K,
    err: &mut E,
    gate: &G,
) -> Outcome
    requires { S.ended input.old ≡ false }

    // The words alone decide on `Usage`: it comes where they ask for nothing that is served, unless memory runs out.
    ensures usage { result.answer ≡ Answer.Usage → AreRefused (map string_bytes words.now) }
    ensures refused { AreRefused (map string_bytes words.now)
        → (result.answer ≡ Answer.Usage) ⊎ (result.answer ≡ Answer.NoMemory) }

    // Nothing is read where they ask for no file: where they are refused, or ask for a demonstration.
    ensures unread { AskForNoFile (map string_bytes words.now) → input.new ≡ input.old }

    // A file: no byte is read past the end that the source told, nor past the first that is too many; at `Done` `out` took
    // exactly the report, at a write fault exactly its first bytes; each refusal has its cause in the bytes. A demonstration:
    // so with its summary, and no refusal comes but want of memory.
    ensures serves { (asked : Asked) → Asks (map string_bytes words.now) asked
        → Serves asked result.answer (S.left input.old) (S.left input.new) (S.ended input.new)
        (K.taken out.old) (K.taken out.new) }
    ensures nothing { WritesNothing result.answer out.old out.new }

    // The world that ran is left at `Done` and at a write fault, at the last grid and field, with the notes of all sweeps;
    // where a step was refused, with the notes up to that step's secondary sweeps; and where the lines of a step are too
    // many, with those up to its showing. With any other answer there is none.
    ensures world { (asked : Asked) → Asks (map string_bytes words.now) asked
        → Leaves asked result.answer (S.left input.old) result.world }
    ensures no_world { leaves_world result.answer ≡ false → result.world ≡ None }

    // A fault comes only where a count of faults rose.
    ensures read_fault { ReadFaultRose result.answer (S.faults input.old) (S.faults input.new) }
    ensures write_fault { WriteFaultRose result.answer (K.faults out.old) (K.faults out.new) }

    // The status and the text are those of the answer.
    ensures status { result.status ≡ status_of result.answer }
    ensures text { TellsAnswer result.answer (S.left input.old) (E.taken err.old) (E.taken err.new)
        (E.faults err.old) (E.faults err.new) }
{
    let ending = ended(rt, alloc, words, input, out, gate);
    tell(err, refusal_text(ending.dim, &ending.answer).as_slice());
    Outcome {
        status: ending.answer.status(),
        answer: ending.answer,
        world: ending.world,
    }
}
