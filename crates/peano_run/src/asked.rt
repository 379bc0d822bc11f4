//! What the words of a command line ask for.
ghost use Rattle.std.specs.Prelude.{Err, IfOk, map, string_bytes, ◌≡◌};
ghost use Rattle.peano_run.specs.Asked.{AsksFor, Asks, AreRefused, HasCrew};

use command_line::{ShowWhat, Words, WordsFault, read_words};
use std::alloc::Global;

/// How a file is run: by so many trees, 1 to 64, with so many helpers, at most 16, and what is shown of each printed step.
#[derive(Clone, Copy, Debug, PartialEq, Eq)]
pub struct Request {
    pub trees: u32,
    pub workers: u32,
    pub show: ShowWhat,
}

/// What is asked for: the report of a file, or the demonstration of a number by so many trees, 1 to 64, with so many helpers,
/// at most 16.
#[derive(Clone, Copy, Debug, PartialEq, Eq)]
pub enum Asked {
    File(Request),
    Demo {
        number: u64,
        trees: u32,
        workers: u32,
    },
}

// What settings ask for.
fn asked_by(words: &Words) -> Asked
    ensures { AsksFor words.now result }
{
    match words.demo {
        Some(number) => Asked::Demo {
            number,
            trees: words.trees,
            workers: words.workers,
        },
        None => Asked::File(Request {
            trees: words.trees,
            workers: words.workers,
            show: words.show,
        }),
    }
}

// What the words ask for.
pub(crate) fn asked_in(alloc: Global, words: &[String]) -> Result<Asked, WordsFault>
    ensures ok { IfOk result (Asks (map string_bytes words.now)) }
    ensures crew { IfOk result HasCrew }
    ensures usage { result ≡ Err WordsFault.Usage → AreRefused (map string_bytes words.now) }
{
    let settings = read_words(alloc, words)?;
    Ok(asked_by(&settings))
}
