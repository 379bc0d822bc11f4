//! The words of a command line, out of what a program is started with.
ghost use Rattle.std.specs.Prelude.{◌≡◌, drop, map, IfOk, string_bytes};
ghost use Rattle.std.specs.Vec.Iter.{into_iter_items};
ghost use Rattle.command_line.specs.Arguments.{words_in};

use std::alloc::{AllocError, Global};
use std::env::Args;
use std::io;
use std::io::ErrorKind;

// What stands behind the program's name, which comes first.
fn behind_the_name(alloc: Global, args: Args) -> Result<Vec<String>, AllocError>
    ensures { IfOk result (λ words. words.items ≡ drop 1 (into_iter_items args)) }
{
    args.skip(1).collect(alloc)
}

/// The words of the command line that a program is started with: its arguments without its own name, which comes first.
/// Arguments that cannot be read, or that are no text, stand as one empty word, which means nothing.
pub fn words_of(alloc: Global, args: io::Result<Args>) -> Result<Vec<String>, AllocError>
    ensures { IfOk result (λ words. map string_bytes words.items ≡ words_in args) }
{
    match args {
        Ok(args) => behind_the_name(alloc, args),
        Err(fault) if fault.kind() == ErrorKind::OutOfMemory => Err(AllocError),
        Err(_) => {
            let mut words = Vec::new(alloc);
            words.push(String::new(alloc))?;
            Ok(words)
        }
    }
}
