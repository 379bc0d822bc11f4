//! Reading a source to its end, up to a limit.
ghost use Rattle.std.specs.Prelude.{◌≡◌, ◌<◌, ◌≤◌, ◌^◌, length, vec_len, IfOk, IfSome, IsErrOf, false, is_ok};
ghost use Rattle.peano_io.specs.Causes.{OnlyReadFaultRose};
ghost use Rattle.peano_io.specs.Reading.{ReadsToEnd, LosesPrefix};

use crate::source::Source;
use std::alloc::Global;
use thiserror::Error;

/// Why the bytes of a source were not handed out.
#[derive(Clone, Copy, Debug, PartialEq, Eq, Error)]
pub enum ReadAllFault {
    /// A read failed.
    #[error("read fault")]
    ReadFault,
    /// More bytes stand before the end than the limit allows.
    #[error("input too long")]
    TooLong,
    /// Memory ran out.
    #[error("out of memory")]
    NoMemory,
}

// How many bytes one read asks for.
const PIECE: usize = 8192;

/// All bytes of a source to its end, of which there may be `limit`. It reads at most one byte past the limit, and
/// after a refusal the source has lost a prefix of what it had.
pub fn read_all<S: Source>(alloc: Global, src: &mut S, limit: u64) -> Result<Vec<u8>, ReadAllFault>
    requires limit { limit ≤ 2 ^ 30 }
    requires before_end { S.ended src.old ≡ false }
    ensures whole { IfOk result
        (λ bytes. ReadsToEnd (S.left src.old) (S.left src.new) bytes.items) }
    ensures within { IfOk result (λ bytes. vec_len bytes ≤ limit) }
    ensures end { S.ended src.new ≡ is_ok result }

    // Exactly where one byte more than the limit was read, and so only where more than `limit` were left.
    ensures prefix { LosesPrefix limit (S.left src.old) (S.left src.new) result }
    ensures too_long { IsErrOf result ReadAllFault.TooLong
        → IfSome (S.left src.old) (λ all. limit < length all) }

    // Where the count rose, nothing comes but a read fault.
    ensures later { S.faults src.old ≤ S.faults src.new }
    ensures cause { OnlyReadFaultRose (S.faults src.old) (S.faults src.new) result }
{
    let most = limit as usize + 1;
    let mut all = Vec::new(alloc);
    let mut piece = [0u8; PIECE];
    loop {
        let room = piece.len().min(most - all.len());
        let count = match src.read(&mut piece[..room]) {
            Ok(count) => count,
            Err(_) => return Err(ReadAllFault::ReadFault),
        };
        if count == 0 {
            return Ok(all);
        }
        if all.len() + count == most {
            return Err(ReadAllFault::TooLong);
        }
        if all.extend_from_slice(&piece[..count]).is_err() {
            return Err(ReadAllFault::NoMemory);
        }
    }
}
