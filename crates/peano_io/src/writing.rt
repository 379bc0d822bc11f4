//! Writing all of some bytes into a sink.
ghost use Rattle.std.specs.Prelude.{◌≡◌, ◌<◌, length, take, OnOk, IfErr};
ghost use Rattle.std.specs.Io.KnownBytes.{Appends};
ghost use Rattle.peano_io.specs.Causes.{HasCause};

use crate::sink::Sink;

/// A write failed after this many bytes were taken.
#[derive(Clone, Copy, Debug, PartialEq, Eq)]
pub struct WriteFault {
    pub written: u64,
}

/// Writes all of `bytes`, piece by piece, and takes no memory. Where the sink fails, exactly the first `written` bytes
/// were taken.
pub fn write_whole<K: Sink>(sink: &mut K, bytes: &[u8]) -> Result<(), WriteFault>
    ensures whole { OnOk result (Appends (K.taken sink.old) (K.taken sink.new) bytes.now) }
    ensures part { IfErr result
        (λ fault. Appends (K.taken sink.old) (K.taken sink.new) (take fault.written bytes.now)) }
    ensures written { IfErr result (λ fault. fault.written < length bytes.now) }
    ensures empty { length bytes.now ≡ 0 → sink.new ≡ sink.old }
    ensures cause { HasCause (K.faults sink.old) (K.faults sink.new) result }
{
    let mut written = 0;
    while written < bytes.len() {
        match sink.write(&bytes[written..]) {
            Ok(count) => written += count,
            Err(_) => {
                return Err(WriteFault {
                    written: written as u64,
                });
            }
        }
    }
    Ok(())
}
