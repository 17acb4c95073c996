//! Reads the input of a replay.

ghost use Rattle.std.specs.Prelude.{◌≡◌, ◌⊎◌, IfOk, IfSome, OnOk, IfErr};
ghost use Rattle.std.specs.Io.KnownBytes.{IsAtEnd};

use rlsf_trace_text::Fault;
use std::alloc::Global;
use std::io::{ErrorKind, Read};

/// Reads the rest of the input. The error is `Read` if that fails, and `OutOfMemory` if there is no memory for it.
///
/// A read that a signal interrupts is tried again.
pub fn read_input<R: Read>(alloc: Global, reader: &mut R) -> Result<Vec<u8>, Fault>
    ensures bytes { IfOk result (λ input. IfSome (R.remaining reader.old) (λ bytes. input.items ≡ bytes)) }
    ensures end { OnOk result (IsAtEnd (R.remaining reader.new)) }
    ensures fault { IfErr result (λ fault. (fault ≡ Fault.Read) ⊎ (fault ≡ Fault.OutOfMemory)) }
{
    let mut input = Vec::new(alloc);
    let mut piece = [0; 4096];
    for _ in 0..u64::MAX {
        match reader.read(&mut piece) {
            Ok(0) => return Ok(input),
            Ok(len) => input
                .extend_from_slice(&piece[..len])
                .or(Err(Fault::OutOfMemory))?,
            Err(error) => {
                if error.kind() != ErrorKind::Interrupted {
                    return Err(Fault::Read);
                }
            }
        }
    }
    Err(Fault::Read)
}
