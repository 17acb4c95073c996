//! Writes the output of a replay.

ghost use Rattle.std.specs.Prelude.{◌≡◌, OnOk, IfErr};
ghost use Rattle.std.specs.Io.KnownBytes.{Appends};
ghost use Rattle.rlsf_trace_runs.specs.Output.{AppendsBeginning};

use rlsf_trace_text::Fault;
use std::io::{ErrorKind, Write};

/// Writes a text. Where that fails, with `Write`, a beginning of it may have been written.
///
/// A write that takes no byte has failed, and one that a signal interrupts is tried again.
pub fn write_text<W: Write>(writer: &mut W, text: &[u8]) -> Result<(), Fault>
    ensures whole { OnOk result (Appends (W.contents writer.old) (W.contents writer.new) text.now) }
    ensures beginning { AppendsBeginning (W.contents writer.old) (W.contents writer.new) text.now }
    ensures fault { IfErr result (λ fault. fault ≡ Fault.Write) }
{
    let mut rest = text;
    for _ in 0..u64::MAX {
        if rest.is_empty() {
            return Ok(());
        }
        match writer.write(rest) {
            Ok(0) => return Err(Fault::Write),
            Ok(taken) => rest = &rest[taken..],
            Err(error) if error.kind() == ErrorKind::Interrupted => continue,
            Err(_) => return Err(Fault::Write),
        }
    }
    Err(Fault::Write)
}
