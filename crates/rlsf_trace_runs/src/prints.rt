//! Runs whose answers are printed and not kept.

ghost use Rattle.std.specs.Prelude.{◌≡◌, IfOk, string_bytes};
ghost use Rattle.rlsf_base.specs.Space.{range_of};
ghost use Rattle.rlsf_model.specs.State.{empty};
ghost use Rattle.rlsf_trace_runs.specs.Replays.{IsPrintedRun};

use crate::runs::step;
use crate::tables::Tables;
use rlsf_int::BitPattern;
use rlsf_tlsf::Tlsf;
use rlsf_trace_text::{Op, print_line};
use std::alloc::{AllocError, Global};

/// Does the ops one after another, as `run` does, with an allocator without chunks, and returns what is printed for them. An answer
/// is printed at once, and the tables have room for the names and the pools that there are: so a long trace needs little memory.
///
/// Returns an error if the system is out of memory. No clause says that it has no other cause.
pub(crate) fn print_run<
    FLBitmap: BitPattern,
    SLBitmap: BitPattern,
    const FLLEN: usize,
    const SLLEN: usize,
>(
    alloc: Global,
    tlsf: &mut Tlsf<FLBitmap, SLBitmap, FLLEN, SLLEN>,
    ops: &[Op],
) -> Result<String, AllocError>
    requires { tlsf.old.state ≡ empty }
    ensures { IfOk result (λ text. IsPrintedRun FLLEN SLLEN (range_of tlsf.old.memory) ops.now (string_bytes text)) }
{
    // What `memory_ref` says of every allocator: its memory and its class table represent its state.
    let _ = tlsf.memory_ref();
    let mut tables = Tables::with_room(alloc, 0)?;
    let mut text = String::new(alloc);
    for op in ops {
        tables.make_room()?;
        let answer = step(tlsf, &mut tables, *op);
        print_line(&mut text, *op, answer)?;
        text.push('\n')?;
    }
    Ok(text)
}
