//! Runs: the ops of a trace, done with an allocator over a source.

ghost use Rattle.std.specs.Prelude.{◌≡◌, ℕ, ◌+◌, ◌≤◌, ◌++◌, List, OnOk, OnErr};
ghost use Rattle.std.specs.HashMap.{spare};
ghost use Rattle.rlsf_base.specs.Space.{SamePlace};
ghost use Rattle.rlsf_trace_flex_runs.specs.Steps.Names.{IsFlexAt, LeadsOn};
ghost use Rattle.rlsf_trace_flex_runs.specs.Whole.{RunsFlexTo};
ghost use Rattle.rlsf_model.specs.FlexState.{flex_empty};
ghost use Rattle.rlsf_trace_text.specs.declared.op.Answer.{Answer};

use crate::payloads::{alloc, fill, free, get, put, realloc, realloc_no_move, usable};
use rlsf_flex::{FlexSource, FlexTlsf};
use rlsf_int::BitPattern;
use rlsf_trace_runs::{Payload, RunError};
use rlsf_trace_text::{Answer, Op, TraceError};
use std::alloc::Global;
use std::collections::HashMap;

/// Does one op and returns its answer.
fn step<
    S: FlexSource,
    FLBitmap: BitPattern,
    SLBitmap: BitPattern,
    const FLLEN: usize,
    const SLLEN: usize,
>(
    flex: &mut FlexTlsf<S, FLBitmap, SLBitmap, FLLEN, SLLEN>,
    names: &mut HashMap<usize, Payload>,
    op: Op,
) -> Answer
    requires state { IsFlexAt FLLEN SLLEN S.terms S.owes flex.old names.old }
    requires room { 1 ≤ spare names.old }
    ensures does { LeadsOn FLLEN SLLEN S.terms S.owes S.leads flex.old names.old op result flex.new names.new }
    ensures room { (ops : ℕ) → ops + 1 ≤ spare names.old → ops ≤ spare names.new }
{
    match op {
        Op::Insert(_) | Op::Append(_) | Op::Block(_, _) => Answer::Refused(TraceError::NotForFlex),
        Op::Alloc(name, layout) => alloc(flex, names, name, layout),
        Op::Free(name) => free(flex, names, name, true),
        Op::FreeUnknown(name) => free(flex, names, name, false),
        Op::Realloc(name, size) => realloc(flex, names, name, size),
        Op::ReallocNoMove(name, size) => realloc_no_move(flex, names, name, size),
        Op::Fill(name, byte) => fill(flex, names, name, byte),
        Op::Put(name, offset, byte) => put(flex, names, name, offset, byte),
        Op::Get(name, offset) => get(flex, names, name, offset),
        Op::Usable(name) => usable(flex, names, name),
        Op::Trim => Answer::Trimmed(flex.trim()),
    }
}

/// Does the ops, one after another, with an allocator over a source at which nothing is outstanding yet. One answer an op
/// follows those already there. `Insert`, `Append` and `Block` are refused as `NotForFlex`.
///
/// The memory stays in place, and its bytes outside of the source's ranges are unchanged. The source is asked what the model asks
/// it, and nothing else.
///
/// The error is `OutOfMemory` if there is no memory for the answers or the run's own table. No clause says that it has no other
/// cause. Then no op was done, nothing was asked, and the answers are unchanged.
pub fn run_flex<
    S: FlexSource,
    FLBitmap: BitPattern,
    SLBitmap: BitPattern,
    const FLLEN: usize,
    const SLLEN: usize,
>(
    alloc: Global,
    flex: &mut FlexTlsf<S, FLBitmap, SLBitmap, FLLEN, SLLEN>,
    ops: &[Op],
    answers: &mut Vec<Answer>,
) -> Result<(), RunError>
    requires { flex.old.state ≡ flex_empty }
    ensures runs { OnOk result ((given : List Answer) × (answers.new.items ≡ answers.old.items ++ given)
        × RunsFlexTo FLLEN SLLEN S.terms S.leads flex.old ops.now given flex.new) }
    ensures refused { OnErr result ((answers.new.items ≡ answers.old.items) × (flex.new ≡ flex.old)) }
    ensures place { SamePlace flex.old.memory flex.new.memory }
{
    // What `memory_ref` says of every allocator: its parts represent its state.
    let _ = flex.memory_ref();
    answers.try_reserve(ops.len())?;
    let mut names = HashMap::with_capacity(alloc, ops.len())?;
    for op in ops {
        let answer = step(flex, &mut names, *op);
        let _ = answers.push(answer);
    }
    Ok(())
}
