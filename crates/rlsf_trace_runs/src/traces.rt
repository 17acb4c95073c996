//! The runs of traces.

ghost use Rattle.std.specs.Prelude.{◌≡◌, ◌⊎◌, IfOk, IfErr};
ghost use Rattle.rlsf_base.specs.Range.{range_at};
ghost use Rattle.rlsf_base.specs.Space.{range_of};
ghost use Rattle.rlsf_model.specs.State.{empty};
ghost use Rattle.rlsf_trace_text.specs.Faults.{out_of_memory};
ghost use Rattle.rlsf_trace_runs.specs.Replays.{rows_of, classes_of, no_memory};
ghost use Rattle.rlsf_trace_runs.specs.Moments.{IsWatched};

use crate::watched::{Watched, watch};
use rlsf_base::memory::Memory;
use rlsf_int::BitPattern;
use rlsf_tlsf::Tlsf;
use rlsf_trace_text::{Configuration, Fault, Op, ReplayFault, Trace};
use std::alloc::Global;

// The memory of a trace, whose start and length are no fault. If the system is out of memory, the fault is that of line 1.
fn memory_of(alloc: Global, trace: &Trace) -> Result<Memory, ReplayFault>
    ensures ok { IfOk result (λ memory. range_of memory ≡ range_at trace.now.start trace.now.len) }
    ensures err { IfErr result (λ f. f ≡ no_memory) }
{
    Memory::new(alloc, trace.start, trace.len).or(Err(Fault::OutOfMemory.at_line(1)))
}

// The run of ops on an allocator that has no chunk.
fn watch_with<FLBitmap: BitPattern, SLBitmap: BitPattern, const FLLEN: usize, const SLLEN: usize>(
    alloc: Global,
    mut tlsf: Tlsf<FLBitmap, SLBitmap, FLLEN, SLLEN>,
    ops: &[Op],
) -> Result<Watched, ReplayFault>
    requires { tlsf.state ≡ empty }
    ensures ok { IfOk result (λ w. IsWatched FLLEN SLLEN (range_of tlsf.memory) ops.now w) }
    ensures err { IfErr result (λ f. f ≡ out_of_memory) }
{
    watch(alloc, &mut tlsf, ops).or(Err(Fault::OutOfMemory.at_line(0)))
}

/// Runs ops with the configuration and the memory of a trace, and returns the watched run.
///
/// The fault is `OutOfMemory` of line 1 if there is no memory of the length that the first line asks for. It is that of line 0 if
/// there is no other memory. No clause says that it has no other cause. There is no other fault.
pub fn watch_ops(alloc: Global, trace: &Trace, ops: &[Op]) -> Result<Watched, ReplayFault>
    ensures ok { IfOk result (λ w. IsWatched
        (rows_of trace.now.configuration) (classes_of trace.now.configuration) (range_at trace.now.start trace.now.len) ops.now w) }
    ensures err { IfErr result (λ f. (f ≡ out_of_memory) ⊎ (f ≡ no_memory)) }
{
    let memory = memory_of(alloc, trace)?;
    match trace.configuration {
        Configuration::EightByEight => watch_with(alloc, Tlsf::<u8, u8, 8, 8>::new(memory), ops),
        Configuration::TwelveBySixteen => watch_with(
            alloc,
            Tlsf::<u16, u16, 12, 16>::new(memory),
            ops,
        ),
        Configuration::FiftyNineByEight => watch_with(
            alloc,
            Tlsf::<u64, u64, 59, 8>::new(memory),
            ops,
        ),
        Configuration::OneByOne => watch_with(alloc, Tlsf::<u8, u8, 1, 1>::new(memory), ops),
        Configuration::EightByOne => watch_with(alloc, Tlsf::<u8, u8, 8, 1>::new(memory), ops),
    }
}

/// Runs a trace, and returns the watched run. The faults are those of `watch_ops`.
pub fn watch_trace(alloc: Global, trace: &Trace) -> Result<Watched, ReplayFault>
    ensures ok { IfOk result (λ w. IsWatched (rows_of trace.now.configuration) (classes_of trace.now.configuration)
        (range_at trace.now.start trace.now.len) trace.now.ops.items w) }
    ensures err { IfErr result (λ f. (f ≡ out_of_memory) ⊎ (f ≡ no_memory)) }
{
    watch_ops(alloc, trace, &trace.ops)
}
