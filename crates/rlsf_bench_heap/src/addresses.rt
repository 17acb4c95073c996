//! The addresses that a heap and a `Tlsf` return for the same calls.

use crate::slots::{Slots, Step};
use crate::{MEMORY, POOL};
use rlsf_base::memory::{Addr, Memory};
use rlsf_bench_common::{BenchError, Xorshift};
use rlsf_tlsf::Tlsf;
use rlsf_trace_runs::run;
use rlsf_trace_text::{Answer, Op};
use std::alloc::Global;
use std::fmt;
use std::io::Write;
use std::num::NonZeroUsize;

/// What an allocation returns: an address, or none.
#[derive(Clone, Copy)]
struct Placed(Option<usize>);

/// Writes the address, or a hyphen.
impl fmt::Display for Placed {
    fn fmt<W: fmt::Write>(&self, f: &mut fmt::Formatter<W>) -> fmt::Result {
        match self.0 {
            Some(addr) => write!(f, "{addr}"),
            None => f.write_str("-"),
        }
    }
}

/// Calls of an allocator, and what a heap returns.
#[derive(Drop)]
struct Calls {
    ops: Vec<Op>,
    placed: Vec<Placed>,
}

/// Makes so many steps with a heap. Returns its calls, and the addresses of its payloads.
fn calls_of_heap(alloc: Global, slots: NonZeroUsize, steps: usize) -> Result<Calls, BenchError> {
    let mut ops = Vec::with_capacity(alloc, steps.saturating_add(1))?;
    let mut placed = Vec::with_capacity(alloc, steps)?;
    let mut heap = Slots::new(alloc, slots)?;
    let mut draws = Xorshift::new();
    let _ = ops.push(Op::Insert(POOL));
    for _ in 0..steps {
        let op = match heap.step(draws.next()) {
            Step::Freed(slot) => Op::Free(slot),
            Step::Allocated(slot, layout, addr) => {
                let _ = placed.push(Placed(addr));
                Op::Alloc(slot, layout)
            }
        };
        let _ = ops.push(op);
    }
    Ok(Calls { ops, placed })
}

/// Makes the calls with a `Tlsf`. Returns what it answers.
fn answers_of_tlsf(alloc: Global, ops: &[Op]) -> Result<Vec<Answer>, BenchError> {
    let mut answers = Vec::new(alloc);
    let memory = Memory::new(alloc, MEMORY.start, MEMORY.len)?;
    let mut tlsf = Tlsf::<usize, usize, 64, 64>::new(memory);
    run(alloc, &mut tlsf, ops, &mut answers).map_err(|_| BenchError::OutOfMemory)?;
    Ok(answers)
}

/// What an answer says of an allocation. `None` if it is that of another call.
fn placed_by(answer: Answer) -> Option<Placed> {
    match answer {
        Answer::Placed(addr) => Some(Placed(addr.map(|addr: Addr| addr.get()))),
        _ => None,
    }
}

/// Writes a line for each allocation: what the heap returns, and what the `Tlsf` does.
pub(crate) fn write_addresses<W: Write>(
    alloc: Global,
    out: &mut W,
    slots: NonZeroUsize,
    steps: usize,
) -> Result<(), BenchError> {
    let calls = calls_of_heap(alloc, slots, steps)?;
    let answers = answers_of_tlsf(alloc, &calls.ops)?;
    let mut of_heap = calls.placed.iter();
    for answer in &answers {
        let Some(of_tlsf) = placed_by(*answer) else {
            continue;
        };
        let Some(placed) = of_heap.next() else {
            return Ok(());
        };
        writeln!(out, "{placed} {of_tlsf}")?;
    }
    Ok(())
}
