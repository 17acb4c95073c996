//! The part of a memory that ops name.

ghost use Rattle.std.specs.Prelude.{◌≡◌, ◌+◌, ◌^◌, ◌<◌, ◌≤◌};
ghost use Rattle.rlsf_base.specs.Range.{end_of};
ghost use Rattle.rlsf_trace_runs.specs.Parts.{CoversOp, IsPartFor, range_named};

use rlsf_base::memory::Range;
use rlsf_trace_text::Op;

/// Returns the part of a memory from the first address to the last of the ranges that ops name there. Ranges that don't lie in the
/// memory don't count: their ops are refused.
pub(crate) fn part_for(memory: Range, ops: &[Op]) -> Range
    requires { end_of memory < 2 ^ 64 }
    ensures { IsPartFor memory ops.now result }
{
    let mut part = (memory.start + memory.len, memory.start);
    for op in ops {
        part = widened(memory, part, *op);
    }
    let (first, end) = part;
    Range {
        start: first,
        len: end.saturating_sub(first),
    }
}

// The first address and the end, with the op's range if that lies in the memory.
fn widened(memory: Range, part: (usize, usize), op: Op) -> (usize, usize)
    requires memory { end_of memory < 2 ^ 64 }
    requires inside { (memory.start ≤ part.0) × (part.0 ≤ end_of memory) × (memory.start ≤ part.1) × (part.1 ≤ end_of memory) }
    ensures inside { (memory.start ≤ result.0) × (result.0 ≤ end_of memory) × (memory.start ≤ result.1) × (result.1 ≤ end_of memory) }
    ensures wider { (result.0 ≤ part.0) × (part.1 ≤ result.1) }
    ensures covers { CoversOp memory result.0 result.1 op }
{
    match range_named(op) {
        Some(range) if range.lies_in(memory) => {
            let end = range.start + range.len;
            (part.0.min(range.start), part.1.max(end))
        }
        _ => part,
    }
}

fn range_named(op: Op) -> Option<Range>
    ensures { result ≡ range_named op }
{
    match op {
        Op::Insert(range) | Op::Append(range) | Op::Block(range, _) => Some(range),
        Op::Alloc(_, _)
        | Op::Free(_)
        | Op::FreeUnknown(_)
        | Op::Realloc(_, _)
        | Op::ReallocNoMove(_, _)
        | Op::Fill(_, _)
        | Op::Put(_, _, _)
        | Op::Get(_, _)
        | Op::Usable(_)
        | Op::Trim => None,
    }
}
