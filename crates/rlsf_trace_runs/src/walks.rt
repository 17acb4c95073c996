//! The blocks of a pool.

ghost use Rattle.std.specs.Prelude.{◌<◌, ◌^◌, length, IsTrue, ◌↔◌};
ghost use Rattle.rlsf_base.specs.Range.{end_of, LiesIn};
ghost use Rattle.rlsf_base.specs.Space.{range_of};
ghost use Rattle.rlsf_model.specs.Lists.{IsIn};
ghost use Rattle.rlsf_trace_text.specs.declared.op.Op.TheVariants.{Block};
ghost use Rattle.rlsf_trace_runs.specs.Runs.{MayWalk, RunState};
ghost use Rattle.rlsf_trace_runs.specs.Steps.Pools.{ArePoolsApart, AreInRuns};
ghost use Rattle.rlsf_trace_runs.specs.Steps.Tables.{IsAt, OpLeadsOn};

use crate::pools::{Pools, is_pool};
use crate::runs::lies_in;
use crate::tables::Tables;
use rlsf_base::memory::{Memory, Range};
use rlsf_int::BitPattern;
use rlsf_tlsf::Tlsf;
use rlsf_trace_text::{Answer, TraceError};

// Whether the range lies in the memory and is a pool's, but for what its start is rounded up by.
fn may_walk(memory: &Memory, pools: &Pools, range: Range) -> bool
    requires in_runs { AreInRuns pools.now.ranges.items pools.now.firsts.items }
    requires apart { ArePoolsApart pools.now.ranges.items }
    requires inside { (p : Range) → IsIn p pools.now.ranges.items → LiesIn p memory.now.start (length memory.now.bytes) }
    requires addressable { end_of (range_of memory.now) < 2 ^ 64 }
    ensures { IsTrue result ↔ MayWalk (range_of memory.now) pools.now.ranges.items range }
{
    lies_in(memory, range) && is_pool(pools, range)
}

/// The block at an index of a pool, from 0. The range goes from the pool's start, or from up to 31 bytes before it, to the
/// pool's end; any other is refused.
pub(crate) fn block<
    FLBitmap: BitPattern,
    SLBitmap: BitPattern,
    const FLLEN: usize,
    const SLLEN: usize,
>(
    tlsf: &Tlsf<FLBitmap, SLBitmap, FLLEN, SLLEN>,
    tables: &Tables,
    range: Range,
    index: usize,
) -> Answer
    requires { (s : RunState) × IsAt FLLEN SLLEN tlsf.now tables.now s }
    ensures { (s : RunState) → IsAt FLLEN SLLEN tlsf.now tables.now s → OpLeadsOn FLLEN SLLEN tlsf.now s (Block range index) result tlsf.now tables.now }
{
    if !may_walk(tlsf.memory_ref(), &tables.pools, range) {
        return Answer::Refused(TraceError::BadRange);
    }
    match tlsf.iter_blocks(range).nth(index) {
        Some(info) => Answer::Block(Some((info.as_ptr(), info.is_occupied()))),
        None => Answer::Block(None),
    }
}
