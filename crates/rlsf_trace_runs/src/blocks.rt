//! All blocks of an allocator.

ghost use Rattle.std.specs.Prelude.{IfOk};
ghost use Rattle.rlsf_base.specs.Space.{range_of};
ghost use Rattle.rlsf_blocks.specs.Blocks.{AreBlocks};
ghost use Rattle.rlsf_trace_runs.specs.Runs.{RunState};
ghost use Rattle.rlsf_trace_runs.specs.Steps.Pools.{AreInAddressOrder};
ghost use Rattle.rlsf_trace_runs.specs.Steps.Tables.{IsAt};

use crate::runs::RunError;
use crate::tables::Tables;
use rlsf_blocks::BlockInfo;
use rlsf_int::BitPattern;
use rlsf_tlsf::Tlsf;
use std::alloc::Global;

/// The blocks of all pools, used and free, in the order of their addresses. The pools are in that order.
pub(crate) fn all_blocks<
    FLBitmap: BitPattern,
    SLBitmap: BitPattern,
    const FLLEN: usize,
    const SLLEN: usize,
>(
    alloc: Global,
    tlsf: &Tlsf<FLBitmap, SLBitmap, FLLEN, SLLEN>,
    tables: &Tables,
) -> Result<Vec<BlockInfo>, RunError>
    requires state { (s : RunState) × IsAt FLLEN SLLEN tlsf.now tables.now s }
    requires in_order { AreInAddressOrder tables.now.pools.ranges.items }
    ensures { IfOk result (λ bs. AreBlocks tlsf.now.state (range_of tlsf.now.memory) bs.items) }
{
    let mut all = Vec::new(alloc);
    let pools = &tables.pools.ranges;
    for place in 0..pools.len() {
        let blocks: Vec<BlockInfo> = tlsf.iter_blocks(pools[place]).collect(alloc)?;
        all.extend_from_slice(&blocks)?;
    }
    Ok(all)
}
