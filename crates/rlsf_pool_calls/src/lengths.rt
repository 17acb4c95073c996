//! Lengths of pools, over numbers.

ghost use Rattle.rlsf_pool_calls.specs.Lengths.{IsLengthForAllocation, IsLengthForBudget, IsLengthForPayloads};

use rlsf_base::classes::{
    pool_size_for_budget, pool_size_for_payloads, pool_size_to_contain_allocation,
};
use rlsf_base::memory::Layout;

/// Returns the length in bytes of a pool that refuses no payload up to a layout while at most `count` are live, or 0.
pub fn for_payloads(kind: usize, count: usize, size: usize, align: usize) -> usize
    ensures { IsLengthForPayloads kind count size align result }
{
    let Ok(layout) = Layout::from_size_align(size, align) else {
        return 0;
    };
    let len = match kind {
        1 => pool_size_for_payloads::<u16, u16, 12, 16>(count, layout),
        2 => pool_size_for_payloads::<u64, u64, 64, 64>(count, layout),
        _ => None,
    };
    len.unwrap_or(0)
}

/// Returns the length in bytes of a pool that refuses no payload up to a layout while at most `count` are live, whose blocks have at most
/// `bytes` bytes together, or 0.
pub fn for_budget(kind: usize, count: usize, bytes: usize, size: usize, align: usize) -> usize
    ensures { IsLengthForBudget kind count bytes size align result }
{
    let Ok(layout) = Layout::from_size_align(size, align) else {
        return 0;
    };
    let len = match kind {
        1 => pool_size_for_budget::<u16, u16, 12, 16>(count, bytes, layout),
        2 => pool_size_for_budget::<u64, u64, 64, 64>(count, bytes, layout),
        _ => None,
    };
    len.unwrap_or(0)
}

/// Returns the least length in bytes of a pool that can allocate a layout while nothing is live there, or 0.
pub fn for_allocation(kind: usize, size: usize, align: usize) -> usize
    ensures { IsLengthForAllocation kind size align result }
{
    let Ok(layout) = Layout::from_size_align(size, align) else {
        return 0;
    };
    let len = match kind {
        1 => pool_size_to_contain_allocation::<u16, u16, 12, 16>(layout),
        2 => pool_size_to_contain_allocation::<u64, u64, 64, 64>(layout),
        _ => None,
    };
    len.unwrap_or(0)
}
