//! Pools by size: which pool a payload comes from, when one is refused, and what a deallocation makes room for.

use crate::answers::{all, are};
use rlsf_base::memory::Layout;
use rlsf_partitions::{Budget, PartitionPayload, Partitions};
use std::alloc::Global;

/// Two payloads of up to 16 bytes, one of up to 100, and none of up to 200.
const SIZES: [(usize, usize); 3] = [(2, 16), (1, 100), (0, 200)];

/// The place of a payload's pool, its address and its length.
fn of(payload: &PartitionPayload) -> [usize; 3] {
    [payload.pool, payload.payload.addr(), payload.payload.len()]
}

/// How many more payloads of 0, 16, 17, 100, 101 and 201 bytes have room.
fn room(pools: &Partitions) -> [usize; 6] {
    [
        pools.vacant(0),
        pools.vacant(16),
        pools.vacant(17),
        pools.vacant(100),
        pools.vacant(101),
        pools.vacant(201),
    ]
}

/// Takes all payloads, exchanges one, and deallocates all. Returns what was found.
fn exchanged(pools: &mut Partitions) -> Option<[[usize; 3]; 4]> {
    let mut first = pools.allocate(16)?;
    first.payload.fill(1);
    let second = pools.allocate(0)?;
    let third = pools.allocate(17)?;
    let (one, two, three) = (of(&first), of(&second), of(&third));
    pools.deallocate(first);
    let again = pools.allocate(1)?;
    let four = of(&again);
    pools.deallocate(second);
    pools.deallocate(third);
    pools.deallocate(again);
    Some([one, two, three, four])
}

/// Takes all payloads, and returns how many more have room then. They leak.
fn filled(pools: &mut Partitions) -> Option<[usize; 6]> {
    let _first = pools.allocate(0)?;
    let _second = pools.allocate(16)?;
    let _third = pools.allocate(100)?;
    Some(room(pools))
}

/// The sizes that are refused, of 16, 17, 101 and 201 bytes.
fn refused(pools: &mut Partitions) -> [bool; 4] {
    [
        pools.allocate(16).is_none(),
        pools.allocate(17).is_none(),
        pools.allocate(101).is_none(),
        pools.allocate(201).is_none(),
    ]
}

/// The sums of 1,000 messages of up to 64 bytes, whose blocks have 96 bytes, and four frames of up to 16,384, whose blocks have 16,416.
fn summed() -> Option<[usize; 4]> {
    let message = Layout::from_size_align(64, 16).ok()?;
    let frame = Layout::from_size_align(16384, 8).ok()?;
    let budget = Budget::new().with(1000, message)?.with(4, frame)?;
    Some([budget.count, budget.bytes, budget.size, budget.align])
}

/// Which sums don't fit in a word: of the bytes, of the number, and neither.
fn too_many() -> Option<[bool; 3]> {
    let layout = Layout::from_size_align(16, 64).ok()?;
    let few = Budget::new().with(1, layout)?;
    let most = Budget {
        count: usize::MAX,
        bytes: 0,
        size: 0,
        align: 1,
    };
    Some([
        few.with(usize::MAX / 96, layout).is_none(),
        most.with(1, layout).is_none(),
        few.with(usize::MAX / 96 - 1, layout).is_some(),
    ])
}

fn new_pools(alloc: Global) -> Option<Partitions> {
    Partitions::new(alloc, &SIZES).ok()
}

#[test]
fn payloads_come_from_the_pool_of_their_size(rt: HostRuntime) {
    let Some(mut pools) = new_pools(rt.alloc()) else {
        return all(&rt, &[false]);
    };
    are(&rt, &room(&pools), &[2, 2, 1, 1, 0, 0]);
    // A payload of 16 bytes has a block of 32, and one of 100 a block of 128. Each pool begins at the address 4096.
    for _ in 0..2 {
        let found = exchanged(&mut pools).unwrap_or_default();
        are(&rt, &found[0], &[0, 4112, 16]);
        are(&rt, &found[1], &[0, 4144, 16]);
        are(&rt, &found[2], &[1, 4112, 112]);
        are(&rt, &found[3], &[0, 4112, 16]);
        are(&rt, &room(&pools), &[2, 2, 1, 1, 0, 0]);
    }
}

#[test]
fn within_the_counts_none_is_refused(rt: HostRuntime) {
    let Some(mut pools) = new_pools(rt.alloc()) else {
        return all(&rt, &[false]);
    };
    are(&rt, &filled(&mut pools).unwrap_or_default(), &[0; 6]);
    all(&rt, &refused(&mut pools));
    // No memory has so many payloads.
    all(
        &rt,
        &[Partitions::new(rt.alloc(), &[(1, 16), (usize::MAX, 16)]).is_err()],
    );
}

#[test]
fn payloads_of_a_list_are_summed(rt: HostRuntime) {
    are(
        &rt,
        &summed().unwrap_or_default(),
        &[1004, 161664, 16384, 16],
    );
    all(&rt, &too_many().unwrap_or_default());
}
