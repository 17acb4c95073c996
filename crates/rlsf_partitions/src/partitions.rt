//! Pools of payloads, one for each size of a list.

ghost use Rattle.std.specs.Prelude.{◌≡◌, ◌+◌, ◌<◌, ◌≤◌, ◌↔◌, [], ◌∷◌, ◌++◌, Some, IfNone, IfOk, IfSome, IsErrOf, IsNone, IsOk, OnOk, ℕ, length, map, nat_le, slice_get};
ghost use Rattle.rlsf_model_sizes.specs.Sizes.{pool_size_for_objects};
ghost use Rattle.rlsf_partitions.specs.Partitions.{ArePossible, HasAt, IsFullAt, IsGivenBackAt, IsKept, IsOf, IsPlaced, ArePossibleLengths, IsTakenAt};
ghost use Rattle.rlsf_partitions.specs.Partitions.{fresh, partition_for, partitions_view, quota_of, vacant, with_one_less, with_one_more};

use crate::partition::Partition;
use rlsf_base::memory::MemoryError;
use rlsf_heap::Payload;
use std::alloc::Global;
use std::marker::Model;

/// A payload of a partition. It owns its bytes, and can be kept, moved and written while other payloads are.
///
/// Dropping it leaks it: it stays live.
#[derive(Drop)]
pub struct PartitionPayload {
    /// The payload. Its bytes may be raw, until it is filled.
    pub payload: Payload,
    /// The place of its partition in the list of sizes.
    pub pool: usize,
}

/// Pools of payloads, one for each size of a list. Each has a memory of its own, with room for a fixed number of payloads up to its size.
///
/// Dropping the value deallocates the memory of each pool of which no payload is live. That of the others leaks.
#[derive(Drop)]
pub struct Partitions {
    partitions: Vec<Partition>,
}

impl Model for Partitions {
    ghost use Rattle.rlsf_partitions.specs.Partitions.{PartitionsView, partitions_view};

    ghost Value = { PartitionsView };

    ghost view = { λ p. partitions_view p.partitions.items };
}

impl Partitions {
    /// Creates the pools of a list of pairs: how many payloads a pool has room for, and their greatest size in bytes. Allocates a
    /// memory for each, from the address 4096 on, of the length that `classes::pool_size_for_objects` returns for the pair.
    ///
    /// Returns one of these errors:
    /// - `TooLong` only if there is no such length for a pair, or no memory or layout can be so long
    /// - `OutOfMemory` if the system is out of memory
    pub fn new(alloc: Global, sizes: &[(usize, usize)]) -> Result<Partitions, MemoryError>
        ensures pools { IfOk result (λ p. p.quotas ≡ map fresh sizes.now) }
        ensures possible { IsOk result → ArePossible sizes.now }
        ensures too_long { IsErrOf result MemoryError.TooLong → ArePossible sizes.now → ⊥ }
        ensures ever { IsErrOf result MemoryError.ZeroStart → ⊥ }
    {
        let mut partitions = Vec::new(alloc);
        for index in 0..sizes.len() {
            add(alloc, &mut partitions, pair_at(sizes, index))?;
        }
        Ok(Partitions { partitions })
    }

    /// Returns how many more payloads of `size` bytes have room: so many allocations are not refused.
    pub fn vacant(&self, size: usize) -> usize
        ensures { result ≡ vacant self.now.quotas size }
    {
        vacant_in(&self.partitions, size)
    }

    /// Allocates a payload of at least `size` bytes, in the first pool whose greatest size reaches it. Its address is a multiple of 16.
    /// Its bytes may be raw, until it is filled.
    ///
    /// Returns `None` if and only if no pool's greatest size reaches `size`, or as many payloads of that pool are live as it has room
    /// for; then nothing changes.
    ///
    /// Takes one comparison for each pool before that one, and at most 27 word accesses.
    pub fn allocate(&mut self, size: usize) -> Option<PartitionPayload>
        ensures result { IfSome result (λ p. IsPlaced self.old self.new size p.pool p.payload) }
        ensures room { IsNone result ↔ (vacant self.old.quotas size ≡ 0) }
        ensures refused { IfNone result (self.new ≡ self.old) }
        ensures heaps { self.new.heaps ≡ self.old.heaps }
        ensures sizes { partition_for self.new.quotas ≡ partition_for self.old.quotas }
        ensures touches { self.new.touches ≤ self.old.touches + 27 }
    {
        take_for(&mut self.partitions, size)
    }

    /// Deallocates a payload. Then its pool has room for one more.
    ///
    /// The payload must be one of these pools (`IsOf`).
    ///
    /// Takes at most 32 word accesses.
    pub fn deallocate(&mut self, payload: PartitionPayload)
        requires { IsOf self.old.heaps payload.pool payload.payload }
        ensures freed { self.new.quotas ≡ with_one_less payload.pool self.old.quotas }
        ensures before { self.old.quotas ≡ with_one_more payload.pool self.new.quotas }
        ensures room { (size : ℕ) → partition_for self.old.quotas size ≡ Some payload.pool → vacant self.new.quotas size ≡ vacant self.old.quotas size + 1 }
        ensures heaps { self.new.heaps ≡ self.old.heaps }
        ensures sizes { partition_for self.new.quotas ≡ partition_for self.old.quotas }
        ensures touches { self.new.touches ≤ self.old.touches + 32 }
    {
        let PartitionPayload { payload, pool } = payload;
        give_back(&mut self.partitions, pool, payload);
    }
}

/// Returns the pair at a place.
fn pair_at(sizes: &[(usize, usize)], index: usize) -> (usize, usize)
    requires { index < length sizes.now }
    ensures { slice_get sizes.now index ≡ Some result }
{
    sizes[index]
}

/// Adds a partition for a pair of a count and a size.
fn add(
    alloc: Global,
    partitions: &mut Vec<Partition>,
    pair: (usize, usize),
) -> Result<(), MemoryError>
    ensures added { OnOk result (map quota_of partitions.new.items ≡ map quota_of partitions.old.items ++ fresh pair ∷ []) }
    ensures possible { IsOk result → ArePossibleLengths (pool_size_for_objects 59 8 pair.0 pair.1) }
    ensures too_long { IsErrOf result MemoryError.TooLong → ArePossibleLengths (pool_size_for_objects 59 8 pair.0 pair.1) → ⊥ }
    ensures ever { IsErrOf result MemoryError.ZeroStart → ⊥ }
{
    if partitions.reserve(1).is_err() {
        return Err(MemoryError::OutOfMemory);
    }
    let partition = Partition::new(alloc, pair.0, pair.1)?;
    partitions.push_reserved(partition);
    Ok(())
}

/// Returns the place of the first partition whose greatest size reaches `size`, if there is one.
#[tactic(auto, using(crate::proofs::Lists::none_before, crate::proofs::Lists::none_more, crate::proofs::Lists::first_here, crate::proofs::Lists::none_here))]
fn place_for(partitions: &[Partition], size: usize) -> Option<usize>
    ensures place { result ≡ partition_for (map quota_of partitions.now) size }
    ensures within { IfSome result (λ place. place < length partitions.now) }
{
    for place in 0..partitions.len() {
        if reaches_at(partitions, place, size) {
            return Some(place);
        }
    }
    None
}

/// Returns whether the greatest size of the partition at a place reaches `size`.
fn reaches_at(partitions: &[Partition], place: usize, size: usize) -> bool
    requires { place < length partitions.now }
    ensures { HasAt partitions.now place (λ p. result ≡ nat_le size p.size) }
{
    size <= partitions[place].size()
}

/// Returns how many more payloads of a size have room.
#[tactic(auto, using(crate::proofs::Lists::none_found))]
fn vacant_in(partitions: &[Partition], size: usize) -> usize
    ensures { result ≡ vacant (map quota_of partitions.now) size }
{
    match place_for(partitions, size) {
        Some(place) => vacant_at(partitions, place),
        None => 0,
    }
}

/// Returns how many more payloads of the partition at a place have room.
fn vacant_at(partitions: &[Partition], place: usize) -> usize
    requires { place < length partitions.now }
    ensures { HasAt partitions.now place (λ p. result + p.live ≡ p.count) }
{
    partitions[place].vacant()
}

/// Allocates a payload of the first partition whose greatest size reaches `size`.
#[tactic(auto, using(crate::proofs::Lists::taken_kept, crate::proofs::Lists::some_vacant, crate::proofs::Lists::full_vacant, crate::proofs::Lists::none_found))]
fn take_for(partitions: &mut Vec<Partition>, size: usize) -> Option<PartitionPayload>
    ensures result { IfSome result (λ p. IsPlaced (partitions_view partitions.old.items) (partitions_view partitions.new.items) size p.pool p.payload) }
    ensures room { IsNone result ↔ (vacant (map quota_of partitions.old.items) size ≡ 0) }
    ensures refused { IfNone result (partitions.new.items ≡ partitions.old.items) }
    ensures kept { IsKept (partitions_view partitions.old.items) (partitions_view partitions.new.items) 27 }
{
    let pool = place_for(partitions, size)?;
    let payload = take_at(partitions, pool)?;
    Some(PartitionPayload { payload, pool })
}

/// Allocates a payload of the partition at a place.
fn take_at(partitions: &mut Vec<Partition>, place: usize) -> Option<Payload>
    requires { place < length partitions.old.items }
    ensures taken { IfSome result (λ payload. IsTakenAt partitions.old.items partitions.new.items place payload) }
    ensures full { IsNone result ↔ IsFullAt partitions.old.items place }
    ensures refused { IfNone result (partitions.new.items ≡ partitions.old.items) }
{
    partitions[place].take()
}

/// Deallocates a payload.
fn give_back(partitions: &mut Vec<Partition>, pool: usize, payload: Payload)
    requires { IsOf (map (λ p. p.identity) partitions.old.items) pool payload }
    ensures freed { map quota_of partitions.new.items ≡ with_one_less pool (map quota_of partitions.old.items) }
    ensures before { map quota_of partitions.old.items ≡ with_one_more pool (map quota_of partitions.new.items) }
    ensures room { (size : ℕ) → partition_for (map quota_of partitions.old.items) size ≡ Some pool
        → vacant (map quota_of partitions.new.items) size ≡ vacant (map quota_of partitions.old.items) size + 1 }
    ensures kept { IsKept (partitions_view partitions.old.items) (partitions_view partitions.new.items) 32 }
{
    give_back_at(partitions, pool, payload);
}

/// Deallocates a payload of the partition at a place.
fn give_back_at(partitions: &mut Vec<Partition>, place: usize, payload: Payload)
    requires { IsOf (map (λ p. p.identity) partitions.old.items) place payload }
    ensures { IsGivenBackAt partitions.old.items partitions.new.items place }
{
    partitions[place].give_back(payload);
}
