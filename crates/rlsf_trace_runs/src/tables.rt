//! What a run remembers: the live payloads by name, and the pools.

ghost use Rattle.std.specs.Prelude.{◌≡◌, ℕ, ◌+◌, ◌<◌, ◌^◌, [], ◌∷◌, length, slice_index_or, slice_set, nat_eq, if◌then◌else◌, IsPermutation, IfOk, OnOk, Some, None};
ghost use Rattle.std.specs.HashMap.{get, IsEmpty};
ghost use Rattle.rlsf_base.specs.declared.memory.range.Range.{Range};
ghost use Rattle.rlsf_base.specs.Range.{end_of};
ghost use Rattle.rlsf_trace_runs.specs.Runs.{longer_pool};
ghost use Rattle.rlsf_trace_runs.specs.Steps.Pools.{ArePoolsApart, AreInRuns, AreInAddressOrder};
ghost use Rattle.rlsf_trace_runs.specs.Steps.Tables.{HaveRoomForOps};

use crate::names::Payload;
use crate::pools::Pools;
use rlsf_base::memory::Range;
use std::alloc::{AllocError, Global};
use std::collections::HashMap;

/// What a run remembers: where each live payload is, by its name, and the pools.
#[derive(Drop)]
pub struct Tables {
    /// The live payloads.
    pub names: HashMap<usize, Payload>,
    /// The pools.
    pub pools: Pools,
}

impl Tables {
    /// Empty tables with room for so many ops, or an error if the system is out of memory.
    pub fn with_room(alloc: Global, ops: usize) -> Result<Tables, AllocError>
        ensures empty { IfOk result (λ tables. IsEmpty tables.names × (tables.pools.ranges.items ≡ []) × (tables.pools.firsts.items ≡ [])) }
        ensures room { IfOk result (λ tables. HaveRoomForOps tables ops) }
    {
        let names = HashMap::with_capacity(alloc, ops)?;
        let pools = Pools::with_room(alloc, ops)?;
        Ok(Tables { names, pools })
    }

    /// Makes room for one op more, or returns an error if the system is out of memory. Names and pools are unchanged.
    pub fn make_room(&mut self) -> Result<(), AllocError>
        ensures names { (name : ℕ) → get nat_eq self.new.names name ≡ get nat_eq self.old.names name }
        ensures pools { (self.new.pools.ranges.items ≡ self.old.pools.ranges.items) × (self.new.pools.firsts.items ≡ self.old.pools.firsts.items) }
        ensures room { OnOk result (HaveRoomForOps self.new 1) }
    {
        self.names.try_reserve(1)?;
        self.pools.ranges.try_reserve(1)
    }

    /// Puts the pools in the order of their addresses.
    pub fn sort_pools(&mut self)
        requires { ArePoolsApart self.old.pools.ranges.items }
        ensures pools { IsPermutation self.old.pools.ranges.items self.new.pools.ranges.items }
        ensures in_runs { AreInRuns self.new.pools.ranges.items self.new.pools.firsts.items }
        ensures in_order { AreInAddressOrder self.new.pools.ranges.items }
        ensures names { self.new.names ≡ self.old.names }
    {
        self.pools.sort();
    }

    /// Adds a pool. There is room for it.
    pub(crate) fn add_pool(&mut self, pool: Range)
        requires room { HaveRoomForOps self.old 1 }
        requires in_runs { AreInRuns self.old.pools.ranges.items self.old.pools.firsts.items }
        ensures pools { IsPermutation (pool ∷ self.old.pools.ranges.items) self.new.pools.ranges.items }
        ensures in_runs { AreInRuns self.new.pools.ranges.items self.new.pools.firsts.items }
        ensures names { self.new.names ≡ self.old.names }
        ensures room { (ops : ℕ) → HaveRoomForOps self.old (ops + 1) → HaveRoomForOps self.new ops }
    {
        self.pools.add(pool);
    }

    /// Lengthens the pool at a place by so many bytes.
    pub(crate) fn lengthen_pool(&mut self, place: usize, more: usize)
        requires { (place < length self.old.pools.ranges.items) × ((d : Range) → end_of (slice_index_or self.old.pools.ranges.items place d) + more < 2 ^ 64) }
        ensures pools { (d : Range) → self.new.pools.ranges.items
            ≡ slice_set self.old.pools.ranges.items place (longer_pool more (slice_index_or self.old.pools.ranges.items place d)) }
        ensures firsts { self.new.pools.firsts.items ≡ self.old.pools.firsts.items }
        ensures names { self.new.names ≡ self.old.names }
        ensures room { (ops : ℕ) → HaveRoomForOps self.old (ops + 1) → HaveRoomForOps self.new ops }
    {
        let pool = &mut self.pools.ranges[place];
        pool.len += more;
    }

    /// Names a payload. There is room for it; a payload that had the name has it no more.
    pub(crate) fn add_name(&mut self, name: usize, payload: Payload)
        requires { HaveRoomForOps self.old 1 }
        ensures names { (other : ℕ) → get nat_eq self.new.names other ≡ (if nat_eq name other then Some payload else get nat_eq self.old.names other) }
        ensures pools { self.new.pools ≡ self.old.pools }
        ensures room { (ops : ℕ) → HaveRoomForOps self.old (ops + 1) → HaveRoomForOps self.new ops }
    {
        let _ = self.names.insert(name, payload);
    }

    /// Makes a name free, and returns the payload that had it, if one did.
    pub(crate) fn take_name(&mut self, name: usize) -> Option<Payload>
        ensures value { result ≡ get nat_eq self.old.names name }
        ensures names { (other : ℕ) → get nat_eq self.new.names other ≡ (if nat_eq name other then None else get nat_eq self.old.names other) }
        ensures pools { self.new.pools ≡ self.old.pools }
        ensures room { (ops : ℕ) → HaveRoomForOps self.old (ops + 1) → HaveRoomForOps self.new ops }
    {
        self.names.remove(&name)
    }

    /// The live payload that has the name, if one does.
    pub fn payload(&self, name: usize) -> Option<Payload>
        ensures { result ≡ get nat_eq self.now.names name }
    {
        self.names.get(&name).copied()
    }
}
