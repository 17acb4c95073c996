//! Heaps over ranges of one memory.
ghost use Rattle.std.specs.Prelude.{◌≡◌, ◌≢◌, ◌↔◌, ◌+◌, ◌^◌, ◌<◌, ◌≤◌, ℕ, Some, None, IfSome, IfNone, IsSome, IsNone, IsTrue, true, false};
ghost use Rattle.rlsf_model.specs.Allocate.{Allocates};
ghost use Rattle.rlsf_model.specs.Callers.{align_at};
ghost use Rattle.rlsf_model.specs.Release.{Deallocates};
ghost use Rattle.rlsf_base.specs.Range.{range_at};
ghost use Rattle.rlsf_model_sizes.specs.SizeClass.{IsValid};

use crate::lease::{Lease, START};
use crate::local::LocalHeap;
use crate::unit_heap::over_all;
use rlsf_base::memory::{OpenMemory, UnitPayload};
use rlsf_heap::Heap;
use rlsf_int::BitPattern;
use std::alloc::Global;

/// The length from which on a range is refused.
const TOO_LONG: usize = 1 << 58;

// Returns whether a range of `len` bytes is refused for its length.
fn is_too_long(len: usize) -> bool
    ensures { IsTrue result ↔ (2 ^ 58 ≤ len) }
{
    len >= TOO_LONG
}

/// A heap over a range of another heap's memory, as the allocator of one thread's collections. The range is a payload of
/// that heap, the pool, which has the same parameters. So several tenants share one memory, and none can use the range of another.
///
/// `end` deallocates the range. Dropping a tenant leaks it: the range stays live in the pool.
#[derive(Drop)]
pub struct Tenant<
    FLBitmap: BitPattern,
    SLBitmap: BitPattern,
    const FLLEN: usize,
    const SLLEN: usize,
> {
    local: LocalHeap<Box<Heap<FLBitmap, SLBitmap, FLLEN, SLLEN>>>,
    pub(crate) lease: Lease,
    pub ghost tied: { local.slot.heap.home ≡ lease.memory },
}

impl<FLBitmap: BitPattern, SLBitmap: BitPattern, const FLLEN: usize, const SLLEN: usize> Tenant<
    FLBitmap,
    SLBitmap,
    FLLEN,
    SLLEN,
> {
    ghost use Rattle.rlsf_heap.specs.Heap.{Steps};
    ghost use Rattle.rlsf_heap.specs.Frame.{KeepsFrame, KeepsFrameBeside};
    ghost use Rattle.rlsf_heap.specs.Replies.{IsGone, IsUnchanged};
    ghost use Rattle.rlsf_heap.specs.Units.{identity_of};
    ghost use Rattle.rlsf_local_heap.specs.Constants.{chunks_of_range};
    ghost use Rattle.rlsf_local_heap.specs.Tenants.{IsLet, lessor};

    /// Creates a heap over a range of `pool`: a payload of it for `len` bytes, aligned to 16, which has up to 31 bytes more. The
    /// other payloads of `pool` stay as they are. The range is the only pool of the new heap (`pool`). A range of less than 64 bytes,
    /// for a `len` up to 48, holds no pool: each allocation is then refused.
    ///
    /// At most 27 word accesses of `pool`'s memory, whatever the pools contain. Asks the system once, for the fields of the new heap, and
    /// takes time proportional to the number of classes and of the new heap's chunks.
    ///
    /// Returns `None` if `pool` refuses such a payload, if its memory has no units of 16 bytes, if `len` is 2^58 or more, or if
    /// the system has no memory for the new heap's own fields. Then the state of `pool` and the values of its bytes are as they
    /// were. The parameters must be valid (`Heap::new`).
    ///
    /// From `crates/rlsf_example_tenants/src/words.rt`:
    ///
    /// ```
    /// let tenant = Tenant::new(&mut pool, alloc, 8176)?;
    /// let counted = occurrences(tenant.heap(), text)?;
    /// ```
    pub fn new(
        pool: &mut Heap<FLBitmap, SLBitmap, FLLEN, SLLEN>,
        alloc: Global,
        len: usize,
    ) -> Option<Self>
        requires { IsValid FLBitmap.width SLBitmap.width FLLEN SLLEN }
        ensures step { IfSome result (λ t. Steps FLLEN SLLEN pool.new (Allocates SLLEN pool.old.state len 16 (Some t.lease.start))) }
        ensures result { IfSome result (λ t. IsLet FLLEN pool.old pool.new len t.lease t.local.slot.chunks) }
        ensures aligns { (a : ℕ) → align_at pool.old.state a ≢ None → align_at pool.new.state a ≡ align_at pool.old.state a }
        ensures refused { IfNone result (IsUnchanged pool.old pool.new) }
        ensures frame { KeepsFrame pool.old pool.new }
        ensures touches { pool.new.memory.touches ≤ pool.old.memory.touches + 27 }
    {
        if is_too_long(len) || !pool.has_units() {
            return None;
        }
        let fields = Self::fields(alloc)?;
        let payload = pool.allocate_units(len);
        Self::over(alloc, fields, payload)
    }

    /// Returns the allocator, which collections hold a `&` to.
    ///
    /// Completes in constant time.
    ///
    /// From `crates/rlsf_example_tenants/src/words.rt`:
    ///
    /// ```
    /// let counted = occurrences(tenant.heap(), text)?;
    /// Some((counted, tenant.end(&mut pool)))
    /// ```
    pub fn heap(&self) -> &LocalHeap<Box<Heap<FLBitmap, SLBitmap, FLLEN, SLLEN>>>
        ensures { result.now.slot ≡ self.now.local.slot }
    {
        &self.local
    }

    /// Ends the heap, and deallocates its range in `pool`, whose other payloads stay as they are. Returns whether it did so. If
    /// a block is out, which a collection leaked, it doesn't: the range stays live, and nothing changes. No byte of the pool beside
    /// the range becomes raw (`raw`).
    ///
    /// The tenant must be one of `pool`.
    ///
    /// At most 32 word accesses of `pool`'s memory, whatever the pools contain. The fields of the heap are returned to the system.
    ///
    /// From `crates/rlsf_example_tenants/src/main.rt`:
    ///
    /// ```
    /// let before = has_room(pool, rt.alloc());
    /// let ended = shop.end(pool);
    /// let after = has_room(pool, rt.alloc());
    /// ```
    pub fn end(self, pool: &mut Heap<FLBitmap, SLBitmap, FLLEN, SLLEN>) -> bool
        requires { lessor self.lease ≡ pool.old.identity }
        ensures step { result ≡ true → Steps FLLEN SLLEN pool.new (Deallocates pool.old.state self.lease.start) }
        ensures result { result ≡ true → IsGone pool.old.state pool.new.state self.lease.start }
        ensures aligns { (a : ℕ) → a ≢ self.lease.start → align_at pool.new.state a ≡ align_at pool.old.state a }
        ensures refused { result ≡ false → pool.new ≡ pool.old }
        ensures frame { KeepsFrameBeside pool.old pool.new (range_at self.lease.start self.lease.memory.len) }
        ensures touches { pool.new.memory.touches ≤ pool.old.memory.touches + 32 }
    {
        let Tenant { local, lease } = self;
        let Some(heap) = local.into_heap() else {
            return false;
        };
        let heap = Box::into_inner(heap);
        if heap.live() != 0 || heap.is_lent() {
            return false;
        }
        pool.deallocate_units(lease.end(heap.into_memory()));
        true
    }

    // Creates a heap over a payload, if there is one, in place of the heap of no bytes in `fields`.
    fn over(
        alloc: Global,
        mut fields: Box<Heap<FLBitmap, SLBitmap, FLLEN, SLLEN>>,
        payload: Option<UnitPayload>,
    ) -> Option<Self>
        requires valid { IsValid FLBitmap.width SLBitmap.width FLLEN SLLEN }
        requires small { IfSome payload (λ p. (p.len < 2 ^ 59) × (p.kept ≡ 0)) }
        ensures some { IfSome payload (λ p. IsSome result) }
        ensures none { IfNone payload (IsNone result) }
        ensures lease { IfSome payload (λ p. IfSome result (λ t. (lessor t.lease ≡ identity_of p) × (t.lease.start ≡ p.start) × (t.lease.memory.len ≡ p.len))) }
        ensures pool { IfSome payload (λ p. IfSome result (λ t. t.local.slot.chunks ≡ chunks_of_range FLLEN (range_at 64 p.len))) }
    {
        let (memory, lease) = Lease::begin(alloc, payload?);
        *fields = over_all(memory);
        Some(Tenant {
            local: LocalHeap::in_a_box(fields),
            lease,
        })
    }

    // Returns a heap of no bytes.
    fn fields(alloc: Global) -> Option<Box<Heap<FLBitmap, SLBitmap, FLLEN, SLLEN>>>
        requires { IsValid FLBitmap.width SLBitmap.width FLLEN SLLEN }
    {
        let empty = OpenMemory::reserve(alloc, START, 0).ok()?;
        Box::new(alloc, Heap::new(empty)).ok()
    }
}
