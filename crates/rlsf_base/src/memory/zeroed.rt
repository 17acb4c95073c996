//! The block of a memory, zeroed when it is allocated, and the system's allocator, which deallocates it.
ghost use Rattle.std.specs.Prelude.{◌≡◌, ◌+◌, ◌-◌, ◌/◌, ◌^◌, ◌≤◌, [], length, replicate, IfSome, IsSome};
ghost use denote.RawPtr.{null_ptr};
ghost use Rattle.rlsf_base.specs.Changes.{IsAllOwn, IsOwn};
ghost use Rattle.rlsf_base.specs.Steps.Block.{IsSupplierOf};
ghost use Rattle.rlsf_base.specs.Steps.Ownership.{units_for};

use super::block::{Base, Bytes, Deed, allocate, deallocate, forget, no_block};
use super::filling::fill_bytes;
use std::alloc::Global;

/// The system's allocator, with which a block was allocated, and the right to deallocate that block. It takes no space.
///
/// No other module reaches the allocator in it. The owner of a supplier, or of a reference to one, can't allocate memory.
/// It can only deallocate the block.
pub(crate) struct Supplier {
    deed: Deed<Global>,
    alloc: Global,
}

/// The most bytes of a block: no system has so many. They are complete units of 16 bytes, and their number times 32 fits in a `usize`.
const MAX_LEN: usize = 0x07ff_ffff_ffff_fff0;

fn units(skip: usize, len: usize) -> usize
    requires { skip + len ≤ 2 ^ 63 - 16 }
    ensures { result ≡ units_for skip len }
{
    (skip + len + 15) / 16
}

/// Allocates a block, and returns its `len` bytes from the byte `skip` on, all raw. If `len` is zero, no block is allocated.
pub(crate) fn take_raw(alloc: Global, skip: usize, len: usize) -> Option<(Base, Bytes, Supplier)>
    requires { skip ≤ 15 }
    ensures bytes { IfSome result (λ r. (r.0.ptr ≡ r.1.at) × (r.1.skip ≡ skip) × (length r.1.bytes ≡ len) × (skip + len ≤ 2 ^ 59 - 16) × IsAllOwn r.1.out × (r.1.units ≡ units_for skip len)) }
    ensures supplier { IfSome result (λ r. IsSupplierOf r.0 skip len r.2) }
    ensures empty { len ≡ 0 → IsSome result }
{
    if len == 0 {
        let (base, bytes, deed) = no_block(&alloc, skip);
        return Some((base, bytes, Supplier { deed, alloc }));
    }
    if MAX_LEN - skip < len {
        return None;
    }
    let (base, bytes, deed) = allocate(&alloc, units(skip, len), skip, len)?;
    Some((base, bytes, Supplier { deed, alloc }))
}

/// The same, all zero.
pub(crate) fn take_zeroed(alloc: Global, skip: usize, len: usize) -> Option<(Base, Bytes, Supplier)>
    requires { skip ≤ 15 }
    ensures bytes { IfSome result (λ r. (r.0.ptr ≡ r.1.at) × (r.1.skip ≡ skip) × (r.1.bytes ≡ replicate len 0) × (skip + len ≤ 2 ^ 59 - 16) × (r.1.out ≡ []) × (r.1.units ≡ units_for skip len)) }
    ensures supplier { IfSome result (λ r. IsSupplierOf r.0 skip len r.2) }
    ensures empty { len ≡ 0 → IsSome result }
{
    let (base, mut bytes, supplier) = take_raw(alloc, skip, len)?;
    fill_bytes(&mut bytes, base, skip, len, 0);
    Some((base, bytes, supplier))
}

/// Returns the supplier of no block.
pub(crate) fn no_supplier(alloc: Global) -> Supplier
    ensures { result.deed.at ≡ null_ptr }
{
    let (_, none, deed) = no_block(&alloc, 0);
    none.end();
    Supplier { deed, alloc }
}

impl Supplier {
    /// Drops the right to deallocate: the block is never deallocated.
    pub(crate) fn end(self) {
        let Supplier { deed, alloc: _ } = self;
        deed.end();
    }

    /// Consumes bytes of which no block is to be deallocated.
    pub(crate) fn let_go(self, bytes: Bytes)
        requires { self.deed.at ≡ null_ptr }
    {
        let Supplier { deed, alloc: _ } = self;
        forget(bytes, deed);
    }

    /// Deallocates the block, if there is one.
    pub(crate) fn give_back(self, base: Base, skip: usize, len: usize, bytes: Bytes)
        requires bytes { (base.ptr ≡ bytes.at) × (bytes.skip ≡ skip) × (length bytes.bytes ≡ len) × IsOwn bytes.out 0 (length bytes.bytes) × (bytes.units ≡ units_for skip len) }
        requires bound { skip + len ≤ 2 ^ 63 - 16 }
        requires supplier { IsSupplierOf base skip len self }
    {
        let Supplier { deed, alloc } = self;
        if len == 0 {
            forget(bytes, deed);
        } else {
            deallocate(&alloc, base, units(skip, len), bytes, deed);
        }
    }
}
