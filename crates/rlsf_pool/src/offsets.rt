//! The exports of a space: offsets in units of a memory that the library never accesses. `include/rlsf_offsets.h` declares them.

ghost use Rattle.std.specs.Borrow.{sem};
ghost use Rattle.std.specs.Prelude.{◌≡◌};
ghost use Rattle.rlsf_pool.specs.Handle.{HasRoomForSpace, HoldsSomeSpace, HoldsSpace, space_size};
ghost use Rattle.rlsf_pool_calls.specs.Spaces.{AllocatesIn, FreesIn, GrowsIn, IsSpaceMade, ResizesIn, SpaceValue, TellsIn, TotalsIn, ended_space, space_status, space_units};

use rlsf_blocks::Totals;
use rlsf_pool_calls::answers::Answer;
use rlsf_pool_calls::space::{OffsetSpace, discard, finish};
use std::alloc::Global;
use std::mem::size_of;

/// Returns the size of a handle in bytes.
#[unsafe(no_mangle)]
pub extern "C" fn rlsf_offsets_size() -> usize
    ensures { result ≡ space_size }
{
    size_of::<OffsetSpace>()
}

/// Makes a space in memory that has room for one. Returns 0, or the error because of which there is no space.
#[unsafe(no_mangle)]
pub unsafe extern "C" fn rlsf_offsets_init(
    space: *mut u8,
    alloc: Global,
    units: usize,
    limit: usize,
) -> usize
    requires* { sem 𝓛 (HasRoomForSpace space) }
    ensures* { sem 𝓛 (HoldsSomeSpace space (λ after. IsSpaceMade units limit after × (result ≡ space_status after))) }
{
    std::ptr::write(
        space as *mut OffsetSpace,
        OffsetSpace::new(alloc, units, limit),
    );
    OffsetSpace::status(&mut *(space as *mut OffsetSpace))
}

/// Ends a space: drops it. Afterwards all calls find no space, and another `rlsf_offsets_destroy` changes nothing.
#[unsafe(no_mangle)]
pub unsafe extern "C" fn rlsf_offsets_destroy(space: *mut u8)
    ghost before: { SpaceValue }
    requires* { sem 𝓛 (HoldsSpace space before) }
    ensures* { sem 𝓛 (HoldsSomeSpace space (λ after. after ≡ ended_space)) }
{
    std::ptr::write(
        space as *mut OffsetSpace,
        finish(std::ptr::read(space as *const OffsetSpace)),
    );
}

/// Does nothing. It is the law that the handle of an ended space is room for another, which `rlsf_offsets_init` requires.
#[unsafe(no_mangle)]
pub unsafe extern "C" fn rlsf_offsets_room(space: *mut u8)
    ghost before: { SpaceValue }
    requires* { sem 𝓛 (HoldsSpace space before) ∗ ⌜ before ≡ ended_space ⌝ }
    ensures* { sem 𝓛 (HasRoomForSpace space) }
{
    discard(std::ptr::read(space as *const OffsetSpace));
}

/// Returns the number of units of the space. Nothing changes.
#[unsafe(no_mangle)]
pub unsafe extern "C" fn rlsf_offsets_units(space: *mut u8) -> usize
    ghost before: { SpaceValue }
    requires* { sem 𝓛 (HoldsSpace space before) }
    ensures* { sem 𝓛 (HoldsSomeSpace space (λ after. (result ≡ space_units before) × (after ≡ before))) }
{
    OffsetSpace::units(&mut *(space as *mut OffsetSpace))
}

/// Allocates a range. Returns its offset.
#[unsafe(no_mangle)]
pub unsafe extern "C" fn rlsf_offsets_allocate(space: *mut u8, units: usize, align: usize) -> Answer
    ghost before: { SpaceValue }
    requires* { sem 𝓛 (HoldsSpace space before) }
    ensures* { sem 𝓛 (HoldsSomeSpace space (λ after. AllocatesIn before units align result after)) }
{
    OffsetSpace::allocate(&mut *(space as *mut OffsetSpace), units, align)
}

/// Deallocates a range.
#[unsafe(no_mangle)]
pub unsafe extern "C" fn rlsf_offsets_free(space: *mut u8, offset: usize) -> usize
    ghost before: { SpaceValue }
    requires* { sem 𝓛 (HoldsSpace space before) }
    ensures* { sem 𝓛 (HoldsSomeSpace space (λ after. FreesIn before offset result after)) }
{
    OffsetSpace::free(&mut *(space as *mut OffsetSpace), offset)
}

/// Changes the number of units of a range in place.
#[unsafe(no_mangle)]
pub unsafe extern "C" fn rlsf_offsets_resize(space: *mut u8, offset: usize, units: usize) -> usize
    ghost before: { SpaceValue }
    requires* { sem 𝓛 (HoldsSpace space before) }
    ensures* { sem 𝓛 (HoldsSomeSpace space (λ after. ResizesIn before offset units result after)) }
{
    OffsetSpace::resize(&mut *(space as *mut OffsetSpace), offset, units)
}

/// Makes the space longer.
#[unsafe(no_mangle)]
pub unsafe extern "C" fn rlsf_offsets_grow(space: *mut u8, units: usize) -> usize
    ghost before: { SpaceValue }
    requires* { sem 𝓛 (HoldsSpace space before) }
    ensures* { sem 𝓛 (HoldsSomeSpace space (λ after. GrowsIn before units result after)) }
{
    OffsetSpace::grow(&mut *(space as *mut OffsetSpace), units)
}

/// Returns the number of units of a range. Nothing changes.
#[unsafe(no_mangle)]
pub unsafe extern "C" fn rlsf_offsets_len(space: *mut u8, offset: usize) -> Answer
    ghost before: { SpaceValue }
    requires* { sem 𝓛 (HoldsSpace space before) }
    ensures* { sem 𝓛 (HoldsSomeSpace space (λ after. TellsIn before offset result × (after ≡ before))) }
{
    OffsetSpace::len(&mut *(space as *mut OffsetSpace), offset)
}

/// Returns the totals of the space. Nothing changes.
#[unsafe(no_mangle)]
pub unsafe extern "C" fn rlsf_offsets_stats(space: *mut u8) -> Totals
    ghost before: { SpaceValue }
    requires* { sem 𝓛 (HoldsSpace space before) }
    ensures* { sem 𝓛 (HoldsSomeSpace space (λ after. TotalsIn before result × (after ≡ before))) }
{
    OffsetSpace::stats(&mut *(space as *mut OffsetSpace))
}
