//! Fills a block's bytes with one value.
ghost use Rattle.std.specs.Prelude.{◌≡◌, ◌+◌, ◌-◌, ◌^◌, ◌<◌, ◌≤◌, ◌++◌, [], length, replicate, take};
ghost use Rattle.rlsf_base.specs.Changes.{AreBytesHere, IsOwn};
ghost use Rattle.rlsf_base.specs.Steps.Owners.{Becomes};

use super::block::{Base, Bytes};

/// Writes `value` to each of the `len` bytes, which begin at the place `place` of the block. None may be out, and all are then here.
// LLVM makes one call of `memset` of it.
pub(crate) fn fill_bytes(bytes: &mut Bytes, base: Base, place: usize, len: usize, value: u8)
    requires { (base.ptr ≡ bytes.old.at) × (bytes.old.skip ≡ place) × (length bytes.old.bytes ≡ len) × IsOwn bytes.old.out 0 len × (place + len < 2 ^ 63) }
    ensures { Becomes bytes.old bytes.new (replicate len value) [] }
{
    for index in 0..len {
        bytes.write(base, place + index, value);
    }
    bytes.settle();
}

/// Writes `value` to each of the `len` bytes from index `from` on. The bytes begin at the place `place` of the block. None may be out, and
/// those before `from` must be here. All are then here.
pub(crate) fn fill_bytes_from(
    bytes: &mut Bytes,
    base: Base,
    place: usize,
    len: usize,
    from: usize,
    value: u8,
)
    requires own { (base.ptr ≡ bytes.old.at) × (bytes.old.skip ≡ place) × (length bytes.old.bytes ≡ len) × IsOwn bytes.old.out 0 len × (place + len < 2 ^ 63) }
    requires kept { (from ≤ len) × AreBytesHere bytes.old.out 0 from }
    ensures { Becomes bytes.old bytes.new (take from bytes.old.bytes ++ replicate (len - from) value) [] }
{
    for index in from..len {
        bytes.write(base, place + index, value);
    }
    bytes.settle();
}
