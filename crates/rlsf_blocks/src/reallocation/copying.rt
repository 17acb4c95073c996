//! Copies the bytes of a payload that moves.

ghost use Rattle.std.specs.Prelude.{◌≡◌, ◌+◌, ◌%◌, ◌≤◌, ◌⊎◌, [], length};
ghost use Rattle.rlsf_base.specs.Range.{LiesIn, end_of, range_at};
ghost use Rattle.rlsf_base.specs.Space.{bytes_in, with_bytes};
ghost use Rattle.rlsf_base.specs.OpenSpace.{IsHere, IsOwned, out_with};

use rlsf_base::memory::{OpenMemory, Range, View};

/// Copies the bytes of `range` to the same number of bytes from `to` on, as `copy_within` of the memory does. `WHOLE` is 1
/// for a memory of which no byte is raw or out: its bytes are copied by `memmove`, and otherwise in units of 16 bytes.
///
/// The length of `range` must be a multiple of 16, and the bytes from `to` on must begin no later than `range`, or behind it.
#[inline(always)]
pub(crate) fn copy_payload<const WHOLE: usize>(
    memory: &mut OpenMemory,
    view: View,
    range: Range,
    to: usize,
)
    requires from { LiesIn range memory.old.start (length memory.old.bytes) }
    requires to { LiesIn (range_at to range.len) memory.old.start (length memory.old.bytes) }
    requires here { IsHere memory.old range }
    requires own { IsOwned memory.old (range_at to range.len) }
    requires view { view ≡ memory.old.view }
    requires units { (range.len % 16 ≡ 0) × ((end_of range ≤ to) ⊎ (to ≤ range.start)) }
    requires whole { WHOLE ≡ 1 → memory.old.out ≡ [] }
    ensures start { memory.new.start ≡ memory.old.start }
    ensures bytes { memory.new.bytes ≡ with_bytes memory.old to (bytes_in memory.old range) }
    ensures len { length memory.new.bytes ≡ length memory.old.bytes }
    ensures touches { memory.new.touches ≡ memory.old.touches }
    ensures copied { memory.new.copied ≡ memory.old.copied + range.len }
    ensures view { memory.new.view ≡ memory.old.view }
    ensures out { memory.new.out ≡ out_with memory.old (range_at to range.len) }
{
    if WHOLE == 1 {
        memory.copy_within_whole(range, to);
    } else {
        memory.copy_units_at(view, range, to);
    }
}
