//! Marks: a code of one byte for each multiple of 16 in a memory.

ghost use Rattle.std.specs.Prelude.{◌≡◌, ◌≤◌, ◌^◌, ◌-◌, ◌%◌, ℕ, IfSome, suc};
ghost use Rattle.rlsf_model_sizes.specs.PowerOfTwo.{IsPowerOfTwo, floor_log2};
ghost use Rattle.rlsf_base.specs.Range.{end_of};
ghost use Rattle.rlsf_base.specs.Space.{range_of};
ghost use Rattle.rlsf_codes.specs.Codes.{HasPlace, code_at};

use rlsf_base::memory::Memory;
use rlsf_codes::Codes;
use std::alloc::Global;

/// Returns the marks of a memory, all of them 0 and stored. Returns `None` if the system has no memory for them.
pub(crate) fn no_marks(alloc: Global, memory: &Memory) -> Option<Codes<u8>>
    ensures none { IfSome result (λ m. (a : ℕ) → code_at m a ≡ 0) }
    ensures covers { IfSome result (λ m. (a : ℕ) → a % 16 ≡ 0 → memory.now.start ≤ a → a ≤ end_of (range_of memory.now) → HasPlace m a) }
{
    let mut marks = Codes::new(alloc, memory.start(), memory.len(), 0);
    marks.reserve().ok()?;
    marks.cover(usize::MAX);
    Some(marks)
}

/// Returns the mark of an alignment: one more than its logarithm.
pub(crate) fn mark_of(align: usize) -> u8
    requires { IsPowerOfTwo align }
    ensures { result ≡ suc (floor_log2 align) }
{
    align.ilog2() as u8 + 1
}

/// Returns the alignment of a mark.
pub(crate) fn align_of(mark: u8) -> usize
    requires { (1 ≤ mark) × (mark ≤ 64) }
    ensures { result ≡ 2 ^ (mark - 1) }
{
    1 << (mark - 1)
}
