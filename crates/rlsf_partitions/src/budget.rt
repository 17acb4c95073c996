//! The sums of a list of payloads, by which one pool for all of them gets its length.

ghost use Rattle.std.specs.Prelude.{◌≡◌, ◌+◌, ◌*◌, ◌^◌, ◌≤◌, ◌⊎◌, IfSome, IsNone, max};
ghost use Rattle.rlsf_model_sizes.specs.Sizes.{request_size};
ghost use Rattle.rlsf_partitions.specs.Budgets.{IsSumWith};

use rlsf_base::classes;
use rlsf_base::memory::Layout;

/// Bounds for the live payloads of one pool. `classes::pool_size_for_budget` returns the length for `count`, `bytes` and a layout of `size`
/// and `align`: that pool never refuses a payload while the others are within these bounds.
#[derive(Clone, Copy, Drop)]
pub struct Budget {
    /// How many payloads are live at most.
    pub count: usize,
    /// How many bytes their blocks have together at most.
    pub bytes: usize,
    /// The greatest size of a payload in bytes.
    pub size: usize,
    /// The greatest alignment of a payload.
    pub align: usize,
}

impl Budget {
    /// Returns the budget of an empty list.
    ///
    /// Completes in constant time.
    pub fn new() -> Budget
        ensures { (result.count ≡ 0) × (result.bytes ≡ 0) × (result.size ≡ 0) × (result.align ≡ 1) }
    {
        Budget {
            count: 0,
            bytes: 0,
            size: 0,
            align: 1,
        }
    }

    /// Returns the budget with `count` more payloads of up to `layout`. Returns `None` if and only if their number or their bytes don't fit
    /// in a `usize`.
    ///
    /// Completes in constant time.
    ///
    /// From `crates/rlsf_test_heap/src/partitions.rt`:
    ///
    /// ```
    /// let budget = Budget::new().with(1000, message)?.with(4, frame)?;
    /// ```
    pub fn with(self, count: usize, layout: Layout) -> Option<Budget>
        ensures sum { IfSome result (λ b. IsSumWith self count layout b) }
        ensures none { IsNone result → (2 ^ 64 ≤ self.count + count) ⊎ (2 ^ 64 ≤ self.bytes + count * request_size layout.size layout.align) }
    {
        let more = count.checked_mul(classes::request_size(layout))?;
        Some(Budget {
            count: self.count.checked_add(count)?,
            bytes: self.bytes.checked_add(more)?,
            size: self.size.max(layout.size()),
            align: self.align.max(layout.align()),
        })
    }
}
