//! Allocators of single allocations, and one as a source of memory.

ghost use Rattle.std.specs.Prelude.{◌≡◌, ◌≤◌, ◌∷◌, ◌++◌, List, max};
ghost use Rattle.std.specs.Int.NonZero.{non_zero_usize_get};
ghost use Rattle.std.specs.Option.{option_map};
ghost use Rattle.rlsf_base.specs.declared.memory.range.Range.{Range};
ghost use Rattle.rlsf_flex.specs.HeapConstant.{heap_terms-constant};
ghost use Rattle.rlsf_flex.specs.Heap.{Allocation, allocation_at, HeapNote, allocate, deallocate, OwesAllocated, heap_terms, HeapOwes, HeapOwesGrown, HeapLeads};
ghost use Rattle.rlsf_model.specs.Note.{grow};

use crate::source::FlexSource;
use rlsf_base::memory::{Addr, Layout, Range};
use std::num::NonZeroUsize;

/// An allocator: it provides addresses of its space, and takes them back.
///
/// Its meaning has three parts. `space` is its space, which never changes. `owes` holds of the lists of allocations that may be
/// outstanding: addresses with the layouts that they were allocated for. `leads` relates a question and its answer to the allocator before
/// and after. If the answer is `None`, the allocations are unchanged.
pub trait GlobalAlloc {
    ghost space: { Self → Range };

    ghost owes: { Self → List Allocation → Type 0 };

    ghost leads: { Self → HeapNote → Self → Type 0 };

    /// Returns the address of a new allocation, a multiple of the alignment of the layout. The `size` bytes of the layout from there on lie
    /// in the space, and belong to no other allocation. The allocation is then outstanding.
    fn alloc(&mut self, layout: Layout) -> Option<Addr>
        ensures leads { leads self.old (allocate layout.size layout.align (option_map non_zero_usize_get result)) self.new }
        ensures owes { (owed : List Allocation) → owes self.old owed
            → OwesAllocated (space self.old) (owes self.new) owed layout.size layout.align result };

    /// Takes an allocation back. It is then no longer outstanding.
    ///
    /// The address with this layout is outstanding.
    fn dealloc(&mut self, addr: Addr, layout: Layout)
        requires { (before : List Allocation) × (after : List Allocation) × owes self.old (before ++ allocation_at (non_zero_usize_get addr) layout.size layout.align ∷ after) }
        ensures leads { leads self.old (deallocate (allocation_at (non_zero_usize_get addr) layout.size layout.align)) self.new }
        ensures owes { (before after : List Allocation) → owes self.old (before ++ allocation_at (non_zero_usize_get addr) layout.size layout.align ∷ after) → owes self.new (before ++ after) };

    // No question changes the space.
    ghost constant: { (x y : Self) (n : HeapNote) → leads x n y → space y ≡ space x };
}

/// An allocator as a source of memory, whose ranges start at multiples of `ALIGN`, and of at least 32.
///
/// It asks the allocator for each range. The alignment is the greater of `ALIGN` and 32, and the size is rounded up to a multiple of that.
/// If no layout has that size, it returns `None` without asking. It takes ranges back and can't grow them, so an allocator over it may have
/// many small pools.
///
/// `ALIGN` is a power of two. With any other value above 32 no layout is valid, and every request returns `None`.
#[derive(Default, Debug, Copy, Clone)]
pub struct GlobalAllocAsFlexSource<T, const ALIGN: usize>(
    /// The allocator that is asked.
    pub T,
);

impl<T: GlobalAlloc, const ALIGN: usize> FlexSource for GlobalAllocAsFlexSource<T, ALIGN> {
    ghost terms = { λ x. heap_terms (T.space x.0) (max ALIGN 32) };

    ghost owes = { λ x ranges. HeapOwes T.owes (max ALIGN 32) x.0 ranges };

    ghost leads = { λ x n y. HeapLeads T.leads (max ALIGN 32) x.0 n y.0 };

    fn alloc(&mut self, min_size: usize) -> Option<Range> {
        match Layout::from_size_align(min_size, ALIGN.max(32)) {
            Ok(least) => {
                let layout = least.pad_to_align();
                let addr = self.0.alloc(layout)?;
                Some(Range {
                    start: addr.get(),
                    len: layout.size(),
                })
            }
            Err(_) => None,
        }
    }

    // It asks less of its caller than the trait: what the trait requires, no caller of a source that can't grow meets.
    fn realloc_inplace_grow(&mut self, range: Range, min_new_len: usize) -> Option<usize>
        requires { range.len ≤ min_new_len }
        ensures leads { HeapLeads T.leads (max ALIGN 32) self.old.0 (grow range min_new_len result) self.new.0 }
        ensures owes { HeapOwesGrown T.owes T.space (max ALIGN 32) self.old.0 range min_new_len result self.new.0 }
    {
        let _ = (range, min_new_len);
        None
    }

    fn dealloc(&mut self, range: Range) {
        let layout = Layout::from_size_align_unchecked(range.len, ALIGN.max(32));
        if let Some(addr) = NonZeroUsize::new(range.start) {
            self.0.dealloc(addr, layout);
        }
    }

    fn supports_dealloc(&self) -> bool {
        true
    }

    fn supports_realloc_inplace_grow(&self) -> bool {
        false
    }

    fn is_contiguous_growable(&self) -> bool {
        false
    }

    fn min_align(&self) -> usize {
        ALIGN.max(32)
    }

    ghost constant = { λ x y n led. heap_terms-constant T.leads T.space (max ALIGN 32) T.constant x.0 y.0 n led };
}
