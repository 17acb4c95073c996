//! The bump source: it provides exactly the requested bytes, from a cursor on.

ghost use Rattle.std.specs.Prelude.{◌≡◌, ◌<◌, ◌≤◌, ◌+◌, ◌^◌, ◌++◌, ◌∷◌, List, [], MatchOption};
ghost use Rattle.rlsf_base.specs.declared.memory.range.Range.{Range};
ghost use Rattle.rlsf_base.specs.Range.{end_of};
ghost use Rattle.rlsf_model.specs.Note.{dealloc};
ghost use Rattle.rlsf_flex.specs.Bump.{BumpLeads, BumpOwes, bump_in, bump_terms};
ghost use Rattle.rlsf_flex.specs.BumpConstant.{constant_bump};

use crate::source::FlexSource;
use rlsf_base::memory::Range;
use std::marker::Model;

/// A source of one range of its space, which begins at a multiple of 32 and grows by exactly the requested bytes. It takes no range back.
#[derive(Drop)]
pub struct BumpSource {
    space: Range,
    at: usize,
}

impl Model for BumpSource {
    ghost use Rattle.rlsf_flex.specs.Bump.{Bump, IsBump, bump_in};

    ghost Value = { Bump };

    ghost view = { λ s. bump_in s.space s.at };

    ghost invariant = { λ s. IsBump (bump_in s.space s.at) };
}

impl BumpSource {
    /// Creates a source of the space, which has not provided anything yet.
    ///
    /// The end of the space isn't past the greatest address.
    ///
    /// Completes in constant time.
    pub fn new(space: Range) -> BumpSource
        requires { end_of space < 2 ^ 64 }
        ensures value { result ≡ bump_in space space.start }
        ensures owed { BumpOwes result [] }
    {
        BumpSource {
            space,
            at: space.start,
        }
    }

    /// Returns the end of `len` bytes from an address on, if the space contains them.
    fn end_in_space(&self, start: usize, len: usize) -> Option<usize>
        ensures { MatchOption result (end_of self.now.space < start + len) (λ end. (end ≡ start + len) × (end ≤ end_of self.now.space)) }
    {
        let last = self.space.start + self.space.len;
        let end = start.checked_add(len)?;
        if end <= last { Some(end) } else { None }
    }
}

/// `alloc` provides exactly the requested bytes, from the first multiple of 32 at or behind the cursor on, and moves the cursor to their
/// end. It returns `None` exactly if the space ends before that.
///
/// A range grows to exactly the requested length if it ends at the cursor and the space contains the bytes. The cursor is then at its new
/// end.
///
/// If a call returns `None`, nothing changes.
impl FlexSource for BumpSource {
    ghost terms = { bump_terms };

    ghost owes = { BumpOwes };

    ghost leads = { BumpLeads };

    fn alloc(&mut self, min_size: usize) -> Option<Range> {
        let start = self.at.checked_next_multiple_of(32)?;
        let end = self.end_in_space(start, min_size)?;
        self.at = end;
        Some(Range {
            start,
            len: min_size,
        })
    }

    fn realloc_inplace_grow(&mut self, range: Range, min_new_len: usize) -> Option<usize> {
        if self.at != range.start + range.len {
            return None;
        }
        let end = self.end_in_space(range.start, min_new_len)?;
        self.at = end;
        Some(min_new_len)
    }

    // It asks nothing of its caller: what the trait requires, no caller of a source that takes nothing back meets.
    #[tactic(auto, using(crate::proofs::BumpRanges::bump_takes))]
    fn dealloc(&mut self, range: Range)
        ensures leads { BumpLeads self.old (dealloc range) self.new }
        ensures owes { (before after : List Range) → BumpOwes self.old (before ++ range ∷ after) → BumpOwes self.new (before ++ after) }
    {
        let _ = range;
    }

    fn supports_dealloc(&self) -> bool {
        false
    }

    fn supports_realloc_inplace_grow(&self) -> bool {
        true
    }

    fn is_contiguous_growable(&self) -> bool {
        true
    }

    fn min_align(&self) -> usize {
        32
    }

    ghost constant = { constant_bump };
}
