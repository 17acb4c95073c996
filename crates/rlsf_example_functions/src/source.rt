//! A source of memory of the caller's own.

ghost use Rattle.std.specs.Prelude.{◌≡◌, ◌<◌, ◌≤◌, ◌+◌, ◌^◌, ◌++◌, ◌∷◌, [], List, MatchOption};
ghost use Rattle.rlsf.specs.Sources.{OwesGrown, Range, dealloc, end_of, grow};
ghost use Rattle.rlsf_example_functions.specs.Rationed.{RationedLeads, RationedOwes, constant_rationed, rationed_in, rationed_terms};

use rlsf::{FlexSource, Range};
use std::marker::Model;

/// A source that provides a number of ranges of its space, one behind another. It grows none and takes none back.
#[derive(Drop)]
pub struct RationedSource {
    space: Range,
    at: usize,
    left: usize,
}

impl Model for RationedSource {
    ghost use Rattle.rlsf.specs.Sources.{IsBump, bump_in};
    ghost use Rattle.rlsf_example_functions.specs.Rationed.{Rationed, rationed_in};

    ghost Value = { Rationed };

    ghost view = { λ s. rationed_in s.space s.at s.left };

    ghost invariant = { λ s. IsBump (bump_in s.space s.at) };
}

impl RationedSource {
    /// A source of `left` ranges of the space.
    ///
    /// The space's end isn't past the greatest address.
    #[tactic(auto, using(rlsf::specs::Sources::bump_owes_none))]
    pub fn new(space: Range, left: usize) -> RationedSource
        requires { end_of space < 2 ^ 64 }
        ensures value { result ≡ rationed_in space space.start left }
        ensures owed { RationedOwes result [] }
    {
        RationedSource {
            space,
            at: space.start,
            left,
        }
    }

    /// The end of `len` bytes from an address on, if the space has them.
    fn end_in_space(&self, start: usize, len: usize) -> Option<usize>
        ensures { MatchOption result (end_of self.now.bump.space < start + len) (λ end. (end ≡ start + len) × (end ≤ end_of self.now.bump.space)) }
    {
        let last = self.space.start + self.space.len;
        let end = start.checked_add(len)?;
        if end <= last { Some(end) } else { None }
    }
}

impl FlexSource for RationedSource {
    ghost terms = { rationed_terms };

    ghost owes = { RationedOwes };

    ghost leads = { RationedLeads };

    fn alloc(&mut self, min_size: usize) -> Option<Range> {
        let left = self.left.checked_sub(1)?;
        let start = self.at.checked_next_multiple_of(32)?;
        let end = self.end_in_space(start, min_size)?;
        self.left = left;
        self.at = end;
        Some(Range {
            start,
            len: min_size,
        })
    }

    // The source neither grows ranges nor takes them back, so nobody can meet what the trait requires of these two calls. They
    // require nothing.
    fn realloc_inplace_grow(&mut self, range: Range, min_new_len: usize) -> Option<usize>
        ensures leads { RationedLeads self.old (grow range min_new_len result) self.new }
        ensures owes { (before after : List Range) → RationedOwes self.old (before ++ range ∷ after)
            → OwesGrown (rationed_terms self.old) (RationedOwes self.new) before range after min_new_len result }
    {
        let _ = (range, min_new_len);
        None
    }

    #[tactic(auto, using(rlsf::specs::Sources::bump_takes))]
    fn dealloc(&mut self, range: Range)
        ensures leads { RationedLeads self.old (dealloc range) self.new }
        ensures owes { (before after : List Range) → RationedOwes self.old (before ++ range ∷ after) → RationedOwes self.new (before ++ after) }
    {
        let _ = range;
    }

    fn supports_dealloc(&self) -> bool {
        false
    }

    fn supports_realloc_inplace_grow(&self) -> bool {
        false
    }

    fn is_contiguous_growable(&self) -> bool {
        false
    }

    fn min_align(&self) -> usize {
        32
    }

    ghost constant = { constant_rationed };
}
