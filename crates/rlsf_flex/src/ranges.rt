//! The ranges that are outstanding at the source, as ghost data: they take no bytes and no time.
ghost use Rattle.std.specs.Prelude.{◌≡◌, ℕ, List, [], ◌∷◌};
ghost use Rattle.std.specs.Borrow.{ftrue};
ghost use Rattle.rlsf_base.specs.declared.memory.range.Range.{Range};
ghost use Rattle.rlsf_flex.specs.Steps.Trim.{older};
ghost use Rattle.rlsf_model.specs.Growth.{longer};

use rlsf_base::memory::Range;
use std::marker::{Model, Send, Sync};

/// The outstanding ranges, the newest first.
#[derive(Drop)]
pub(crate) struct GhostRanges {
    pub(crate) ghost ranges: { List Range },
}

const _: () = prove!(size_of::<GhostRanges>() == 0);

impl Model for GhostRanges {
    ghost also_owns = { λ _. ftrue };
}

unsafe impl Send for GhostRanges {}

unsafe impl Sync for GhostRanges {}

impl GhostRanges {
    /// Returns the list without a range.
    pub(crate) fn new() -> GhostRanges
        ensures { result.ranges ≡ [] }
    {
        GhostRanges {}
    }

    /// Replaces the ranges by others, which are a function of two numbers and the old ones.
    fn advance(&mut self, x: usize, y: usize)
        ghost to: { ℕ → ℕ → List Range → List Range }
        ensures { self.new.ranges ≡ to x y self.old.ranges }
    {}

    /// Adds an outstanding range, as the newest.
    pub(crate) fn give(&mut self, range: Range)
        ensures { self.new.ranges ≡ range ∷ self.old.ranges }
    {
        self.advance(range.start, range.len);
    }

    /// Removes the newest range.
    pub(crate) fn drop_newest(&mut self)
        ensures { self.new.ranges ≡ older self.old.ranges }
    {
        self.advance(0, 0);
    }

    /// Sets the length of the newest range, which has grown.
    pub(crate) fn grow(&mut self, len: usize)
        ensures { self.new.ranges ≡ longer len self.old.ranges }
    {
        self.advance(len, 0);
    }
}
