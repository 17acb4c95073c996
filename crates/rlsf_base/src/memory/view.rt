//! The place of a memory's words in its block.
ghost use Rattle.std.specs.Prelude.{◌≡◌, ◌+◌, ◌%◌, ◌^◌};
ghost use Rattle.rlsf_base.specs.Steps.Block.{view_of};

use super::block::Base;

/// The place of a memory's bytes in its block, made once for many word accesses. It owns nothing.
#[derive(Clone, Copy)]
pub struct View {
    pub(crate) base: Base,
    // What is added to an address to get its place in the block, where what passes a word is cut off: a multiple of 8, and of
    // 16 if the block is the system's.
    shift: usize,
}

impl View {
    /// Returns the view of a memory whose block begins at `base`. An address plus `shift` is its place there.
    pub(crate) fn new(base: Base, shift: usize) -> View
        ensures { result ≡ view_of base shift }
    {
        View { base, shift }
    }

    /// Returns the place in the block of the byte at `addr`.
    #[inline(always)]
    pub(crate) fn place(self, addr: usize) -> usize
        ensures { result ≡ (self.shift + addr) % 2 ^ 64 }
    {
        self.shift.wrapping_add(addr)
    }
}
