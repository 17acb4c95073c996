//! Addresses, and ranges of bytes.

use std::num::NonZeroUsize;

/// An address: a nonzero whole number that names a byte of a memory.
pub type Addr = NonZeroUsize;

/// The `len` bytes from the address `start` on.
///
/// A range lies in a memory if it begins no earlier and ends no later than the memory. An empty range has a place too.
/// For example, it may lie at the very end of a memory, which has no byte there.
#[derive(Clone, Copy, Debug, PartialEq, Eq)]
pub struct Range {
    /// The address of the first byte.
    pub start: usize,
    /// The number of bytes.
    pub len: usize,
}

impl Range {
    ghost use Rattle.std.specs.Prelude.{◌↔◌, IsTrue};
    ghost use Rattle.rlsf_base.specs.Range.{LiesIn};

    /// Returns whether the range lies in `space`: whether it begins no earlier and ends no later. Neither range has to end within the
    /// address space.
    ///
    /// Completes in constant time.
    pub fn lies_in(self, space: Range) -> bool
        ensures { IsTrue result ↔ LiesIn self space.start space.len }
    {
        self.start >= space.start
            && self.len <= space.len
            && self.start - space.start <= space.len - self.len
    }
}
