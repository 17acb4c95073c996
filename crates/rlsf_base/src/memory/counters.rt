//! The two counts of a memory. They are ghost data: they take no bytes and no time.
ghost use Rattle.std.specs.Prelude.{◌≡◌, ℕ, ◌+◌};
ghost use Rattle.std.specs.Borrow.{ftrue};

use std::marker::{Model, Send, Sync};

/// The number of word accesses (touches), and of copied bytes, since the memory was created.
#[derive(Drop)]
pub(crate) struct Counters {
    ghost touches: { ℕ },
    ghost copied: { ℕ },
}

impl Model for Counters {
    ghost also_owns = { λ _. ftrue };
}

unsafe impl Send for Counters {}

unsafe impl Sync for Counters {}

impl Counters {
    pub(crate) fn new() -> Counters
        ensures { (result.touches ≡ 0) × (result.copied ≡ 0) }
    {
        Counters {}
    }

    // Moves both counts.
    fn count(&mut self, touches: usize, copied: usize)
        ensures { (self.new.touches ≡ self.old.touches + touches) × (self.new.copied ≡ self.old.copied + copied) }
    {}

    /// Counts one touch.
    pub(crate) fn count_touch(&mut self)
        ensures { (self.new.touches ≡ self.old.touches + 1) × (self.new.copied ≡ self.old.copied) }
    {
        self.count(1, 0);
    }

    /// Counts `bytes` copied bytes.
    pub(crate) fn count_copy(&mut self, bytes: usize)
        ensures { (self.new.touches ≡ self.old.touches) × (self.new.copied ≡ self.old.copied + bytes) }
    {
        self.count(0, bytes);
    }
}
