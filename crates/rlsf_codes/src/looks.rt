//! A count of the codes that calls read or write. It is ghost data: it takes no bytes and no time.

ghost use Rattle.std.specs.Prelude.{◌≡◌, ℕ, ◌+◌};
ghost use Rattle.std.specs.Borrow.{ftrue};

use std::marker::{Model, Send, Sync};

/// How many codes were read or written.
#[derive(Drop)]
pub(crate) struct Looks {
    ghost count: { ℕ },
}

impl Model for Looks {
    ghost also_owns = { λ _. ftrue };
}

unsafe impl Send for Looks {}

unsafe impl Sync for Looks {}

impl Looks {
    /// Creates a count of no codes.
    pub(crate) fn new() -> Looks
        ensures { result.count ≡ 0 }
    {
        Looks {}
    }

    /// Counts so many codes.
    pub(crate) fn add(&mut self, codes: usize)
        ensures { self.new.count ≡ self.old.count + codes }
    {}
}
