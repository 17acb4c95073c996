//! The state of the reference model, as ghost data: it takes no bytes and no time.
ghost use Rattle.std.specs.Prelude.{◌≡◌, ℕ};
ghost use Rattle.std.specs.Borrow.{ftrue};
ghost use Rattle.rlsf_base.specs.Range.{range_at};
ghost use Rattle.rlsf_model.specs.Remove.{removed};
ghost use Rattle.rlsf_model.specs.State.{State, empty};
ghost use Rattle.rlsf_blocks.specs.Blocks.{walked};
ghost use Rattle.rlsf_tlsf.specs.Steps.Moves.{allocated, appended_to, deallocated, inserted, reallocated};

use std::marker::{Model, Send, Sync};

/// The state of the reference model without the bytes of payloads, which are in the memory.
#[derive(Drop)]
pub struct GhostState {
    pub ghost state: { State },
}

const _: () = prove!(size_of::<GhostState>() == 0);

impl Model for GhostState {
    ghost also_owns = { λ _. ftrue };
}

unsafe impl Send for GhostState {}

unsafe impl Sync for GhostState {}

impl GhostState {
    /// Returns the empty state, into which no range was inserted.
    ///
    /// Takes no time.
    pub fn new() -> GhostState
        ensures { result.state ≡ empty }
    {
        GhostState {}
    }

    /// Replaces the state by one that the state before and three numbers determine.
    fn advance(&mut self, x: usize, y: usize, z: usize)
        ghost to: { ℕ → ℕ → ℕ → State → State }
        ensures { self.new.state ≡ to x y z self.old.state }
    {}

    /// Updates the state as an insert does.
    ///
    /// Takes no time.
    pub fn insert(&mut self, fllen: usize, start: usize, len: usize)
        ensures { self.new.state ≡ inserted fllen (range_at start len) self.old.state }
    {
        self.advance(fllen, start, len);
    }

    /// Updates the state as an append does.
    ///
    /// Takes no time.
    pub fn append(&mut self, fllen: usize, start: usize, len: usize)
        ensures { self.new.state ≡ appended_to fllen (range_at start len) self.old.state }
    {
        self.advance(fllen, start, len);
    }

    /// Updates the state as an allocation does that isn't refused.
    ///
    /// Takes no time.
    pub fn allocate(&mut self, sllen: usize, size: usize, align: usize)
        ensures { self.new.state ≡ allocated sllen size align self.old.state }
    {
        self.advance(sllen, size, align);
    }

    /// Updates the state as a deallocation does.
    ///
    /// Takes no time.
    pub fn deallocate(&mut self, addr: usize)
        ensures { self.new.state ≡ deallocated addr self.old.state }
    {
        self.advance(addr, 0, 0);
    }

    /// Updates the state as a reallocation does that isn't refused.
    ///
    /// Takes no time.
    pub fn reallocate(&mut self, sllen: usize, addr: usize, size: usize)
        ensures { self.new.state ≡ reallocated sllen addr size self.old.state }
    {
        self.advance(sllen, addr, size);
    }

    /// Updates the state as a removal of the chunks of a range does.
    ///
    /// Takes no time.
    pub fn remove(&mut self, start: usize, len: usize)
        ensures { self.new.state ≡ removed (walked (range_at start len)) self.old.state }
    {
        self.advance(start, len, 0);
    }
}
