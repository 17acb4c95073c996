//! A payload together with the pool that it is in.

ghost use Rattle.std.specs.Prelude.{◌≡◌, ◌≤◌, ◌+◌, ◌++◌, drop, length, IfSome};
ghost use Rattle.rlsf.specs.Words.{live_count};
ghost use Rattle.rlsf_example_functions.specs.Note.{noted};

use crate::bytes::write_front;
use crate::pools::Pool;
use rlsf::{Addr, Layout};
use std::marker::Model;

/// A payload with the alignment 8, and its pool. To its callers it is the payload's bytes, and how many payloads are
/// live in the pool.
#[derive(Drop)]
pub struct Note {
    pool: Pool,
    addr: Addr,
}

impl Model for Note {
    ghost use Rattle.std.specs.Prelude.{◌≡◌, Some};
    ghost use Rattle.rlsf.specs.Words.{align_at, at, bytes_at, live_count};
    ghost use Rattle.rlsf_example_functions.specs.Note.{Noted, noted};

    ghost Value = { Noted };

    ghost view = { λ n. noted (bytes_at n.pool.state (at n.addr)) (live_count n.pool.state) };

    ghost invariant = { λ n. align_at n.pool.state (at n.addr) ≡ Some 8 };
}

impl Note {
    /// A note of `size` bytes or a few more. `None` if the pool has no room.
    pub fn new(mut pool: Pool, size: usize) -> Option<Note>
        ensures long { IfSome result (λ note. size ≤ length note.bytes) }
        ensures live { IfSome result (λ note. note.live ≡ live_count pool.state + 1) }
    {
        let layout = Layout::from_size_align(size, 8).ok()?;
        let addr = pool.allocate(layout)?;
        Some(Note { pool, addr })
    }

    /// Writes bytes over the note's first ones.
    ///
    /// The note has as many bytes.
    pub fn write(&mut self, bytes: &[u8])
        requires { length bytes.now ≤ length self.old.bytes }
        ensures { self.new ≡ noted (bytes.now ++ drop (length bytes.now) self.old.bytes) self.old.live }
    {
        write_front(self.pool.payload_mut(self.addr), bytes);
    }

    /// The note's bytes.
    pub fn bytes(&self) -> &[u8]
        ensures { result.now ≡ self.now.bytes }
    {
        self.pool.payload(self.addr)
    }

    /// The pool, once the note is freed.
    pub fn into_pool(self) -> Pool
        ensures { self.live ≡ live_count result.state + 1 }
    {
        let Note { mut pool, addr } = self;
        pool.deallocate(addr, 8);
        pool
    }
}
