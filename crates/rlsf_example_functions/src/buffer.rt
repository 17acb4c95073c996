//! A buffer that grows.

ghost use Rattle.std.specs.Prelude.{◌≡◌, ◌<◌, ◌++◌, ◌∷◌, [], IfSome, if◌then◌else◌};

use crate::pools::Pool;
use rlsf::{Addr, Layout};
use std::marker::Model;

/// Bytes in a payload that gets 64 bytes longer whenever it is full. To its callers it is the list of its bytes.
#[derive(Drop)]
pub struct Buffer {
    pool: Pool,
    addr: Addr,
    layout: Layout,
    len: usize,
}

impl Model for Buffer {
    ghost use Rattle.std.specs.Prelude.{◌≡◌, ◌≤◌, ◌<◌, ℕ, List, Some, length, take};
    ghost use Rattle.rlsf.specs.Words.{align_at, at, bytes_at};

    ghost Value = { List ℕ };

    ghost view = { λ b. take b.len (bytes_at b.pool.state (at b.addr)) };

    ghost invariant = { λ b. (align_at b.pool.state (at b.addr) ≡ Some b.layout.align)
        × (b.layout.size ≤ length (bytes_at b.pool.state (at b.addr)))
        × (b.len ≤ b.layout.size)
        × (0 < b.layout.size) };
}

impl Buffer {
    /// A buffer without bytes. `None` if the pool has no room for it.
    pub fn new(mut pool: Pool) -> Option<Buffer>
        ensures { IfSome result (λ buffer. buffer ≡ []) }
    {
        let layout = Layout::from_size_align(16, 8).ok()?;
        let addr = pool.allocate(layout)?;
        Some(Buffer {
            pool,
            addr,
            layout,
            len: 0,
        })
    }

    /// Puts a byte behind the others. Returns false if the pool has no room, and then the bytes stay.
    pub fn push(&mut self, byte: u8) -> bool
        ensures { self.new ≡ (if result then self.old ++ byte ∷ [] else self.old) }
    {
        if self.len < self.layout.size() {
            self.pool.payload_mut(self.addr)[self.len] = byte;
            self.len += 1;
            return true;
        }
        let Ok(layout) = Layout::from_size_align(self.len.saturating_add(64), self.layout.align())
        else {
            return false;
        };
        let Some(addr) = self.pool.reallocate(self.addr, layout) else {
            return false;
        };
        self.addr = addr;
        self.layout = layout;
        self.pool.payload_mut(addr)[self.len] = byte;
        self.len += 1;
        true
    }

    /// The bytes.
    pub fn bytes(&self) -> &[u8]
        ensures { result.now ≡ self.now }
    {
        &self.pool.payload(self.addr)[..self.len]
    }
}
