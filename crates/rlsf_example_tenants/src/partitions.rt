//! 1,000 messages and four frames, each kind in a pool for its size. No allocation is refused, so each is unwrapped.

ghost use Rattle.std.specs.Prelude.{◌≡◌, IfSome};
ghost use Rattle.rlsf_heaps.specs.Words.{vacant};

use rlsf_heaps::{PartitionPayload, Partitions};
use std::alloc::Global;
use std::io;
use std::marker::Model;

/// The most messages that are kept, and the most bytes of one.
const MESSAGES: (usize, usize) = (1000, 64);

/// The most frames that are kept, and the most bytes of one.
const FRAMES: (usize, usize) = (4, 16384);

/// Messages and frames that were received.
#[derive(Drop)]
struct Received {
    pools: Partitions,
    messages: Vec<PartitionPayload>,
    frames: Vec<PartitionPayload>,
}

impl Model for Received {
    ghost use Rattle.std.specs.Prelude.{◌≡◌, ◌≤◌, ◌∷◌, [], length, ℕ};

    ghost Value = { ℕ };

    ghost view = { λ r. length r.messages.items };

    ghost invariant = { λ r. (length r.messages.items ≤ 1000) × (length r.frames.items ≤ 4) × (r.pools.quotas
        ≡ record { size = 64; count = 1000; live = length r.messages.items } ∷ record { size = 16384; count = 4; live = length r.frames.items } ∷ []) };
}

impl Received {
    /// Allocates the memory for all messages and frames.
    fn new(alloc: Global) -> Option<Received> {
        let pools = Partitions::new(alloc, &[MESSAGES, FRAMES]).ok()?;
        Some(Received {
            pools,
            messages: Vec::new(alloc),
            frames: Vec::new(alloc),
        })
    }

    /// Keeps a message of these bytes. Returns `None` if there are 1,000, or the system has no memory for the list.
    fn message(&mut self, byte: u8) -> Option<()> {
        if self.messages.len() == MESSAGES.0 {
            return None;
        }
        self.messages.reserve(1).ok()?;
        let mut message = self.pools.allocate(MESSAGES.1).unwrap();
        message.payload.fill(byte);
        self.messages.push_reserved(message);
        Some(())
    }

    /// Keeps a frame of these bytes. Returns `None` if there are four, or the system has no memory for the list.
    fn frame(&mut self, byte: u8) -> Option<()> {
        if self.frames.len() == FRAMES.0 {
            return None;
        }
        self.frames.reserve(1).ok()?;
        let mut frame = self.pools.allocate(FRAMES.1).unwrap();
        frame.payload.fill(byte);
        self.frames.push_reserved(frame);
        Some(())
    }

    /// Returns how many messages and frames there are, and how many more have room.
    fn counts(&self) -> [usize; 4] {
        [
            self.messages.len(),
            self.frames.len(),
            self.pools.vacant(MESSAGES.1),
            self.pools.vacant(FRAMES.1),
        ]
    }
}

/// Receives all messages and all frames. Returns how many it has, and how many more there are room for.
fn all(alloc: Global) -> Option<[usize; 4]> {
    let mut received = Received::new(alloc)?;
    for _ in 0..1000 {
        received.message(1)?;
    }
    for _ in 0..4 {
        received.frame(2)?;
    }
    Some(received.counts())
}

/// Writes a message, reads it and frees it. Returns its last byte.
fn served(pools: &mut Partitions) -> Option<u8>
    ensures byte { IfSome result (λ byte. byte ≡ 7) }
    ensures room { vacant pools.new.quotas 64 ≡ vacant pools.old.quotas 64 }
{
    let mut message = pools.allocate(MESSAGES.1)?;
    message.payload.fill(0);
    message.payload.as_mut_slice().fill(7);
    let byte = message.payload.as_slice()[63];
    pools.deallocate(message);
    Some(byte)
}

/// Serves a message in new pools.
fn served_once(alloc: Global) -> Option<u8> {
    let mut pools = Partitions::new(alloc, &[MESSAGES, FRAMES]).ok()?;
    served(&mut pools)
}

pub(crate) fn main(rt: HostRuntime) -> io::Result<()> {
    println!(rt;
        "messages, frames, and room for more of each: {:?}",
        all(rt.alloc())
    )?;
    println!(rt; "a message that was freed: {:?}", served_once(rt.alloc()))
}
