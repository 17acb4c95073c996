//! The latest messages: a queue whose oldest message makes room for a new one.

ghost use Rattle.std.specs.Prelude.{◌≡◌, ◌<◌, ◌≤◌, ◌∷◌, ◌++◌, [], IfOk, IsOk, drop, if◌then◌else◌, length, nat_lt};

use crate::answer::Refusal;
use crate::draw;
use crate::error::TourError;
use rlsf::{Blocks, Memory};
use rlsf_example_libraries::{LongestError, Messages, PushError};
use std::alloc::Global;
use std::marker::Model;

/// The most bytes that a message may have.
const LONGEST: usize = 64;

/// The latest messages, as many as their queue can hold, each of at most `LONGEST` bytes.
#[derive(Drop)]
struct Latest {
    queue: Messages,
}

impl Model for Latest {
    ghost use Rattle.std.specs.Prelude.{◌≡◌, ◌<◌, Some};
    ghost use Rattle.rlsf_example_libraries.specs.Queue.{Queue};

    ghost Value = { Queue };

    ghost view = { λ latest. latest.queue };

    ghost invariant = { λ latest. (latest.queue.longest ≡ Some 64) × (0 < latest.queue.capacity) };
}

impl Latest {
    /// No message yet, over a memory that is sure to have room for `capacity` messages.
    ///
    /// Refused as `Messages::with_longest` refuses it.
    fn new(alloc: Global, memory: Memory, capacity: usize) -> Result<Latest, LongestError>
        requires { 0 < capacity }
        ensures messages { IfOk result (λ latest. latest.messages ≡ []) }
        ensures capacity { IfOk result (λ latest. latest.capacity ≡ capacity) }
    {
        let queue = Messages::with_longest(alloc, memory, capacity, LONGEST)?;
        Ok(Latest { queue })
    }

    /// Puts a message behind the others, and drops the oldest one if there are as many as the queue can hold.
    ///
    /// Never refused.
    fn put(&mut self, message: &[u8]) -> Result<(), PushError>
        requires { length message.now ≤ LONGEST }
        ensures never_refused { IsOk result }
        ensures messages { self.new.messages ≡ (if nat_lt (length self.old.messages) self.old.capacity then self.old.messages else drop 1 self.old.messages) ++ message.now ∷ [] }
        ensures capacity { self.new.capacity ≡ self.old.capacity }
    {
        self.make_room();
        self.queue.push(message)
    }

    /// Drops the oldest message if there are as many as the queue can hold.
    fn make_room(&mut self)
        ensures room { length self.new.messages < self.new.capacity }
        ensures messages { self.new.messages ≡ (if nat_lt (length self.old.messages) self.old.capacity then self.old.messages else drop 1 self.old.messages) }
        ensures capacity { self.new.capacity ≡ self.old.capacity }
    {
        if self.queue.len() < self.queue.capacity() {
            return;
        }
        let mut dropped = [0; LONGEST];
        let _ = self.queue.pop(&mut dropped);
    }

    /// The blocks of the pool, used and free, in address order.
    fn blocks(&self) -> Blocks<'_> {
        self.queue.blocks()
    }
}

/// Puts four messages where two are kept.
pub(crate) fn show(rt: &(impl Print + AllocGlobal)) -> Result<(), TourError> {
    let memory = Memory::new(rt.alloc(), 32768, 288)?;
    let mut latest = Latest::new(rt.alloc(), memory, 2)?;
    put_four(rt, &mut latest)
}

fn put_four(rt: &(impl Print + AllocGlobal), latest: &mut Latest) -> Result<(), TourError> {
    rt.println("The latest 2 messages of up to 64 bytes, in 288 bytes")?;
    put(rt, latest, "one")?;
    put(rt, latest, "the second one, which is a bit longer")?;
    put(rt, latest, "three")?;
    put(
        rt,
        latest,
        "the fourth one, which is longer than the second one",
    )
}

fn put(rt: &(impl Print + AllocGlobal), latest: &mut Latest, message: &str) -> Result<(), TourError>
    requires { length message.now ≤ LONGEST }
{
    let refusal = Refusal(latest.put(message.as_bytes()));
    draw(rt, format_args!("put: {message}{refusal}"), latest.blocks())
}
