//! A bounded queue of messages of any length.

ghost use Rattle.std.specs.Prelude.{◌≡◌, ◌≤◌, ◌<◌, ◌+◌, ◌∷◌, ◌++◌, ◌↔◌, ℕ, List, [], length, drop, IfOk, IsErrOf, IsOk, IsSomeAnd, IsTrue, None, OnOk, Some};
ghost use Rattle.std.specs.Option.{option_map};
ghost use Rattle.std.specs.Map.Iter.{GivesInOrder};
ghost use Rattle.rlsf_base.specs.Space.{range_of};
ghost use Rattle.rlsf_blocks.specs.Blocks.{IsInOrder};
ghost use Rattle.rlsf_example_libraries.specs.Queue.{FitsMessages, oldest};
ghost use Rattle.rlsf_example_libraries.specs.Results.{AcceptsMessage, KeepsQueue, RefusesPop, RefusesPush};
ghost use Rattle.rlsf_example_libraries.specs.Stored.{used_count};
ghost use Rattle.rlsf_example_libraries.specs.declared.messages.LongestError.TheVariants as longest_error;

use crate::store::{Store, pool_len};
use rlsf::{Addr, BlockInfo, Blocks, Layout, Memory, classes};
use std::alloc::{AllocError, Global};
use std::collections::VecDeque;
use std::marker::Model;

/// Why a message wasn't pushed.
#[derive(Clone, Copy, Debug, PartialEq, Eq)]
pub enum PushError {
    /// The number of messages is the queue's capacity.
    Full,
    /// The message is longer than the queue's longest message.
    TooLong,
    /// The pool has no room for a message of this length.
    NoRoom,
}

/// Why no queue with a longest message was created.
#[derive(Clone, Copy, Debug, PartialEq, Eq)]
pub enum LongestError {
    /// The memory isn't long enough to be sure of room for all messages of that length.
    MemoryTooShort,
    /// The system has no memory for the table of messages.
    OutOfMemory,
}

impl From<AllocError> for LongestError {
    ghost from_gives = { λ _ e. e ≡ longest_error.OutOfMemory };

    fn from(_error: AllocError) -> LongestError {
        LongestError::OutOfMemory
    }
}

/// Why no message was popped.
#[derive(Clone, Copy, Debug, PartialEq, Eq)]
pub enum PopError {
    /// There is no message.
    Empty,
    /// The oldest message is longer than the slice that it would be written to.
    TooShort,
}

/// The address of a message, and its length.
#[derive(Clone, Copy)]
struct Entry {
    addr: Addr,
    len: usize,
}

/// A queue of messages over an allocator's pool: first in, first out.
///
/// It has at most `capacity` messages. Each is a list of bytes of any length, while the pool has room. Its contracts say which messages it
/// has, and bytes are copied in and out. To pass payloads between threads without a copy, take a `MessageQueue`.
#[derive(Drop)]
pub struct Messages {
    store: Store,
    // From the oldest message to the newest.
    entries: VecDeque<Entry>,
    // The greatest length of a message, if the queue was created with one.
    longest: Option<usize>,
}

impl Model for Messages {
    ghost use Rattle.std.specs.Prelude.{map};
    ghost use Rattle.std.specs.VecDeque.{deque_capacity};
    ghost use Rattle.rlsf_base.specs.Space.{range_of};
    ghost use Rattle.rlsf_example_libraries.specs.Queue.{KeepsLongest, Queue, messages_in, place_of_entry};
    ghost use Rattle.rlsf_example_libraries.specs.Stored.{KeepsAt};

    ghost Value = { Queue };

    ghost view = { λ q. record {
      messages = messages_in q.store.heap.memory q.entries.items;
      capacity = deque_capacity q.entries;
      longest = q.longest;
      memory = range_of q.store.heap.memory;
      touches = q.store.heap.memory.touches;
    } };

    ghost invariant = { λ q. KeepsAt q.store (map place_of_entry q.entries.items)
        × KeepsLongest q.longest (range_of q.store.heap.memory) (deque_capacity q.entries) q.entries.items };
}

impl Messages {
    /// Creates an empty queue for at most `capacity` messages, over a memory that becomes its allocator's pool.
    ///
    /// Returns an error if the system has no memory for the table of messages. With the capacity 0 there is no error.
    pub fn new(alloc: Global, memory: Memory, capacity: usize) -> Result<Messages, AllocError>
        ensures none { capacity ≡ 0 → IsOk result }
        ensures messages { IfOk result (λ q. q.messages ≡ []) }
        ensures capacity { IfOk result (λ q. q.capacity ≡ capacity) }
        ensures longest { IfOk result (λ q. q.longest ≡ None) }
        ensures memory { IfOk result (λ q. q.memory ≡ range_of memory) }
        ensures touches { IfOk result (λ q. q.touches ≤ memory.touches + 13) }
    {
        let entries = VecDeque::with_capacity(alloc, capacity)?;
        let store = Store::new(memory);
        Ok(Messages {
            store,
            entries,
            longest: None,
        })
    }

    /// Creates an empty queue for at most `capacity` messages of at most `longest` bytes each, over a memory that becomes its
    /// allocator's pool. The memory is sure to have room for all of them. So `push` refuses such a message if and only if the
    /// queue is full.
    ///
    /// Returns one of these errors:
    /// - `MemoryTooShort` if and only if the memory's part from the first multiple of 32 to the last is shorter than the length
    ///   that `classes::pool_size_for_payloads` returns for `capacity - 1` payloads of `longest` bytes.
    /// - `OutOfMemory` otherwise, if the system has no memory for the table of messages.
    pub fn with_longest(
        alloc: Global,
        memory: Memory,
        capacity: usize,
        longest: usize,
    ) -> Result<Messages, LongestError>
        ensures fits { IfOk result (λ q. FitsMessages q.memory capacity longest) }
        ensures short { IsErrOf result LongestError.MemoryTooShort ↔ (FitsMessages (range_of memory) capacity longest → ⊥) }
        ensures messages { IfOk result (λ q. q.messages ≡ []) }
        ensures capacity { IfOk result (λ q. q.capacity ≡ capacity) }
        ensures longest { IfOk result (λ q. q.longest ≡ Some longest) }
        ensures memory { IfOk result (λ q. q.memory ≡ range_of memory) }
        ensures touches { IfOk result (λ q. q.touches ≤ memory.touches + 13) }
    {
        if !fits_messages(&memory, capacity, longest) {
            return Err(LongestError::MemoryTooShort);
        }
        let entries = VecDeque::with_capacity(alloc, capacity)?;
        let store = Store::new(memory);
        Ok(Messages {
            store,
            entries,
            longest: Some(longest),
        })
    }

    /// Appends a message to the queue.
    ///
    /// Returns the first of these errors that applies; then no message changes:
    /// - `Full` if the number of messages is the capacity.
    /// - `TooLong` if the queue was created with a longest message and this one is longer.
    /// - `NoRoom` if the pool has no room for the message. This error isn't returned for a message that isn't longer than the
    ///   longest one of `with_longest`, nor by an empty queue whose pool is long enough for the message.
    pub fn push(&mut self, message: &[u8]) -> Result<(), PushError>
        ensures result { OnOk result (self.new.messages ≡ self.old.messages ++ message.now ∷ []) }
        ensures room { AcceptsMessage self.old (length message.now) result }
        ensures refused { RefusesPush self.old self.new (length message.now) result }
        ensures frame { KeepsQueue self.old self.new }
        ensures touches { self.new.touches ≤ self.old.touches + 30 }
    {
        if self.entries.len() == self.entries.capacity() {
            return Err(PushError::Full);
        }
        if is_longer(message.len(), self.longest) {
            return Err(PushError::TooLong);
        }
        let Some(addr) = self.store.add(message) else {
            return Err(PushError::NoRoom);
        };
        let len = message.len();
        self.entries.push_back_reserved(Entry { addr, len });
        Ok(())
    }

    /// Removes the oldest message, writes it to the front of `into` and returns its length. The bytes of `into` behind it don't
    /// change. Then the queue can hold one more message.
    ///
    /// Returns `Empty` if and only if there is no message, and `TooShort` if and only if the oldest one is longer than `into`;
    /// then nothing changes. If the queue was created with a longest message and `into` has that length, `TooShort` is never
    /// returned.
    pub fn pop(&mut self, into: &mut [u8]) -> Result<usize, PopError>
        ensures result { IfOk result (λ len. (m : List ℕ) × (self.old.messages ≡ m ∷ self.new.messages) × (len ≡ length m) × (into.new ≡ m ++ drop len into.old)) }
        ensures room { OnOk result (length self.new.messages < self.new.capacity) }
        ensures refused { RefusesPop self.old self.new into.old into.new result }
        ensures frame { KeepsQueue self.old self.new }
        ensures touches { self.new.touches ≤ self.old.touches + 32 }
    {
        let Some(&entry) = self.entries.front() else {
            return Err(PopError::Empty);
        };
        if into.len() < entry.len {
            return Err(PopError::TooShort);
        }
        into[..entry.len].copy_from_slice(self.store.read(entry.addr, entry.len));
        self.store.remove(entry.addr, 1);
        self.entries.pop_front();
        Ok(entry.len)
    }

    /// Returns the length of the oldest message, or `None` if there is no message.
    pub fn front_len(&self) -> Option<usize>
        ensures { result ≡ option_map length (oldest self.now.messages) }
    {
        let entry = self.entries.front()?;
        Some(entry.len)
    }

    /// Returns the number of messages.
    pub fn len(&self) -> usize
        ensures value { result ≡ length self.now.messages }
        ensures most { result ≤ self.now.capacity }
    {
        self.entries.len()
    }

    /// Returns whether the queue has no message.
    pub fn is_empty(&self) -> bool
        ensures { IsTrue result ↔ (self.now.messages ≡ []) }
    {
        self.entries.is_empty()
    }

    /// Returns the greatest number of messages that the queue can hold.
    pub fn capacity(&self) -> usize
        ensures { result ≡ self.now.capacity }
    {
        self.entries.capacity()
    }

    /// Returns the blocks of the pool, used and free, in address order. There is one used block for each message.
    pub fn blocks(&self) -> Blocks<'_>
        ensures used { used_count result ≡ length self.now.messages }
        ensures order { IsInOrder result }
        ensures runs { GivesInOrder BlockInfo }
    {
        self.store.blocks()
    }
}

/// Returns whether there is a greatest length and `len` is above it.
fn is_longer(len: usize, longest: Option<usize>) -> bool
    ensures { IsTrue result ↔ IsSomeAnd longest (λ longest. longest < len) }
{
    match longest {
        Some(longest) => longest < len,
        None => false,
    }
}

/// Returns whether a memory is sure to have room for `capacity` messages of at most `longest` bytes each.
fn fits_messages(memory: &Memory, capacity: usize, longest: usize) -> bool
    ensures { IsTrue result ↔ FitsMessages (range_of memory.now) capacity longest }
{
    let Ok(layout) = Layout::from_size_align(longest, 1) else {
        return false;
    };
    let most = capacity.saturating_sub(1);
    match classes::pool_size_for_payloads::<u64, u64, 59, 8>(most, layout) {
        Some(len) => len <= pool_len(memory),
        None => false,
    }
}
