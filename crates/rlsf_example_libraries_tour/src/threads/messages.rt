//! Messages between threads that share a heap: how a message is made and read, and a heap that has room for all that are live at once.

use rlsf_heaps::{Heap, Layout, OpenMemory, Range, SharedHeap, classes};
use std::alloc::Global;

/// Chunks of any length, in 59 rows of 8 classes.
pub(crate) type Shared = SharedHeap<u64, u64, 59, 8>;

/// The address of the pool.
const START: usize = 4096;

/// Returns the layout of a message.
pub(crate) fn layout() -> Layout {
    Layout::from_size_align_unchecked(100, 16)
}

/// Returns a shared heap of one pool, which refuses no message while fewer than `most` are live.
pub(crate) fn heap_for(alloc: Global, most: usize) -> Option<Shared> {
    let len = classes::pool_size_for_payloads::<u64, u64, 59, 8>(most, layout())?;
    let memory = OpenMemory::reserve(alloc, START, len).ok()?;
    let mut heap = Heap::<u64, u64, 59, 8>::new(memory);
    heap.insert_free_block_ptr(Range { start: START, len });
    Some(SharedHeap::new(heap))
}

/// Writes a number to the first bytes of a message.
pub(crate) fn write_number(message: &mut [u8], number: u64) {
    for (byte, value) in message.iter_mut().zip(number.to_le_bytes()) {
        *byte = value;
    }
}

/// Reads the number that `write_number` wrote.
pub(crate) fn number_in(message: &[u8]) -> u64 {
    let mut bytes = [0; 8];
    for (byte, value) in bytes.iter_mut().zip(message) {
        *byte = *value;
    }
    u64::from_le_bytes(bytes)
}

/// What a consumer received.
#[derive(Clone, Copy)]
pub(crate) struct Received {
    /// How many messages.
    pub(crate) messages: u64,
    /// The sum of their numbers.
    pub(crate) sum: u64,
}

impl Received {
    /// Returns what is received before the first message.
    pub(crate) fn nothing() -> Received {
        Received {
            messages: 0,
            sum: 0,
        }
    }

    /// Returns what is received with one more message.
    pub(crate) fn and(self, message: &[u8]) -> Received {
        Received {
            messages: self.messages.wrapping_add(1),
            sum: self.sum.wrapping_add(number_in(message)),
        }
    }
}
