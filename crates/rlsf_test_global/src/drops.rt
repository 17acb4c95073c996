//! What becomes of the memory of an allocator that ends: by a drop, by `into_rows`, or by closing its journal.

use crate::answers::{memory, passes};
use rlsf_base::memory::{Layout, Memory};
use rlsf_global::{GlobalError, GlobalTlsf, Journaled, Locked};
use std::alloc::Global;
use std::fs;
use std::process::Abort;
use std::rt::Files;
use std::sync::Wait;

/// The length of a memory.
const LEN: usize = 1 << 25;

/// How an allocator ends.
#[derive(Clone, Copy)]
enum End {
    Drop,
    IntoRows,
    Close,
}

/// The number in front of the first space.
fn first_number(text: &str) -> Option<usize> {
    let (word, _) = text.split_once(' ')?;
    word.parse().ok()
}

/// How many bytes of addresses the process has, by the pages that the system reports.
fn mapped(rt: &(impl Files + AllocGlobal)) -> Option<usize> {
    let sizes = fs::read_to_string(rt, "/proc/self/statm").ok()?;
    let pages = first_number(&sizes)?;
    Some(pages.saturating_mul(4096))
}

/// Ends the value under the lock, with a payload. Returns how many payloads it says were live.
fn end_locked(rt: &impl Abort, alloc: Global, memory: Memory) -> usize {
    let room = Vec::with_capacity(alloc, 1).expect(rt, "room for a row");
    let mut locked = Locked::<()>::new(alloc, memory);
    let _placed = locked.alloc(Layout::from_size_align_unchecked(100, 8));
    locked.into_rows(room).map_or(0, |rows| rows.len())
}

/// Makes an allocator with a payload, and drops it. Returns whether there was room.
fn end_shared<R: Wait>(rt: &R, alloc: Global, memory: Memory) -> bool {
    let shared = GlobalTlsf::<()>::new(alloc, memory);
    let placed = shared.alloc(rt, Layout::from_size_align_unchecked(100, 8));
    placed.is_ok()
}

/// Makes an allocator with a journal, and closes it. Returns whether its pass agreed.
fn end_journaled(alloc: Global, memory: Memory) -> Result<bool, GlobalError> {
    let is_closed = {
        let (journaled, passes) = Journaled::new(alloc, memory, 1)?;
        journaled.close(passes).is_ok()
    };
    Ok(is_closed)
}

/// Makes an allocator, and ends it. Returns whether it ended so.
fn made_and_ended<R: Abort + Wait>(rt: &R, alloc: Global, end: End) -> bool {
    let memory = memory(rt, alloc, LEN);
    match end {
        End::Drop => end_shared(rt, alloc, memory),
        End::IntoRows => end_locked(rt, alloc, memory) == 1,
        End::Close => end_journaled(alloc, memory) == Ok(true),
    }
}

/// Passes if the process has less than nine memories more than before, whenever one of ten allocators has ended.
fn stays_small(rt: &(impl Files + AllocGlobal + Abort + Wait), end: End) {
    let before = mapped(rt).expect(rt, "a number");
    for number in 0..10 {
        let is_ended = made_and_ended(rt, rt.alloc(), end);
        let then = mapped(rt).expect(rt, "a number");
        passes(
            rt,
            is_ended && then.saturating_sub(before) < 9 * LEN,
            number,
        );
    }
}

#[test]
fn a_dropped_allocator_deallocates_its_memory(rt: HostRuntime) {
    stays_small(&rt, End::Drop);
}

#[test]
fn one_that_returns_its_entries_deallocates_its_memory(rt: HostRuntime) {
    stays_small(&rt, End::IntoRows);
}

#[test]
fn one_that_is_closed_deallocates_its_memory(rt: HostRuntime) {
    stays_small(&rt, End::Close);
}
