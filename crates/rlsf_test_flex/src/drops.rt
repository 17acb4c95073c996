//! What becomes of the memory of an allocator when the allocator is dropped.

use crate::heaps::all;
use rlsf_base::memory::{Layout, Memory, Range};
use rlsf_flex::{BumpSource, FlexTlsf};
use std::alloc::Global;
use std::fs;
use std::process::Abort;
use std::rt::Files;

/// Chunks of any length.
type Long = FlexTlsf<BumpSource, u64, u64, 59, 8>;

/// All addresses of a memory.
const SPACE: Range = Range {
    start: 4097,
    len: 33_554_432,
};

/// The number in front of the first space.
fn first_number(text: &str) -> Option<usize> {
    let (word, _) = text.split_once(' ')?;
    word.parse().ok()
}

/// How many bytes of addresses the process has, by the pages that the system reports.
fn mapped(rt: &(impl Files + AllocGlobal)) -> Option<usize> {
    let sizes = fs::read_to_string(rt, "/proc/self/statm").ok()?;
    let pages = first_number(&sizes)?;
    Some(pages.saturating_mul(4096))
}

/// Makes an allocator with a payload, and drops it. Returns whether it was made. The memory begins at an address that is no multiple of 16.
fn made_and_dropped(alloc: Global, space: Range) -> Option<bool> {
    let memory = Memory::new(alloc, space.start, space.len).ok()?;
    let mut flex = Long::new(memory, BumpSource::new(space));
    let layout = Layout::from_size_align_unchecked(100, 8);
    Some(flex.allocate(layout).is_some())
}

// Ten memories have 320 MiB together.
#[test]
fn a_dropped_allocator_deallocates_its_memory(rt: HostRuntime) {
    let before = mapped(&rt).expect(&rt, "a number");
    for _ in 0..10 {
        let is_made = made_and_dropped(rt.alloc(), SPACE) == Some(true);
        let then = mapped(&rt).expect(&rt, "a number");
        all(&rt, &[is_made, then.saturating_sub(before) < 301_989_888]);
    }
}
