//! What becomes of the memory of a trace when its replay ends.

use super::replayed;
use crate::answers::passes;
use std::fs;
use std::process::Abort;
use std::rt::Files;

/// A trace over 32 MiB, and its output.
const TEXT: &[u8] = b"59x8 4096 33554432\ninsert 4096 33554432\nalloc 1 100 8\n";

const WANTED: &str = "insert some 33554432\nalloc 1 at 4112\nstatus 0";

/// The number in front of the first space.
fn first_number(text: &str) -> Option<usize> {
    let (word, _) = text.split_once(' ')?;
    word.parse().ok()
}

/// How many bytes of addresses the process has, by the pages that the system reports.
fn mapped(rt: &(impl Files + AllocGlobal)) -> Option<usize> {
    let sizes = fs::read_to_string(rt, "/proc/self/statm").ok()?;
    let pages = first_number(&sizes)?;
    Some(pages.saturating_mul(4096))
}

// Ten memories have 320 MiB together.
#[test]
fn a_replay_deallocates_its_memory(rt: HostRuntime) {
    let before = mapped(&rt).expect(&rt, "a number");
    for number in 0..10 {
        let is_right = replayed(rt.alloc(), TEXT).as_deref() == Some(WANTED);
        let then = mapped(&rt).expect(&rt, "a number");
        passes(
            &rt,
            is_right && then.saturating_sub(before) < 9 << 25,
            number,
        );
    }
}
