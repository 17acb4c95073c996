//! Payloads with a reference to their shared heap, of each size and alignment of `shared_rows`: allocated, resized, and freed by hand or by
//! a drop.
use crate::answers::{all, none_is_wrong};
use crate::shared_rows::{
    Free, MARK, RESIZED, Resized, SERVED, Served, Shared, is_whole, shared_heap,
};
use rlsf_base::memory::Layout;
use rlsf_shared_heap::SharedPayload;
use std::alloc::{AllocError, Global};
use std::sync::Wait;
use std::test::Fail;
use std::thread;
use std::thread::Threads;

/// A payload of a shared heap.
type Owned<'h> = SharedPayload<'h, Shared>;

/// Allocates a payload, and fills it with the mark.
fn filled<'h, R: Wait>(rt: &R, shared: &'h Shared, size: usize, align: usize) -> Option<Owned<'h>> {
    let layout = Layout::from_size_align(size, align).ok()?;
    let mut payload = shared.allocate_shared(rt, layout)?;
    let is_zero = payload.as_slice().iter().all(|byte| *byte == 0);
    payload.fill(MARK);
    if is_zero && payload.align() == align {
        return Some(payload);
    }
    payload.free(rt);
    None
}

/// Frees a payload, by hand or by a drop.
fn free<'h, R: Wait>(rt: &R, payload: Owned<'h>, by_hand: bool) {
    if by_hand {
        payload.free(rt);
    } else {
        drop(payload.freed_on_drop(rt));
    }
}

/// Allocates a payload and frees it. Returns its address and its length, or zeros.
fn served<R: Wait>(rt: &R, shared: &Shared, row: Served, by_hand: bool) -> (usize, usize) {
    let Some(payload) = filled(rt, shared, row.0, row.1) else {
        return (0, 0);
    };
    let found = (payload.addr(), payload.len());
    free(rt, payload, by_hand);
    found
}

/// The index of the first row with another result. If a payload leaks, the next one lies elsewhere.
fn first_not_served<R: Wait>(rt: &R, shared: &Shared, by_hand: bool) -> Option<usize> {
    for (index, row) in SERVED.iter().enumerate() {
        if served(rt, shared, *row, by_hand) != (row.2, row.3) {
            return Some(index);
        }
    }
    None
}

/// How many bytes in front have the mark, and whether zeros follow.
fn is_kept(bytes: &[u8], kept: usize) -> bool {
    let marks = bytes.iter().take_while(|byte| **byte == MARK).count();
    marks == kept && bytes.iter().skip(marks).all(|byte| *byte == 0)
}

/// Gives a payload another size, and frees it. Returns its address and its length then, zeros if the size is refused, and ones if another
/// byte was changed than has to be.
fn resized<'h, R: Wait>(rt: &R, payload: Owned<'h>, size: usize, by_hand: bool) -> (usize, usize) {
    let before = payload.len();
    let (payload, found) = match payload.reallocate(rt, size) {
        Ok(payload) => {
            let found = (payload.addr(), payload.len());
            (payload, found)
        }
        Err(payload) => (payload, (0, 0)),
    };
    let is_kept = is_kept(payload.as_slice(), before.min(payload.len()));
    free(rt, payload, by_hand);
    if is_kept { found } else { (1, 1) }
}

/// Frees a payload if `goes` is true, and returns it otherwise.
fn kept_unless<'h, R: Wait>(rt: &R, payload: Owned<'h>, goes: bool) -> Option<Owned<'h>> {
    if goes {
        payload.free(rt);
        return None;
    }
    Some(payload)
}

/// Allocates three payloads side by side, frees the first and the third as the row says, and gives the second another size. Returns its
/// address and its length then, and frees all.
fn found<R: Wait>(rt: &R, shared: &Shared, row: Resized, by_hand: bool) -> (usize, usize) {
    let (size, align, beside, to, _, _) = row;
    let (Some(first), Some(second), Some(third)) = (
        filled(rt, shared, 100, 16),
        filled(rt, shared, size, align),
        filled(rt, shared, 100, 16),
    ) else {
        return (1, 1);
    };
    let first = kept_unless(rt, first, matches!(beside, Free::Before | Free::Both));
    let third = kept_unless(rt, third, matches!(beside, Free::Behind | Free::Both));
    let found = resized(rt, second, to, by_hand);
    for payload in [first, third].into_iter().flatten() {
        payload.free(rt);
    }
    found
}

/// The index of the first row with another result.
fn first_not_resized<R: Wait>(rt: &R, shared: &Shared, by_hand: bool) -> Option<usize> {
    for (index, row) in RESIZED.iter().enumerate() {
        if found(rt, shared, *row, by_hand) != (row.4, row.5) {
            return Some(index);
        }
    }
    None
}

#[test]
fn payloads_of_each_size_and_alignment_come_and_go(rt: HostRuntime) -> Result<(), Fail> {
    let shared = shared_heap(rt.alloc())?;
    none_is_wrong(&rt, first_not_served(&rt, &shared, true));
    none_is_wrong(&rt, first_not_served(&rt, &shared, false));
    none_is_wrong(&rt, first_not_resized(&rt, &shared, true));
    none_is_wrong(&rt, first_not_resized(&rt, &shared, false));
    all(&rt, &[is_whole(shared)]);
    Ok(())
}

/// Allocates a payload and frees it. Returns whether it is refused.
fn is_refused<R: Wait>(rt: &R, shared: &Shared, size: usize, align: usize) -> bool {
    match filled(rt, shared, size, align) {
        Some(payload) => {
            payload.free(rt);
            false
        }
        None => true,
    }
}

/// Returns whether a payload is refused while another one has nearly all of the heap, and whether it is refused behind that.
fn are_refused<R: Wait>(rt: &R, shared: &Shared, size: usize, align: usize) -> Option<[bool; 2]> {
    let most = filled(rt, shared, 126_000, 16)?;
    let full = is_refused(rt, shared, size, align);
    most.free(rt);
    Some([full, is_refused(rt, shared, size, align)])
}

// 126,000 bytes take a block of 126,016, and leave one of 5,024. Its class begins at 4,864 bytes.
#[test]
fn a_full_heap_refuses_at_once(rt: HostRuntime) -> Result<(), Fail> {
    let shared = shared_heap(rt.alloc())?;
    let answers = [
        are_refused(&rt, &shared, 4849, 16) == Some([true, false]),
        are_refused(&rt, &shared, 4848, 1) == Some([false, false]),
        are_refused(&rt, &shared, 1001, 4096) == Some([true, false]),
        are_refused(&rt, &shared, 65536, 64) == Some([true, false]),
        is_whole(shared),
    ];
    all(&rt, &answers);
    Ok(())
}

/// How many threads there are, and how many payloads each of them resizes.
const THREADS: usize = 8;

const ROUNDS: usize = 2000;

/// Allocates payloads, resizes and frees them, until a call is refused. Returns how often it went.
fn rounds<R: Wait>(rt: &R, shared: &Shared) -> usize {
    for n in 0..ROUNDS {
        let Some(payload) = filled(rt, shared, 1 + n % 100, 16) else {
            return n;
        };
        if resized(rt, payload, 1 + n % 211, n % 2 == 0).0 <= 1 {
            return n;
        }
    }
    ROUNDS
}

/// How often it went in each of eight threads.
fn of_eight<R: Threads + Wait + Sync>(
    rt: &R,
    alloc: Global,
    shared: &Shared,
) -> Result<Vec<usize>, AllocError> {
    thread::map_indices(rt, alloc, THREADS, &|_| rounds(rt, shared))
}

// The heap has room for the payloads of all, so a call is refused only if it doesn't wait for the lock.
#[test]
fn no_call_is_refused_while_another_thread_is_in(rt: HostRuntime) -> Result<(), Fail> {
    let shared = shared_heap(rt.alloc())?;
    let done = of_eight(&rt, rt.alloc(), &shared)?;
    let answers = [done.iter().all(|count| *count == ROUNDS), is_whole(shared)];
    all(&rt, &answers);
    Ok(())
}
