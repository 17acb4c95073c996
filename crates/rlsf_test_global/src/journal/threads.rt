//! Callers in threads.

use super::calls::{agreed, over};
use crate::answers::all;
use rlsf_base::memory::Layout;
use rlsf_global::{Closed, GlobalError, Journaled, Pass};
use std::alloc::Global;
use std::process::Abort;
use std::sync::Wait;
use std::sync::atomic::{AtomicBool, Ordering};
use std::thread;
use std::thread::Threads;

/// Sets one's own flag, and waits for the other's, at most 100,000,000 turns.
fn meet(mine: &AtomicBool, theirs: &AtomicBool) -> bool {
    mine.store(true, Ordering::SeqCst);
    for _ in 0..100_000_000 {
        if theirs.load(Ordering::SeqCst) {
            return true;
        }
    }
    false
}

/// Writes a byte eight times, reads the eight back, and frees their payload.
fn use_eight(
    rt: &impl Wait,
    journaled: &Journaled,
    pass: &mut Pass,
    byte: u8,
) -> Result<bool, GlobalError> {
    if pass.caller() >= journaled.callers() {
        return Ok(false);
    }
    let mut read = [0; 8];
    let addr = journaled.allocate(rt, pass, Layout::from_size_align_unchecked(8, 8))?;
    journaled.write_payload(rt, addr, 0, &[byte; 8])?;
    journaled.read_payload(rt, addr, 0, &mut read)?;
    journaled.deallocate(rt, pass, addr)?;
    Ok(read == [byte; 8])
}

/// What one of two callers does once both are there: whether it read what it wrote.
fn visit(
    rt: &impl Wait,
    journaled: &Journaled,
    mut pass: Pass,
    mine: &AtomicBool,
    theirs: &AtomicBool,
    byte: u8,
) -> (Pass, bool) {
    let met = meet(mine, theirs);
    let read = use_eight(rt, journaled, &mut pass, byte);
    (pass, met && read == Ok(true))
}

/// The numbers of a pass's two receipts.
fn numbers(pass: &Pass) -> [usize; 2] {
    let receipts = pass.receipts();
    if receipts.len() != 2 {
        return [usize::MAX; 2];
    }
    [receipts[0].number, receipts[1].number]
}

/// The caller of an entry.
fn caller_of(closed: &Closed, number: usize) -> usize {
    if number >= closed.journal.len() {
        return usize::MAX;
    }
    closed.journal[number].caller
}

fn callers_of(closed: &Closed, numbers: [usize; 2]) -> [usize; 2] {
    [caller_of(closed, numbers[0]), caller_of(closed, numbers[1])]
}

/// What two callers do at once.
fn visits<R: Threads + Wait + Sync>(
    rt: &R,
    journaled: &Journaled,
    first: Pass,
    second: Pass,
) -> ((Pass, bool), (Pass, bool)) {
    let (here, there) = (AtomicBool::new(false), AtomicBool::new(false));
    thread::join(
        rt,
        || visit(rt, journaled, first, &here, &there, 7),
        || visit(rt, journaled, second, &there, &here, 9),
    )
}

#[test]
fn two_callers(rt: HostRuntime) {
    let (journaled, mut passes) = over(&rt, rt.alloc(), 131072, 2);
    let second = passes.pop().expect(&rt, "a second pass");
    let first = passes.pop().expect(&rt, "a first pass");
    let ((first, left), (second, right)) = visits(&rt, &journaled, first, second);
    let (own, other) = (numbers(&first), numbers(&second));
    passes.push(first).expect(&rt, "room for a pass");
    passes.push(second).expect(&rt, "room for a pass");
    let closed = agreed(&rt, journaled, passes, (4, 0));
    let answers = [
        left,
        right,
        callers_of(&closed, own) == [0, 0],
        callers_of(&closed, other) == [1, 1],
    ];
    all(&rt, &answers);
}

/// Writes 100 bytes, moves them into a payload of 200, reads them, and deallocates it. Returns whether they were equal.
fn move_hundred(
    rt: &impl Wait,
    journaled: &Journaled,
    pass: &mut Pass,
    byte: u8,
) -> Result<bool, GlobalError> {
    if pass.caller() >= journaled.callers() {
        return Ok(false);
    }
    let mut read = [0; 100];
    let small = journaled.allocate(rt, pass, Layout::from_size_align_unchecked(100, 8))?;
    journaled.write_payload(rt, small, 0, &[byte; 100])?;
    let great = journaled.reallocate(rt, pass, small, Layout::from_size_align_unchecked(200, 8))?;
    journaled.read_payload(rt, great, 0, &mut read)?;
    journaled.deallocate(rt, pass, great)?;
    Ok(read == [byte; 100])
}

/// A thousand rounds under one pass, each with another byte than the last: whether each read what it wrote.
fn rounds(rt: &impl Wait, journaled: &Journaled, mut pass: Pass) -> (Pass, bool) {
    let mut all = true;
    let mut byte: u8 = 0;
    for _ in 0..1000 {
        let same = move_hundred(rt, journaled, &mut pass, byte) == Ok(true);
        all = all && same;
        byte = byte.wrapping_add(1);
    }
    (pass, all)
}

/// The passes that threads end with. Passes if each read what it wrote.
fn passes_of(rt: &impl Abort, alloc: Global, done: Vec<(Pass, bool)>) -> Vec<Pass> {
    let mut passes = Vec::new(alloc);
    for (pass, same) in done {
        all(rt, &[same]);
        passes.push(pass).expect(rt, "room for a pass");
    }
    passes
}

#[test]
fn eight_callers(rt: HostRuntime) {
    let (journaled, passes) = over(&rt, rt.alloc(), 196608, 8);
    let done = thread::map_vec(&rt, passes, &|pass| rounds(&rt, &journaled, pass));
    let passes = passes_of(&rt, rt.alloc(), done.expect(&rt, "threads"));
    agreed(&rt, journaled, passes, (24000, 0));
}
