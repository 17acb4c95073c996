//! Calls of several threads at once: none is refused because another thread is in, and each is one step for the others.

use crate::answers::{all, memory};
use crate::journal::over;
use crate::payloads::{Shared, allocated};
use rlsf_base::memory::{Addr, Layout};
use rlsf_global::{CAlloc, GlobalError, GlobalTlsf, GlobalTlsfOptions, SmallGlobalTlsfOptions};
use std::alloc::Global;
use std::process::Abort;
use std::sync::Wait;
use std::sync::atomic::{AtomicBool, Ordering};
use std::thread;
use std::thread::Threads;

/// How many threads there are, and how many rounds each of them makes.
const THREADS: usize = 4;

const ROUNDS: usize = 500;

/// Makes a payload of 40 bytes longer and shorter again, reads it, and deallocates it. Returns whether it has the bytes that it had.
fn keeps_its_bytes<R: Wait, Options: GlobalTlsfOptions>(
    rt: &R,
    shared: &GlobalTlsf<Options>,
    first: Addr,
    mark: u8,
) -> Result<bool, GlobalError> {
    let layout = Layout::from_size_align_unchecked(40, 8);
    let longer = Layout::from_size_align_unchecked(100, 8);
    let mut found = [0; 40];
    let second = shared.realloc(rt, first, layout, 100)?;
    let third = shared.reallocate_no_move(rt, second, longer, 40)?;
    shared.read_payload(rt, third, 0, &mut found)?;
    shared.dealloc(rt, third, layout)?;
    Ok(found == [mark; 40])
}

/// Allocates a payload, reallocates it and deallocates it, by its address.
fn by_address<R: Wait, Options: GlobalTlsfOptions>(
    rt: &R,
    shared: &GlobalTlsf<Options>,
) -> Result<(), GlobalError> {
    let layout = Layout::from_size_align_unchecked(40, 8);
    let longer = Layout::from_size_align_unchecked(100, 8);
    let other = shared.allocate(rt, layout)?;
    let other = shared.reallocate(rt, other, longer)?;
    shared.deallocate(rt, other)?;
    Ok(())
}

/// Makes each call on payloads of one's own. Returns whether the first has 48 usable bytes, and a longer one the bytes that it had.
fn round<R: Wait, Options: GlobalTlsfOptions>(
    rt: &R,
    shared: &GlobalTlsf<Options>,
    mark: u8,
) -> Result<bool, GlobalError> {
    let first = shared.alloc(rt, Layout::from_size_align_unchecked(40, 8))?;
    shared.write_payload(rt, first, 0, &[mark; 40])?;
    let usable = shared.allocation_usable_size(rt, first)?;
    let is_kept = keeps_its_bytes(rt, shared, first, mark)?;
    by_address(rt, shared)?;
    Ok(usable == 48 && is_kept)
}

/// How many rounds of a thread go as they should, one after another.
fn rounds<R: Wait, Options: GlobalTlsfOptions>(
    rt: &R,
    shared: &GlobalTlsf<Options>,
    mark: u8,
) -> usize {
    for number in 0..ROUNDS {
        if round(rt, shared, mark) != Ok(true) {
            return number;
        }
    }
    ROUNDS
}

/// Whether all rounds of four threads go as they should.
fn of_four<R: Abort + Threads + Wait + Sync, Options: GlobalTlsfOptions + Send>(
    rt: &R,
    alloc: Global,
) -> bool {
    let shared = GlobalTlsf::<Options>::new(alloc, memory(rt, alloc, 131072));
    let done = thread::map_indices(
        rt,
        alloc,
        THREADS,
        &|index| { rounds(rt, &shared, index as u8) },
    );
    done.expect(rt, "threads").as_slice() == [ROUNDS; THREADS].as_slice()
}

// The memory has room for all payloads of all threads, so a call is refused only if it doesn't wait for the lock.
#[test]
fn no_call_is_refused_while_another_thread_is_in(rt: HostRuntime) {
    let answers = [
        of_four::<_, ()>(&rt, rt.alloc()),
        of_four::<_, SmallGlobalTlsfOptions>(&rt, rt.alloc()),
    ];
    all(&rt, &answers);
}

/// How many bytes a payload has that two threads write and read.
const LEN: usize = 4096;

/// How often the reader has to find other bytes than before. So often the threads take turns, also on a busy system.
const CHANGES: usize = 100;

/// How often each of the two tries at most.
const TIMES: usize = 100_000_000;

/// Overwrites all bytes of a payload with one byte, each time with another one, until the other thread is done. Returns whether each
/// write went.
fn write_often<R: Wait>(rt: &R, shared: &impl Shared, addr: Addr, is_done: &AtomicBool) -> bool {
    for time in 0..TIMES {
        if is_done.load(Ordering::SeqCst) {
            break;
        }
        if shared
            .write(rt, addr, 0, &[(time % 128) as u8; LEN])
            .is_err()
        {
            is_done.store(true, Ordering::SeqCst);
            return false;
        }
    }
    true
}

/// The byte that all bytes of a payload are, if they are of one write.
fn byte_of_one_write<R: Wait>(rt: &R, shared: &impl Shared, addr: Addr) -> Option<u8> {
    let mut bytes = [0; LEN];
    let is_read = shared.read(rt, addr, 0, &mut bytes).is_ok();
    let first = bytes[0];
    if is_read && bytes == [first; LEN] {
        Some(first)
    } else {
        None
    }
}

/// Reads a payload until it has changed often, or the other thread is done. Returns whether it has, and all bytes were of one write each
/// time.
fn read_often<R: Wait>(rt: &R, shared: &impl Shared, addr: Addr, is_done: &AtomicBool) -> bool {
    let mut changes: usize = 0;
    let mut last = 0;
    for _ in 0..TIMES {
        let Some(byte) = byte_of_one_write(rt, shared, addr) else {
            return false;
        };
        if byte != last {
            last = byte;
            changes = changes.wrapping_add(1);
        }
        if changes >= CHANGES || is_done.load(Ordering::SeqCst) {
            break;
        }
    }
    changes >= CHANGES
}

/// Reads so, and then lets the other thread stop.
fn read_to_end<R: Wait>(rt: &R, shared: &impl Shared, addr: Addr, is_done: &AtomicBool) -> bool {
    let is_right = read_often(rt, shared, addr, is_done);
    is_done.store(true, Ordering::SeqCst);
    is_right
}

/// Whether a thread that reads a payload sees all of a write of another one, or nothing of it.
fn is_one_step<R: Threads + Wait + Sync>(
    rt: &R,
    shared: &(impl Shared + Sync),
    addr: Addr,
) -> bool {
    let is_done = AtomicBool::new(false);
    let ends = thread::join(
        rt,
        || write_often(rt, shared, addr, &is_done),
        || read_to_end(rt, shared, addr, &is_done),
    );
    ends == (true, true)
}

/// Whether it does so in a `GlobalTlsf`.
fn is_one_step_shared<R: Abort + Threads + Wait + Sync>(rt: &R, alloc: Global) -> bool {
    let shared = GlobalTlsf::<()>::new(alloc, memory(rt, alloc, 65536));
    let addr = shared.alloc(rt, Layout::from_size_align_unchecked(LEN, 8));
    is_one_step(rt, &shared, addr.expect(rt, "a payload"))
}

/// Whether it does so in a `Journaled`.
fn is_one_step_journaled<R: Abort + Threads + Wait + Sync>(rt: &R, alloc: Global) -> bool {
    let layout = Layout::from_size_align_unchecked(LEN, 8);
    let (journaled, mut passes) = over(rt, alloc, 65536, 1);
    let addr = allocated(rt, &journaled, &mut passes, layout);
    is_one_step(rt, &journaled, addr.expect(rt, "a payload"))
}

#[test]
fn a_reader_sees_all_of_a_write_or_nothing(rt: HostRuntime) {
    let answers = [
        is_one_step_shared(&rt, rt.alloc()),
        is_one_step_journaled(&rt, rt.alloc()),
    ];
    all(&rt, &answers);
}

/// How often a payload moves while another thread writes to it.
const MOVES: usize = 100;

/// The call that moves it.
#[derive(Clone, Copy)]
enum Moves {
    Realloc,
    Reallocate,
}

/// Writes 1, 2, .. to a payload until its address is refused. Returns the last number.
fn write_until_refused<R: Wait, Options: GlobalTlsfOptions>(
    rt: &R,
    shared: &GlobalTlsf<Options>,
    addr: Addr,
    is_begun: &AtomicBool,
) -> u64 {
    for number in 0..10_000_000u64 {
        let bytes = number.wrapping_add(1).to_le_bytes();
        if shared.write_payload(rt, addr, 0, &bytes).is_err() {
            return number;
        }
        is_begun.store(true, Ordering::SeqCst);
    }
    0
}

/// Moves a payload of 100 bytes into one of 200, once another thread has begun to write.
fn move_away<R: Wait, Options: GlobalTlsfOptions>(
    rt: &R,
    shared: &GlobalTlsf<Options>,
    addr: Addr,
    call: Moves,
    is_begun: &AtomicBool,
) -> Result<Addr, GlobalError> {
    for _ in 0..100_000_000 {
        if is_begun.load(Ordering::SeqCst) {
            break;
        }
    }
    match call {
        Moves::Realloc => shared.realloc(rt, addr, Layout::from_size_align_unchecked(100, 8), 200),
        Moves::Reallocate => {
            shared.reallocate(rt, addr, Layout::from_size_align_unchecked(200, 8))
        }
    }
}

/// Moves a payload while another thread writes to its old address. Returns the last number that was written, and the new address.
fn written_and_moved<R: Threads + Wait + Sync, Options: GlobalTlsfOptions + Send>(
    rt: &R,
    shared: &GlobalTlsf<Options>,
    addr: Addr,
    call: Moves,
) -> (u64, Result<Addr, GlobalError>) {
    let is_begun = AtomicBool::new(false);
    thread::join(
        rt,
        || write_until_refused(rt, shared, addr, &is_begun),
        || move_away(rt, shared, addr, call, &is_begun),
    )
}

/// Reads the number in a payload, and deallocates it.
fn take_number<R: Wait, Options: GlobalTlsfOptions>(
    rt: &R,
    shared: &GlobalTlsf<Options>,
    addr: Addr,
) -> Result<u64, GlobalError> {
    let mut bytes = [0; 8];
    shared.read_payload(rt, addr, 0, &mut bytes)?;
    shared.deallocate(rt, addr)?;
    Ok(u64::from_le_bytes(bytes))
}

/// Returns whether a payload has, after such a move, the last number that was written.
fn keeps_the_last_number<R: Threads + Wait + Sync, Options: GlobalTlsfOptions + Send>(
    rt: &R,
    shared: &GlobalTlsf<Options>,
    call: Moves,
) -> Result<bool, GlobalError> {
    let addr = shared.alloc(rt, Layout::from_size_align_unchecked(100, 8))?;
    let (last, moved) = written_and_moved(rt, shared, addr, call);
    Ok(take_number(rt, shared, moved?)? == last)
}

/// How many of the moves go as they should, one after another.
fn right_moves<R: Abort + Threads + Wait + Sync, Options: GlobalTlsfOptions + Send>(
    rt: &R,
    alloc: Global,
    call: Moves,
) -> usize {
    let shared = GlobalTlsf::<Options>::new(alloc, memory(rt, alloc, 65536));
    for number in 0..MOVES {
        if keeps_the_last_number(rt, &shared, call) != Ok(true) {
            return number;
        }
    }
    MOVES
}

#[test]
fn a_move_is_one_step_for_a_writer(rt: HostRuntime) {
    let counts = [
        right_moves::<_, SmallGlobalTlsfOptions>(&rt, rt.alloc(), Moves::Realloc),
        right_moves::<_, SmallGlobalTlsfOptions>(&rt, rt.alloc(), Moves::Reallocate),
        right_moves::<_, ()>(&rt, rt.alloc(), Moves::Reallocate),
    ];
    all(&rt, &[counts == [MOVES; 3]]);
}
