//! Two threads over one allocator.

use crate::answers::{all, memory};
use crate::steps::placed;
use rlsf_base::memory::{Addr, Layout};
use rlsf_global::{CAlloc, GlobalTlsf, GlobalTlsfOptions, SmallGlobalTlsfOptions};
use std::alloc::Global;
use std::process::Abort;
use std::sync::Wait;
use std::thread;
use std::thread::Threads;

/// How many payloads each thread fills, reads back and frees.
const ROUNDS: usize = 10000;

/// The size of the payload of a round.
fn size_of(round: usize) -> usize {
    1 + round % 100
}

/// The byte that fills it.
fn byte_of(round: usize, mark: u8) -> u8 {
    ((round % 128) as u8) ^ mark
}

/// Allocates a payload, and fills it; nothing where a call is refused.
fn filled<R: Wait, Options: GlobalTlsfOptions>(
    rt: &R,
    shared: &GlobalTlsf<Options>,
    round: usize,
    mark: u8,
) -> Option<Addr> {
    let size = size_of(round);
    let bytes = [byte_of(round, mark); 100];
    let bytes = bytes.get(..size)?;
    let layout = Layout::from_size_align(size, 8).ok()?;
    let addr = shared.alloc(rt, layout).ok()?;
    match shared.write_payload(rt, addr, 0, bytes) {
        Ok(()) => Some(addr),
        Err(_) => None,
    }
}

/// Reads a payload back, and frees it; whether its bytes were those that it was filled with.
fn emptied<R: Wait, Options: GlobalTlsfOptions>(
    rt: &R,
    shared: &GlobalTlsf<Options>,
    addr: Addr,
    round: usize,
    mark: u8,
) -> bool {
    let size = size_of(round);
    let wanted = [byte_of(round, mark); 100];
    let mut found = [mark ^ 1; 100];
    let Some(bytes) = found.get_mut(..size) else {
        return false;
    };
    let is_read = shared.read_payload(rt, addr, 0, bytes).is_ok();
    is_read && found.get(..size) == wanted.get(..size) && shared.deallocate(rt, addr).is_ok()
}

/// How many rounds go as they should, one after another. A payload is read back when the next one has been filled.
fn rounds<R: Wait, Options: GlobalTlsfOptions>(
    rt: &R,
    shared: &GlobalTlsf<Options>,
    mark: u8,
) -> usize {
    let mut last = None;
    for round in 0..ROUNDS {
        let Some(addr) = filled(rt, shared, round, mark) else {
            return round;
        };
        if let Some(before) = last {
            if !emptied(rt, shared, before, round.wrapping_sub(1), mark) {
                return round;
            }
        }
        last = Some(addr);
    }
    match last {
        Some(addr) if emptied(rt, shared, addr, ROUNDS - 1, mark) => ROUNDS,
        _ => 0,
    }
}

/// Passes if all rounds of two threads go as they should.
fn of_two<R: Abort + Threads + Wait + Sync, Options: GlobalTlsfOptions + Send>(
    rt: &R,
    alloc: Global,
) {
    let shared = GlobalTlsf::<Options>::new(alloc, memory(rt, alloc, 65536));
    let (first, second) = thread::join(rt, || rounds(rt, &shared, 0), || rounds(rt, &shared, 128));
    // Nothing is live behind them, so one free block has nearly the complete page.
    let after = placed(shared.alloc(rt, Layout::from_size_align_unchecked(65000, 8)));
    all(rt, &[(first, second, after) == (ROUNDS, ROUNDS, 65552)]);
}

#[test]
fn fill_and_read_back(rt: HostRuntime) {
    of_two::<_, ()>(&rt, rt.alloc());
    of_two::<_, SmallGlobalTlsfOptions>(&rt, rt.alloc());
}
