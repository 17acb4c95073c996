//! The original's random tests of its shared allocator, of both kinds: fixed lists of bytes that mean calls. The places of the
//! payloads are tables, as the reference model behind the lock computed them (`originals/tables.py`). They are equal for both
//! kinds.

mod lists;
mod tables;

use self::lists::{LIST_1, LIST_2, LIST_3, LIST_4};
use self::tables::{PLACED_1, PLACED_2, PLACED_3, PLACED_4};
use crate::answers::all;
use rlsf_base::memory::{Addr, Layout, Memory};
use rlsf_global::{CAlloc, GlobalTlsf, GlobalTlsfOptions, SmallGlobalTlsfOptions};
use std::alloc::Global;
use std::process::Abort;
use std::slice::Iter;
use std::sync::Wait;

/// Where the memory starts.
const START: usize = 65536;

/// A payload that is live, the size that was asked for it, and the first of the bytes that it was filled with.
#[derive(Clone, Copy)]
struct Live {
    addr: Addr,
    size: usize,
    mark: u8,
}

/// A list that is run: the payloads that are live, and the bytes and the addresses that are left.
#[derive(Drop)]
struct Run<Options: GlobalTlsfOptions> {
    shared: GlobalTlsf<Options>,
    live: Vec<Live>,
    bytes: Iter<'static, u8>,
    placed: Iter<'static, u32>,
    mark: u8,
}

/// What the next bytes mean. A payload is named by its place among those that are live.
#[derive(Clone, Copy)]
enum Call {
    Nothing,
    Allocate(Layout),
    Free(usize),
    Move(usize, Layout),
}

/// The call that the next bytes mean, if they don't end before. The first chooses which one. With more than 64 payloads live none
/// is allocated.
fn next_call(bytes: &mut Iter<'_, u8>, live: usize) -> Option<Call> {
    let kind = *bytes.next()? % 8;
    if kind <= 2 && live > 64 {
        return Some(Call::Nothing);
    }
    if kind <= 2 {
        return Some(Call::Allocate(next_layout(bytes)?));
    }
    let Some(place) = next_place(bytes, live)? else {
        return Some(Call::Nothing);
    };
    Some(if kind <= 5 {
        Call::Free(place)
    } else {
        Call::Move(place, next_layout(bytes)?)
    })
}

/// A layout: a byte is the size, and another the alignment.
fn next_layout(bytes: &mut Iter<'_, u8>) -> Option<Layout> {
    let size = usize::from(*bytes.next()?);
    let align = 1 << (*bytes.next()? % 6);
    Layout::from_size_align(size, align).ok()
}

/// The payload that a byte chooses. The outer is none at the end of the bytes, and the inner where none is live.
fn next_place(bytes: &mut Iter<'_, u8>, live: usize) -> Option<Option<usize>> {
    let index = usize::from(*bytes.next()?);
    Some(index.checked_rem(live))
}

impl<Options: GlobalTlsfOptions> Run<Options> {
    /// Nothing is live yet. `None` if the system is out of memory.
    fn new(alloc: Global, bytes: &'static [u8], placed: &'static [u32]) -> Option<Self> {
        let memory = Memory::new(alloc, START, 262144).ok()?;
        Some(Run {
            shared: GlobalTlsf::new(alloc, memory),
            live: Vec::new(alloc),
            bytes: bytes.iter(),
            placed: placed.iter(),
            mark: 0,
        })
    }

    /// Whether all calls up to the last complete one have their expected results, and all payloads that are live then can be
    /// deallocated.
    fn is_right<R: Wait>(&mut self, rt: &R) -> bool {
        for _ in 0..self.bytes.len() {
            let Some(call) = next_call(&mut self.bytes, self.live.len()) else {
                break;
            };
            if !self.goes_so(rt, call) {
                return false;
            }
        }
        self.all_are_freed(rt) && self.placed.len() == 0
    }

    fn all_are_freed<R: Wait>(&mut self, rt: &R) -> bool {
        for payload in self.live.iter() {
            if self.shared.deallocate(rt, payload.addr).is_err() {
                return false;
            }
        }
        true
    }

    /// Whether a call has its expected result.
    fn goes_so<R: Wait>(&mut self, rt: &R, call: Call) -> bool {
        match call {
            Call::Nothing => true,
            Call::Allocate(layout) => self.allocate(rt, layout),
            Call::Free(place) => self.free(rt, place),
            Call::Move(place, layout) => self.move_one(rt, place, layout),
        }
    }

    fn allocate<R: Wait>(&mut self, rt: &R, layout: Layout) -> bool {
        let Ok(addr) = self.shared.allocate(rt, layout) else {
            return false;
        };
        let payload = self.payload(addr, layout.size());
        self.is_next(addr) && self.is_filled(rt, payload) && self.live.push(payload).is_ok()
    }

    fn free<R: Wait>(&mut self, rt: &R, place: usize) -> bool {
        if place >= self.live.len() {
            return false;
        }
        let payload = self.live.swap_remove(place);
        self.has_its_bytes(rt, payload) && self.shared.deallocate(rt, payload.addr).is_ok()
    }

    /// The bytes that are kept are read, and then all are filled anew.
    fn move_one<R: Wait>(&mut self, rt: &R, place: usize, layout: Layout) -> bool {
        let Some(old) = self.live.get(place).copied() else {
            return false;
        };
        let Ok(addr) = self.shared.reallocate(rt, old.addr, layout) else {
            return false;
        };
        let moved = self.payload(addr, layout.size());
        if let Some(payload) = self.live.get_mut(place) {
            *payload = moved;
        }
        let kept = Live {
            addr,
            size: old.size.min(moved.size),
            mark: old.mark,
        };
        self.is_next(addr) && self.has_its_bytes(rt, kept) && self.is_filled(rt, moved)
    }

    /// Whether the next address is this one.
    fn is_next(&mut self, addr: Addr) -> bool {
        self.placed.next().map(|offset| *offset as usize) == addr.get().checked_sub(START)
    }

    /// A payload that gets a mark, so that it is filled in another way than those before it.
    fn payload(&mut self, addr: Addr, size: usize) -> Live {
        self.mark = self.mark.wrapping_add(1);
        Live {
            addr,
            size,
            mark: self.mark,
        }
    }

    /// Fills a payload; whether it could be filled.
    fn is_filled<R: Wait>(&self, rt: &R, payload: Live) -> bool {
        let bytes = filling(payload.mark);
        match bytes.get(..payload.size) {
            Some(bytes) => self
                .shared
                .write_payload(rt, payload.addr, 0, bytes)
                .is_ok(),
            None => false,
        }
    }

    /// Whether a payload's bytes are those that it was filled with.
    fn has_its_bytes<R: Wait>(&self, rt: &R, payload: Live) -> bool {
        let wanted = filling(payload.mark);
        let mut found = [0; 256];
        let Some(bytes) = found.get_mut(..payload.size) else {
            return false;
        };
        let is_read = self.shared.read_payload(rt, payload.addr, 0, bytes).is_ok();
        is_read && found.get(..payload.size) == wanted.get(..payload.size)
    }
}

/// The bytes that payloads are filled with, from the first one on.
fn filling(mark: u8) -> [u8; 256] {
    let mut bytes = [0; 256];
    let mut next = mark;
    for byte in bytes.iter_mut() {
        *byte = next;
        next = next.wrapping_add(7);
    }
    bytes
}

/// Whether a list's calls have their expected results.
fn goes_so<R: Wait, Options: GlobalTlsfOptions>(
    rt: &R,
    alloc: Global,
    bytes: &'static [u8],
    placed: &'static [u32],
) -> bool {
    match Run::<Options>::new(alloc, bytes, placed) {
        Some(mut run) => run.is_right(rt),
        None => false,
    }
}

/// Passes if all lists have their expected results.
fn all_go_so<R: Abort + Wait, Options: GlobalTlsfOptions>(rt: &R, alloc: Global) {
    let found = [
        goes_so::<_, Options>(rt, alloc, &LIST_1, &PLACED_1),
        goes_so::<_, Options>(rt, alloc, &LIST_2, &PLACED_2),
        goes_so::<_, Options>(rt, alloc, &LIST_3, &PLACED_3),
        goes_so::<_, Options>(rt, alloc, &LIST_4, &PLACED_4),
    ];
    all(rt, &found);
}

#[test]
fn coalescing(rt: HostRuntime) {
    all_go_so::<_, ()>(&rt, rt.alloc());
}

#[test]
fn small(rt: HostRuntime) {
    all_go_so::<_, SmallGlobalTlsfOptions>(&rt, rt.alloc());
}
