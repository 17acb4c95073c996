//! Random calls against a plain table of what must live.

use super::pools::{START, Small, small};
use crate::bytes::is_all;
use crate::pools::layout_of;
use crate::words::next;
use rlsf_base::memory::{Addr, Range};
use rlsf_checked::CheckedError;
use std::num::NonZeroUsize;
use std::process::Abort;

/// How many payloads may live at once.
const PLACES: usize = 32;

/// How long the memory is: too short for so many payloads at times.
const LEN: usize = 4096;

/// What must live at an address: so many bytes that hold this one.
#[derive(Clone, Copy)]
struct Entry {
    addr: Addr,
    size: usize,
    byte: u8,
}

/// Passes if the answer is true. Otherwise the failure shows what is wrong.
fn passes(rt: &impl Abort, answer: bool, wrong: &str) {
    assert!(rt; answer, "{wrong}");
}

/// Whether the payload of an entry has its bytes.
fn holds(pool: &Small, entry: Entry) -> bool {
    match pool.payload(entry.addr) {
        Ok(bytes) => match bytes.get(..entry.size) {
            Some(asked) => is_all(asked, entry.byte),
            None => false,
        },
        Err(_) => false,
    }
}

/// Fills the first bytes of a payload, one by one.
fn fill(pool: &mut Small, rt: &impl Abort, entry: Entry) {
    for offset in 0..entry.size {
        let written = pool.write(entry.addr, offset, &[entry.byte]);
        passes(rt, written.is_ok(), "a byte of a payload is refused");
    }
}

/// The address that a call answers, or none where there is no room.
fn found(rt: &impl Abort, answer: Result<Addr, CheckedError>) -> Option<Addr> {
    match answer {
        Ok(addr) => Some(addr),
        Err(error) => {
            passes(
                rt,
                error == CheckedError::NoRoom,
                "it isn't for want of room",
            );
            None
        }
    }
}

/// Allocates a payload and fills it, where there is room.
fn placed(pool: &mut Small, rt: &impl Abort, size: usize, align: usize, byte: u8) -> Option<Entry> {
    let addr = found(rt, pool.allocate(layout_of(rt, size, align)))?;
    let entry = Entry { addr, size, byte };
    fill(pool, rt, entry);
    Some(entry)
}

/// Gives a payload another size, and its bytes another value, where there is room.
fn resized(pool: &mut Small, rt: &impl Abort, entry: Entry, size: usize, byte: u8) -> Entry {
    let Some(addr) = found(rt, pool.reallocate(entry.addr, size)) else {
        return entry;
    };
    let kept = Entry {
        addr,
        size: size.min(entry.size),
        byte: entry.byte,
    };
    let is_kept = holds(pool, kept);
    passes(rt, is_kept, "the bytes that both sizes have are not kept");
    let entry = Entry { addr, size, byte };
    fill(pool, rt, entry);
    entry
}

/// Whether some entry has the address.
fn is_listed(table: &[Option<Entry>], addr: Addr) -> bool {
    for entry in table {
        if let Some(entry) = entry {
            if entry.addr == addr {
                return true;
            }
        }
    }
    false
}

/// Asks at any address of the memory or near it, and deallocates the payload that is there by chance, if the table has it too.
fn asked(pool: &mut Small, rt: &impl Abort, table: &[Option<Entry>], word: u64) {
    let [_, _, high, low, ..] = word.to_be_bytes();
    let offset = usize::from(high) * 256 + usize::from(low);
    let Some(addr) = NonZeroUsize::new(START - 64 + offset % (LEN + 128)) else {
        return;
    };
    let is_live = is_listed(table, addr);
    let is_marked = pool.usable_size(addr).is_ok();
    passes(rt, is_marked == is_live, "the table and the marks differ");
    if !is_live {
        let is_refused = pool.deallocate(addr) == Err(CheckedError::UnknownAddress);
        passes(rt, is_refused, "a strange address was freed");
    }
}

/// Makes a call that a word chooses on the payload of a place, and returns what must live there then.
fn after(pool: &mut Small, rt: &impl Abort, entry: Option<Entry>, word: u64) -> Option<Entry> {
    let [kind, byte, shift, long, ..] = word.to_be_bytes();
    let size = usize::from(long) + usize::from(kind) / 64 * 60;
    let Some(entry) = entry else {
        return placed(pool, rt, size, 1 << (shift % 8), byte);
    };
    passes(rt, holds(pool, entry), "a payload lost its bytes");
    if kind % 2 == 0 {
        return Some(resized(pool, rt, entry, size, byte));
    }
    let freed = pool.deallocate(entry.addr);
    passes(rt, freed.is_ok(), "a payload isn't freed");
    None
}

/// Makes 2,000 random calls, each with its answer by the table.
fn agrees_with_a_table(pool: &mut Small, rt: &impl Abort) {
    let mut table = [None; PLACES];
    let mut word = 35;
    for _ in 0..2000 {
        word = next(word);
        asked(pool, rt, &table, word);
        let [.., place] = next(word).to_le_bytes();
        if let Some(entry) = table.get_mut(usize::from(place) % PLACES) {
            *entry = after(pool, rt, *entry, word);
        }
    }
}

#[test]
fn calls_agree_with_a_table(rt: HostRuntime) {
    let mut pool = small(&rt, LEN);
    let all = Range {
        start: START,
        len: LEN,
    };
    passes(
        &rt,
        pool.insert(all) == Ok(LEN),
        "the memory isn't handed in",
    );
    agrees_with_a_table(&mut pool, &rt);
}
