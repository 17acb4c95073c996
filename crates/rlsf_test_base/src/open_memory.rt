//! Tests of a memory from which bytes can leave.
#![tactic(auto)]

ghost use Rattle.std.specs.Prelude.{◌≡◌, length};
ghost use Rattle.rlsf_base.specs.Changes.{IsAllOwn};
ghost use Rattle.rlsf_base.specs.OpenSpace.{IsHere};
ghost use Rattle.rlsf_base.specs.Space.{range_of};

use crate::answers::all;
use rlsf_base::memory::ledger::Ledger;
use rlsf_base::memory::{OpenMemory, Range};
use std::process::Abort;
use std::thread;

/// Both words that most tests write: their bytes are 1 to 16.
const FIRST: u64 = 0x0807060504030201;

const SECOND: u64 = 0x100f0e0d0c0b0a09;

/// All addresses of a memory of 32 bytes.
const ALL: Range = Range {
    start: 4096,
    len: 32,
};

const LOWER: Range = Range {
    start: 4096,
    len: 8,
};

const UPPER: Range = Range {
    start: 4104,
    len: 8,
};

/// A memory of 32 raw bytes.
fn reserved(rt: &(impl Abort + AllocGlobal)) -> OpenMemory
    ensures start { result.start ≡ 4096 }
    ensures len { length result.bytes ≡ 32 }
    ensures own { IsAllOwn result.out }
{
    OpenMemory::reserve(rt.alloc(), 4096, 32).expect(rt, "a memory")
}

/// A memory of 32 bytes, all of them 0.
fn zeros(rt: &(impl Abort + AllocGlobal)) -> OpenMemory
    ensures start { result.start ≡ 4096 }
    ensures len { length result.bytes ≡ 32 }
    ensures here { IsHere result (range_of result) }
    ensures own { IsAllOwn result.out }
{
    OpenMemory::new(rt.alloc(), 4096, 32).expect(rt, "a memory")
}

#[test]
fn words_on_raw_bytes(rt: HostRuntime) {
    let mut memory = reserved(&rt);
    memory.set_word(4096, FIRST);
    memory.set_word(4104, SECOND);
    let words = [memory.word(4096), memory.load(4104)];
    memory.free();
    all(&rt, &[words == [FIRST, SECOND]]);
}

#[test]
fn new_bytes_are_zero(rt: HostRuntime) {
    let memory = zeros(&rt);
    let are_zero = memory.slice(ALL) == [0; 32].as_slice();
    let is_placed = memory.start() == 4096 && memory.len() == 32;
    memory.free();
    all(&rt, &[are_zero, is_placed]);
}

#[test]
fn two_parts_at_once(rt: HostRuntime) {
    let mut memory = zeros(&rt);
    memory.set_word(4096, FIRST);
    memory.set_word(4104, SECOND);
    let mut lower = memory.take_out(LOWER);
    let mut upper = memory.take_out(UPPER);
    let are_read = lower.as_slice() == [1, 2, 3, 4, 5, 6, 7, 8].as_slice()
        && upper.as_slice() == [9, 10, 11, 12, 13, 14, 15, 16].as_slice();
    let are_placed = lower.start() == 4096 && upper.start() == 4104 && upper.len() == 8;
    lower.as_mut_slice().swap_with_slice(upper.as_mut_slice());
    memory.put_back(upper);
    memory.put_back(lower);
    let words = [memory.word(4096), memory.word(4104), memory.word(4112)];
    memory.free();
    all(&rt, &[are_read, are_placed, words == [SECOND, FIRST, 0]]);
}

#[test]
fn part_crosses_threads(rt: HostRuntime) {
    let mut memory = zeros(&rt);
    let mut part = memory.take_out(LOWER);
    let bytes = part.as_mut_slice();
    thread::join(&rt, || bytes.fill(7), || ());
    memory.set_word(4104, SECOND);
    memory.put_back(part);
    let words = [memory.word(4096), memory.word(4104)];
    memory.free();
    all(&rt, &[words == [0x0707070707070707, SECOND]]);
}

#[test]
fn room_leaves_and_comes_back(rt: HostRuntime) {
    let mut memory = reserved(&rt);
    memory.set_word(4104, SECOND);
    let room = memory.take_out(LOWER);
    let is_placed = room.start() == 4096 && room.len() == 8;
    let word = memory.word(4104);
    memory.put_room(room);
    memory.set_word(4096, FIRST);
    let words = [memory.word(4096), memory.word(4104)];
    memory.free();
    all(&rt, &[is_placed, word == SECOND, words == [FIRST, SECOND]]);
}

#[test]
fn tickets_are_redeemed(_rt: HostRuntime) {
    let mut ledger = Ledger::new();
    let first = ledger.issue(4096, 8, 8);
    let second = ledger.issue(4104, 24, 16);
    ledger.redeem(second);
    ledger.redeem(first);
}

#[test]
fn copies_onto_raw_bytes_apart(rt: HostRuntime) {
    let mut memory = reserved(&rt);
    memory.set_word(4096, FIRST);
    let from = Range {
        start: 4097,
        len: 3,
    };
    memory.copy_within(from, 4117);
    let place = Range {
        start: 4117,
        len: 3,
    };
    let is_copied = memory.slice(place) == [2, 3, 4].as_slice();
    memory.free();
    all(&rt, &[is_copied]);
}

/// A memory of 64 bytes, all of them 0.
fn wide_zeros(rt: &(impl Abort + AllocGlobal)) -> OpenMemory
    ensures start { result.start ≡ 4096 }
    ensures len { length result.bytes ≡ 64 }
    ensures here { IsHere result (range_of result) }
    ensures own { IsAllOwn result.out }
{
    OpenMemory::new(rt.alloc(), 4096, 64).expect(rt, "a memory")
}

#[test]
fn copies_a_unit_and_a_rest(rt: HostRuntime) {
    let mut memory = wide_zeros(&rt);
    memory.set_word(4096, FIRST);
    memory.set_word(4104, SECOND);
    memory.set_word(4112, FIRST);
    let from = Range {
        start: 4097,
        len: 19,
    };
    memory.copy_within(from, 4131);
    let place = Range {
        start: 4131,
        len: 19,
    };
    let is_copied = memory.slice(place)
        == [
            2, 3, 4, 5, 6, 7, 8, 9, 10, 11, 12, 13, 14, 15, 16, 1, 2, 3, 4,
        ]
        .as_slice();
    memory.free();
    all(&rt, &[is_copied]);
}

#[test]
fn copies_up_onto_raw_bytes(rt: HostRuntime) {
    let mut memory = reserved(&rt);
    memory.set_word(4096, FIRST);
    memory.set_word(4104, SECOND);
    let from = Range {
        start: 4096,
        len: 16,
    };
    memory.copy_within(from, 4100);
    let place = Range {
        start: 4096,
        len: 20,
    };
    let is_copied = memory.slice(place)
        == [
            1, 2, 3, 4, 1, 2, 3, 4, 5, 6, 7, 8, 9, 10, 11, 12, 13, 14, 15, 16,
        ]
        .as_slice();
    memory.free();
    all(&rt, &[is_copied]);
}

#[test]
fn copies_down_onto_raw_bytes(rt: HostRuntime) {
    let mut memory = reserved(&rt);
    memory.set_word(4104, FIRST);
    memory.set_word(4112, SECOND);
    let from = Range {
        start: 4104,
        len: 16,
    };
    memory.copy_within(from, 4100);
    let place = Range {
        start: 4100,
        len: 20,
    };
    let is_copied = memory.slice(place)
        == [
            1, 2, 3, 4, 5, 6, 7, 8, 9, 10, 11, 12, 13, 14, 15, 16, 13, 14, 15, 16,
        ]
        .as_slice();
    memory.free();
    all(&rt, &[is_copied]);
}

#[test]
fn copies_units_onto_those_before_them(rt: HostRuntime) {
    let mut memory = wide_zeros(&rt);
    memory.set_word(4112, 1);
    memory.set_word(4128, 2);
    memory.set_word(4152, 3);
    let from = Range {
        start: 4112,
        len: 48,
    };
    memory.copy_units_at(memory.view(), from, 4096);
    let words = [
        memory.word(4096),
        memory.word(4112),
        memory.word(4128),
        memory.word(4136),
        memory.word(4144),
        memory.word(4152),
    ];
    memory.free();
    all(&rt, &[words == [1, 2, 0, 3, 0, 3]]);
}
