//! Tests of a code for each multiple of 16 in a memory.

ghost use Rattle.std.specs.Prelude.{◌≡◌};
ghost use Rattle.rlsf_codes.specs.Codes.{HasCapacity, code_space, codes_for};

use crate::answers::{all, passes};
use rlsf_codes::Codes;
use std::alloc::Global;
use std::process::Abort;

/// The code of an address without a place.
const NONE: u8 = 7;

/// Addresses below and above those of a memory, not a multiple of 16, and odd.
static STRANGE: [usize; 6] = [0, 16, 160, usize::MAX - 15, 40, 33];

/// Returns no codes, with room for those of 100 bytes from 40 on: the first is that of 32, and the last that of 144.
fn reserved(rt: &(impl Abort + AllocGlobal)) -> Codes<u8>
    ensures space { code_space result ≡ codes_for 40 100 7 }
    ensures room { HasCapacity result }
{
    let mut codes = Codes::new(rt.alloc(), 40, 100, NONE);
    codes.reserve().expect(rt, "codes");
    codes
}

#[test]
fn codes_are_set_and_read(rt: HostRuntime) {
    let mut codes = reserved(&rt);
    codes.cover(3);
    codes.set(32, 1);
    let unstored = [codes.get(48), codes.look(144), codes.get(144)];
    let stored = codes.len();
    codes.cover(usize::MAX);
    codes.set(144, 2);
    let ends = [codes.look(32), codes.get(48), codes.look(144)];
    let last = codes.len() - 1;
    let places = [stored, last, codes.before(16), codes.before(144)];
    let at_last = codes.addr(last) == 144 && codes.code(last) == 2;
    codes.clear();
    let cleared = [codes.get(32), codes.get(48), codes.get(144)];
    let read = [unstored, ends, cleared] == [[NONE; 3], [1, NONE, 2], [NONE; 3]];
    all(&rt, &[read, places == [3, 7, 0, 7], at_last]);
}

#[test]
fn other_addresses_have_none(rt: HostRuntime) {
    let mut codes = reserved(&rt);
    codes.cover(usize::MAX);
    codes.set(32, 1);
    for addr in &STRANGE {
        passes(&rt, codes.get(*addr) == NONE, *addr);
    }
}

#[test]
fn more_room_than_there_is(rt: HostRuntime) {
    let mut codes = Codes::new(rt.alloc(), 0, usize::MAX, 0u16);
    let is_refused = codes.reserve().is_err();
    all(&rt, &[is_refused, codes.get(0) == 0, codes.len() == 0]);
}
