//! The table of live payloads, by calls whose payloads are close to each other, on pages of their own, or at an end of the memory.

use crate::runs::all_go_so;
use crate::steps::{NO_ROOM, Run, Step, WRONG_LAYOUT};
use rlsf_global::{GlobalError, Locked, SmallGlobalTlsfOptions};

const UNKNOWN_ADDRESS: usize = GlobalError::UnknownAddress as usize;

/// Runs that both kinds of allocators have.
static ALIKE: [Run; 6] = [
    (131072, &NEIGHBOURS),
    (131072, &STALE),
    (131072, &LAST_MOVES),
    (65536, &SAME_LAST_BITS),
    (65536, &ENDS),
    (65536, &EMPTIED),
];

/// A payload without bytes at the end of its block, and one 16 bytes behind it.
const NEIGHBOURS: [(Step, usize); 12] = [
    (Step::Allocate(0, 32), 65568),
    (Step::Allocate(1, 1), 65584),
    (Step::Usable(65568), 0),
    (Step::Usable(65584), 16),
    (Step::Deallocate(65568), 0),
    (Step::Usable(65568), UNKNOWN_ADDRESS),
    (Step::Usable(65584), 16),
    (Step::Allocate(0, 32), 65568),
    (Step::Dealloc(65584, 1, 1), 0),
    (Step::Usable(65584), UNKNOWN_ADDRESS),
    (Step::Dealloc(65568, 0, 32), 0),
    (Step::Usable(65568), UNKNOWN_ADDRESS),
];

/// A stale address between two live ones, and addresses that are off by 1, 8, 16 and 32 bytes.
const STALE: [(Step, usize); 26] = [
    (Step::Alloc(1, 1), 65552),
    (Step::Alloc(1, 1), 65584),
    (Step::Alloc(1, 1), 65616),
    (Step::Dealloc(65584, 1, 1), 0),
    (Step::Usable(65584), UNKNOWN_ADDRESS),
    (Step::Dealloc(65584, 1, 1), UNKNOWN_ADDRESS),
    (Step::Realloc(65584, 1, 1, 2), UNKNOWN_ADDRESS),
    (Step::Reallocate(65584, 1, 1), UNKNOWN_ADDRESS),
    (Step::Deallocate(65551), UNKNOWN_ADDRESS),
    (Step::Deallocate(65544), UNKNOWN_ADDRESS),
    (Step::Deallocate(65536), UNKNOWN_ADDRESS),
    (Step::Deallocate(65520), UNKNOWN_ADDRESS),
    (Step::Deallocate(65553), UNKNOWN_ADDRESS),
    (Step::Dealloc(65560, 1, 1), UNKNOWN_ADDRESS),
    (Step::Usable(65568), UNKNOWN_ADDRESS),
    (Step::Write(65615, 0, 1), UNKNOWN_ADDRESS),
    (Step::Read(65608, 0, 1), UNKNOWN_ADDRESS),
    (Step::NoMove(65600, 1, 1, 2), UNKNOWN_ADDRESS),
    (Step::Deallocate(65617), UNKNOWN_ADDRESS),
    (Step::Deallocate(65624), UNKNOWN_ADDRESS),
    (Step::Deallocate(65632), UNKNOWN_ADDRESS),
    (Step::Deallocate(65648), UNKNOWN_ADDRESS),
    (Step::Deallocate(usize::MAX), UNKNOWN_ADDRESS),
    (Step::Usable(65552), 16),
    (Step::Usable(65616), 16),
    (Step::Alloc(1, 1), 65584),
];

/// The payloads that were allocated last stay known while earlier ones are freed, with their layouts.
const LAST_MOVES: [(Step, usize); 11] = [
    (Step::Alloc(40, 8), 65552),
    (Step::Alloc(1, 1), 65616),
    (Step::Alloc(2, 2), 65648),
    (Step::Alloc(3, 4), 65680),
    (Step::Dealloc(65552, 40, 8), 0),
    (Step::Dealloc(65680, 2, 2), WRONG_LAYOUT),
    (Step::Dealloc(65680, 3, 4), 0),
    (Step::Dealloc(65648, 3, 4), WRONG_LAYOUT),
    (Step::Dealloc(65648, 2, 2), 0),
    (Step::Dealloc(65616, 1, 1), 0),
    (Step::Dealloc(65616, 1, 1), UNKNOWN_ADDRESS),
];

/// Layouts of one alignment whose sizes differ by 32 bytes. The payload's length determines which one is the last.
const SAME_LAST_BITS: [(Step, usize); 17] = [
    (Step::Alloc(40, 8), 65552),
    (Step::Alloc(0, 8), 65616),
    (Step::Dealloc(65552, 8, 8), WRONG_LAYOUT),
    (Step::Dealloc(65552, 72, 8), WRONG_LAYOUT),
    (Step::Realloc(65552, 72, 8, 100), WRONG_LAYOUT),
    (Step::Dealloc(65616, 32, 8), WRONG_LAYOUT),
    (Step::NoMove(65552, 40, 8, 8), 65552),
    (Step::Usable(65552), 16),
    (Step::Dealloc(65552, 40, 8), WRONG_LAYOUT),
    (Step::NoMove(65552, 8, 8, 41), 65552),
    (Step::Dealloc(65552, 9, 8), WRONG_LAYOUT),
    (Step::NoMove(65552, 41, 8, 48), 65552),
    (Step::Dealloc(65552, 16, 8), WRONG_LAYOUT),
    (Step::Reallocate(65616, 32, 8), 65648),
    (Step::Dealloc(65648, 0, 8), WRONG_LAYOUT),
    (Step::Dealloc(65648, 32, 8), 0),
    (Step::Dealloc(65552, 48, 8), 0),
];

/// Payloads in the first and in the last 32 bytes of a memory of one page.
const ENDS: [(Step, usize); 19] = [
    (Step::Allocate(1, 1), 65552),
    (Step::Allocate(1, 1), 65584),
    (Step::NoMove(65584, 1, 1, 65424), 65584),
    (Step::Allocate(0, 32), 131040),
    (Step::Usable(131040), 0),
    (Step::Usable(131024), UNKNOWN_ADDRESS),
    (Step::Usable(131041), UNKNOWN_ADDRESS),
    (Step::Usable(131072), UNKNOWN_ADDRESS),
    (Step::Usable(65536), UNKNOWN_ADDRESS),
    (Step::Allocate(1, 1), NO_ROOM),
    (Step::Dealloc(131040, 0, 32), 0),
    (Step::Usable(131040), UNKNOWN_ADDRESS),
    (Step::Allocate(1, 1), 131024),
    (Step::Usable(131024), 16),
    (Step::Deallocate(65552), 0),
    (Step::Usable(65552), UNKNOWN_ADDRESS),
    (Step::Allocate(0, 32), 65568),
    (Step::Usable(65568), 0),
    (Step::Usable(65584), 65424),
];

/// The last payload of 16384 bytes of addresses goes, and these get one again. Then the last two of the bytes before them go.
const EMPTIED: [(Step, usize); 18] = [
    (Step::Allocate(1, 1), 65552),
    (Step::Allocate(16368, 1), 65584),
    (Step::Allocate(1, 1), 81968),
    (Step::Deallocate(81968), 0),
    (Step::Usable(81968), UNKNOWN_ADDRESS),
    (Step::Usable(65552), 16),
    (Step::Usable(65584), 16368),
    (Step::Allocate(1, 1), 81968),
    (Step::Usable(81968), 16),
    (Step::Deallocate(65552), 0),
    (Step::Usable(65584), 16368),
    (Step::Deallocate(65584), 0),
    (Step::Usable(65584), UNKNOWN_ADDRESS),
    (Step::Usable(65552), UNKNOWN_ADDRESS),
    (Step::Usable(81968), 16),
    (Step::Allocate(1, 1), 65552),
    (Step::Dealloc(65552, 1, 1), 0),
    (Step::Dealloc(81968, 1, 1), 0),
];

/// Runs of an allocator that coalesces its pools and doesn't always move a payload.
static COALESCING: [Run; 2] = [(262144, &ALIGNED), (196608, &FRESH_PAGE)];

/// Payloads of great alignments. One that was freed leaves 4064 bytes, which are too few for another like it.
const ALIGNED: [(Step, usize); 11] = [
    (Step::Allocate(1, 32), 65568),
    (Step::Allocate(1, 4096), 69632),
    (Step::Allocate(1, 65536), 131072),
    (Step::Usable(65568), 32),
    (Step::Usable(69632), 32),
    (Step::Usable(131072), 32),
    (Step::Dealloc(69632, 1, 4096), 0),
    (Step::Usable(69632), UNKNOWN_ADDRESS),
    (Step::Allocate(1, 4096), 135168),
    (Step::Dealloc(131072, 1, 65536), 0),
    (Step::Dealloc(65568, 1, 32), 0),
];

/// A payload moves to a page that has had none, and is freed. Then the page gets one again.
const FRESH_PAGE: [(Step, usize); 13] = [
    (Step::Allocate(1, 1), 65552),
    (Step::Allocate(1, 1), 65584),
    (Step::NoMove(65584, 1, 1, 65456), 65584),
    (Step::Allocate(100, 1), 131056),
    (Step::Write(65552, 0, 16), 0),
    (Step::Realloc(65552, 1, 1, 200), 131184),
    (Step::Read(131184, 0, 16), 0),
    (Step::Deallocate(65552), UNKNOWN_ADDRESS),
    (Step::Dealloc(131184, 200, 1), 0),
    (Step::Usable(131184), UNKNOWN_ADDRESS),
    (Step::Allocate(200, 1), 131184),
    (Step::Usable(131184), 208),
    (Step::Usable(131056), 112),
];

/// The same runs where each range of the source is a pool of its own, and a payload always moves.
static APART: [Run; 2] = [(262144, &ALIGNED_APART), (196608, &FRESH_POOL)];

/// The freed payload's block joins the free one behind it, which is in the class of the other pool's, and newer.
const ALIGNED_APART: [(Step, usize); 11] = [
    (Step::Allocate(1, 32), 65568),
    (Step::Allocate(1, 4096), 69632),
    (Step::Allocate(1, 65536), 196608),
    (Step::Usable(65568), 32),
    (Step::Usable(69632), 32),
    (Step::Usable(196608), 32),
    (Step::Dealloc(69632, 1, 4096), 0),
    (Step::Usable(69632), UNKNOWN_ADDRESS),
    (Step::Allocate(1, 4096), 69632),
    (Step::Dealloc(196608, 1, 65536), 0),
    (Step::Dealloc(65568, 1, 32), 0),
];

const FRESH_POOL: [(Step, usize); 11] = [
    (Step::Allocate(1, 1), 65552),
    (Step::Allocate(1, 1), 65584),
    (Step::NoMove(65584, 1, 1, 65456), 65584),
    (Step::Write(65552, 0, 1), 0),
    (Step::Realloc(65552, 1, 1, 200), 131088),
    (Step::Read(131088, 0, 1), 0),
    (Step::Deallocate(65552), UNKNOWN_ADDRESS),
    (Step::Dealloc(131088, 200, 1), 0),
    (Step::Usable(131088), UNKNOWN_ADDRESS),
    (Step::Allocate(200, 1), 131088),
    (Step::Usable(131088), 208),
];

#[test]
fn live_addresses_are_found(rt: HostRuntime) {
    all_go_so::<_, Locked<()>>(&rt, rt.alloc(), &ALIKE);
    all_go_so::<_, Locked<()>>(&rt, rt.alloc(), &COALESCING);
    all_go_so::<_, Locked<SmallGlobalTlsfOptions>>(&rt, rt.alloc(), &ALIKE);
    all_go_so::<_, Locked<SmallGlobalTlsfOptions>>(&rt, rt.alloc(), &APART);
}
