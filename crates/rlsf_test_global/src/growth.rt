//! Payloads that grow by `realloc` through the lock: in their own block, into the free blocks around it, and elsewhere. The bytes at both
//! ends of each are written before and read back. After a move the old address is refused.
//!
//! The memory begins at 65536. A block has 16 bytes before its payload, and a length that is a multiple of 32. So a payload of 1000 bytes has
//! a block of 1024 bytes, one of 240 bytes a block of 256, and one of 1 byte a block of 32.

use crate::runs::all_go_so;
use crate::steps::{NO_ROOM, Run, Step, UNKNOWN_ADDRESS, WRONG_LAYOUT};
use rlsf_global::{GlobalTlsf, SmallGlobalTlsfOptions};

/// Growth where reallocation in place is enabled.
static GROWS: [Run; 7] = [
    (131072, &OWN_BLOCK),
    (131072, &BLOCK_BEHIND),
    (131072, &BLOCK_BEFORE),
    (131072, &BLOCKS_AROUND),
    (262144, &NEXT_PAGES),
    (131072, &ELSEWHERE),
    (131072, &REFUSED),
];

/// Growth where each payload moves.
static MOVES: [Run; 6] = [
    (131072, &FROM_OWN_BLOCK),
    (131072, &FROM_BLOCK_BEHIND),
    (131072, &FROM_BLOCK_BEFORE),
    (262144, &RANGE_OF_ITS_OWN),
    (131072, &ELSEWHERE),
    (131072, &REFUSED),
];

/// The block has 1008 usable bytes, and the next one is used.
const OWN_BLOCK: [(Step, usize); 10] = [
    (Step::Alloc(1000, 8), 65552),
    (Step::Alloc(1, 1), 66576),
    (Step::Write(65552, 0, 40), 0),
    (Step::Write(65552, 960, 40), 0),
    (Step::Realloc(65552, 1000, 8, 1008), 65552),
    (Step::Read(65552, 0, 40), 0),
    (Step::Read(65552, 960, 40), 0),
    (Step::Usable(65552), 1008),
    (Step::Dealloc(65552, 1000, 8), WRONG_LAYOUT),
    (Step::Dealloc(65552, 1008, 8), 0),
];

/// The same where it moves, behind the last block at 66560. Its old block is free then.
const FROM_OWN_BLOCK: [(Step, usize); 13] = [
    (Step::Alloc(1000, 8), 65552),
    (Step::Alloc(1, 1), 66576),
    (Step::Write(65552, 0, 40), 0),
    (Step::Write(65552, 960, 40), 0),
    (Step::Realloc(65552, 1000, 8, 1008), 66608),
    (Step::Read(66608, 0, 40), 0),
    (Step::Read(66608, 960, 40), 0),
    (Step::Usable(66608), 1008),
    (Step::Read(65552, 0, 40), UNKNOWN_ADDRESS),
    (Step::Dealloc(65552, 1000, 8), UNKNOWN_ADDRESS),
    (Step::Alloc(1000, 8), 65552),
    (Step::Dealloc(66608, 1000, 8), WRONG_LAYOUT),
    (Step::Dealloc(66608, 1008, 8), 0),
];

/// The free block behind has 256 bytes. First it leaves 64 of them, and then it takes all.
const BLOCK_BEHIND: [(Step, usize); 15] = [
    (Step::Alloc(1000, 8), 65552),
    (Step::Alloc(240, 8), 66576),
    (Step::Alloc(1, 1), 66832),
    (Step::Write(65552, 0, 40), 0),
    (Step::Write(65552, 960, 40), 0),
    (Step::Dealloc(66576, 240, 8), 0),
    (Step::Realloc(65552, 1000, 8, 1200), 65552),
    (Step::Usable(65552), 1200),
    (Step::Write(65552, 1160, 40), 0),
    (Step::Realloc(65552, 1200, 8, 1264), 65552),
    (Step::Usable(65552), 1264),
    (Step::Read(65552, 0, 40), 0),
    (Step::Read(65552, 960, 40), 0),
    (Step::Read(65552, 1160, 40), 0),
    (Step::Dealloc(65552, 1264, 8), 0),
];

/// The same where it moves, behind the last block at 66816. Its old block and the one behind are one free block of 1280 bytes then.
const FROM_BLOCK_BEHIND: [(Step, usize); 13] = [
    (Step::Alloc(1000, 8), 65552),
    (Step::Alloc(240, 8), 66576),
    (Step::Alloc(1, 1), 66832),
    (Step::Write(65552, 0, 40), 0),
    (Step::Write(65552, 960, 40), 0),
    (Step::Dealloc(66576, 240, 8), 0),
    (Step::Realloc(65552, 1000, 8, 1264), 66864),
    (Step::Usable(66864), 1264),
    (Step::Read(66864, 0, 40), 0),
    (Step::Read(66864, 960, 40), 0),
    (Step::Dealloc(65552, 1000, 8), UNKNOWN_ADDRESS),
    (Step::Alloc(1264, 8), 65552),
    (Step::Dealloc(66864, 1264, 8), 0),
];

/// The free block before has 256 bytes, the block behind is used, and 64 bytes are left.
const BLOCK_BEFORE: [(Step, usize); 15] = [
    (Step::Alloc(240, 8), 65552),
    (Step::Alloc(1000, 8), 65808),
    (Step::Alloc(1, 1), 66832),
    (Step::Write(65808, 0, 40), 0),
    (Step::Write(65808, 960, 40), 0),
    (Step::Dealloc(65552, 240, 8), 0),
    (Step::Realloc(65808, 1000, 8, 1200), 65552),
    (Step::Usable(65552), 1200),
    (Step::Read(65552, 0, 40), 0),
    (Step::Read(65552, 960, 40), 0),
    (Step::Read(65808, 0, 40), UNKNOWN_ADDRESS),
    (Step::Dealloc(65808, 1000, 8), UNKNOWN_ADDRESS),
    (Step::Realloc(65808, 1200, 8, 1264), UNKNOWN_ADDRESS),
    (Step::Alloc(40, 8), 66768),
    (Step::Dealloc(65552, 1200, 8), 0),
];

/// The same where it moves, behind the last block at 66816. Its old block and the one before are one free block of 1280 bytes then.
const FROM_BLOCK_BEFORE: [(Step, usize); 13] = [
    (Step::Alloc(240, 8), 65552),
    (Step::Alloc(1000, 8), 65808),
    (Step::Alloc(1, 1), 66832),
    (Step::Write(65808, 0, 40), 0),
    (Step::Write(65808, 960, 40), 0),
    (Step::Dealloc(65552, 240, 8), 0),
    (Step::Realloc(65808, 1000, 8, 1200), 66864),
    (Step::Usable(66864), 1200),
    (Step::Read(66864, 0, 40), 0),
    (Step::Read(66864, 960, 40), 0),
    (Step::Dealloc(65808, 1000, 8), UNKNOWN_ADDRESS),
    (Step::Alloc(1264, 8), 65552),
    (Step::Dealloc(66864, 1200, 8), 0),
];

/// The free blocks before and behind have 256 bytes each, and it takes all.
const BLOCKS_AROUND: [(Step, usize); 14] = [
    (Step::Alloc(240, 8), 65552),
    (Step::Alloc(1000, 8), 65808),
    (Step::Alloc(240, 8), 66832),
    (Step::Alloc(1, 1), 67088),
    (Step::Write(65808, 0, 40), 0),
    (Step::Write(65808, 960, 40), 0),
    (Step::Dealloc(65552, 240, 8), 0),
    (Step::Dealloc(66832, 240, 8), 0),
    (Step::Realloc(65808, 1000, 8, 1520), 65552),
    (Step::Usable(65552), 1520),
    (Step::Read(65552, 0, 40), 0),
    (Step::Read(65552, 960, 40), 0),
    (Step::Dealloc(65808, 1000, 8), UNKNOWN_ADDRESS),
    (Step::Dealloc(65552, 1520, 8), 0),
];

/// The page has no room, so two more join it. The payload goes into the free block behind, as that is the one which is allocated.
const NEXT_PAGES: [(Step, usize); 10] = [
    (Step::Alloc(1000, 8), 65552),
    (Step::Write(65552, 0, 40), 0),
    (Step::Write(65552, 960, 40), 0),
    (Step::Realloc(65552, 1000, 8, 70000), 66576),
    (Step::Usable(66576), 70000),
    (Step::Read(66576, 0, 40), 0),
    (Step::Read(66576, 960, 40), 0),
    (Step::Dealloc(65552, 1000, 8), UNKNOWN_ADDRESS),
    (Step::Alloc(1000, 8), 65552),
    (Step::Dealloc(66576, 70000, 8), 0),
];

/// The same where the two pages from 131072 on stay apart. The first page is one free block then.
const RANGE_OF_ITS_OWN: [(Step, usize); 10] = [
    (Step::Alloc(1000, 8), 65552),
    (Step::Write(65552, 0, 40), 0),
    (Step::Write(65552, 960, 40), 0),
    (Step::Realloc(65552, 1000, 8, 70000), 131088),
    (Step::Usable(131088), 70000),
    (Step::Read(131088, 0, 40), 0),
    (Step::Read(131088, 960, 40), 0),
    (Step::Dealloc(65552, 1000, 8), UNKNOWN_ADDRESS),
    (Step::Alloc(65000, 8), 65552),
    (Step::Dealloc(131088, 70000, 8), 0),
];

/// One byte more than the block has, and the next block is used.
const ELSEWHERE: [(Step, usize); 13] = [
    (Step::Alloc(1000, 8), 65552),
    (Step::Alloc(1, 1), 66576),
    (Step::Write(65552, 0, 40), 0),
    (Step::Write(65552, 960, 40), 0),
    (Step::Realloc(65552, 1000, 8, 1009), 66608),
    (Step::Usable(66608), 1040),
    (Step::Read(66608, 0, 40), 0),
    (Step::Read(66608, 960, 40), 0),
    (Step::Read(65552, 0, 40), UNKNOWN_ADDRESS),
    (Step::Dealloc(65552, 1000, 8), UNKNOWN_ADDRESS),
    (Step::Alloc(1000, 8), 65552),
    (Step::Dealloc(66608, 1000, 8), WRONG_LAYOUT),
    (Step::Dealloc(66608, 1009, 8), 0),
];

/// Neither the page nor the one that is left has room.
const REFUSED: [(Step, usize); 8] = [
    (Step::Alloc(1000, 8), 65552),
    (Step::Write(65552, 0, 40), 0),
    (Step::Write(65552, 960, 40), 0),
    (Step::Realloc(65552, 1000, 8, 70000), NO_ROOM),
    (Step::Usable(65552), 1008),
    (Step::Read(65552, 0, 40), 0),
    (Step::Read(65552, 960, 40), 0),
    (Step::Dealloc(65552, 1000, 8), 0),
];

#[test]
fn a_payload_grows_in_the_first_place_that_is_long_enough(rt: HostRuntime) {
    all_go_so::<_, GlobalTlsf<()>>(&rt, rt.alloc(), &GROWS);
}

#[test]
fn a_payload_that_grows_moves_without_reallocation(rt: HostRuntime) {
    all_go_so::<_, GlobalTlsf<SmallGlobalTlsfOptions>>(&rt, rt.alloc(), &MOVES);
}
