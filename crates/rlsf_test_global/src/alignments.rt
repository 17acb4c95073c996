//! Payloads with alignments of 64, 4096 and 65536 through the lock. The memory begins at 65536 and has eight pages.
//!
//! A payload lies at the first multiple of its alignment at least 16 bytes behind the start of its block. What lies before it belongs to the
//! block.

use crate::runs::all_go_so;
use crate::steps::{Run, Step, UNKNOWN_ADDRESS, WRONG_LAYOUT};
use rlsf_global::{GlobalTlsf, SmallGlobalTlsfOptions};

/// Blocks at 65536, 65632 and 69632, the last of which begins in the first page and ends in the second. Each payload grows in its block first,
/// and then moves behind all others, to blocks at 131200, 131328 and 135200.
static IN_ONE_POOL: [Run; 1] = [(
    524288,
    &[
        (Step::Alloc(1, 64), 65600),
        (Step::Alloc(0, 4096), 69632),
        (Step::Alloc(100, 65536), 131072),
        (Step::Usable(65600), 32),
        (Step::Usable(69632), 0),
        (Step::Usable(131072), 128),
        (Step::Write(131072, 0, 40), 0),
        (Step::Write(131072, 60, 40), 0),
        (Step::Dealloc(65600, 1, 16), WRONG_LAYOUT),
        (Step::Dealloc(65600, 1, 128), WRONG_LAYOUT),
        (Step::Dealloc(69632, 0, 16), WRONG_LAYOUT),
        (Step::Dealloc(69632, 0, 2048), WRONG_LAYOUT),
        (Step::Dealloc(131072, 100, 16), WRONG_LAYOUT),
        (Step::Dealloc(131072, 100, 131072), WRONG_LAYOUT),
        (Step::Realloc(65600, 1, 16, 32), WRONG_LAYOUT),
        (Step::NoMove(65600, 1, 16, 32), WRONG_LAYOUT),
        (Step::NoMove(65600, 1, 64, 20), 65600),
        (Step::Realloc(65600, 20, 64, 32), 65600),
        (Step::Write(65600, 0, 32), 0),
        (Step::Realloc(65600, 32, 64, 33), 131264),
        (Step::Read(131264, 0, 32), 0),
        (Step::Dealloc(65600, 32, 64), UNKNOWN_ADDRESS),
        (Step::Realloc(69632, 0, 4096, 1), 135168),
        (Step::Dealloc(69632, 0, 4096), UNKNOWN_ADDRESS),
        (Step::Realloc(131072, 100, 65536, 128), 131072),
        (Step::Realloc(131072, 128, 65536, 129), 196608),
        (Step::Read(196608, 0, 40), 0),
        (Step::Read(196608, 60, 40), 0),
        (Step::Dealloc(131072, 128, 65536), UNKNOWN_ADDRESS),
        (Step::Dealloc(131264, 33, 16), WRONG_LAYOUT),
        (Step::Dealloc(131264, 33, 64), 0),
        (Step::Dealloc(135168, 1, 16), WRONG_LAYOUT),
        (Step::Dealloc(135168, 1, 4096), 0),
        (Step::Dealloc(196608, 129, 16), WRONG_LAYOUT),
        (Step::Dealloc(196608, 129, 65536), 0),
    ],
)];

/// Blocks at 65536, 65632 and 131072, the last of which has two pages of its own. Each payload moves twice, the last one into two other pages
/// and back.
static IN_POOLS_APART: [Run; 1] = [(
    524288,
    &[
        (Step::Alloc(1, 64), 65600),
        (Step::Alloc(0, 4096), 69632),
        (Step::Alloc(100, 65536), 196608),
        (Step::Usable(65600), 32),
        (Step::Usable(69632), 0),
        (Step::Usable(196608), 128),
        (Step::Write(196608, 0, 40), 0),
        (Step::Write(196608, 60, 40), 0),
        (Step::Dealloc(65600, 1, 16), WRONG_LAYOUT),
        (Step::Dealloc(65600, 1, 128), WRONG_LAYOUT),
        (Step::Dealloc(69632, 0, 16), WRONG_LAYOUT),
        (Step::Dealloc(69632, 0, 2048), WRONG_LAYOUT),
        (Step::Dealloc(196608, 100, 16), WRONG_LAYOUT),
        (Step::Dealloc(196608, 100, 131072), WRONG_LAYOUT),
        (Step::Realloc(65600, 1, 16, 32), WRONG_LAYOUT),
        (Step::NoMove(65600, 1, 16, 32), WRONG_LAYOUT),
        (Step::NoMove(65600, 1, 64, 20), 65600),
        (Step::Realloc(65600, 20, 64, 32), 69696),
        (Step::Write(69696, 0, 32), 0),
        (Step::Realloc(69696, 32, 64, 33), 69760),
        (Step::Read(69760, 0, 32), 0),
        (Step::Dealloc(65600, 20, 64), UNKNOWN_ADDRESS),
        (Step::Dealloc(69696, 32, 64), UNKNOWN_ADDRESS),
        (Step::Realloc(69632, 0, 4096, 1), 73728),
        (Step::Dealloc(69632, 0, 4096), UNKNOWN_ADDRESS),
        (Step::Realloc(196608, 100, 65536, 128), 327680),
        (Step::Read(327680, 0, 40), 0),
        (Step::Read(327680, 60, 40), 0),
        (Step::Dealloc(196608, 100, 65536), UNKNOWN_ADDRESS),
        (Step::Realloc(327680, 128, 65536, 129), 196608),
        (Step::Read(196608, 0, 40), 0),
        (Step::Read(196608, 60, 40), 0),
        (Step::Dealloc(69760, 33, 16), WRONG_LAYOUT),
        (Step::Dealloc(69760, 33, 64), 0),
        (Step::Dealloc(73728, 1, 16), WRONG_LAYOUT),
        (Step::Dealloc(73728, 1, 4096), 0),
        (Step::Dealloc(196608, 129, 16), WRONG_LAYOUT),
        (Step::Dealloc(196608, 129, 65536), 0),
    ],
)];

#[test]
fn payloads_lie_at_multiples_of_their_alignments(rt: HostRuntime) {
    all_go_so::<_, GlobalTlsf<()>>(&rt, rt.alloc(), &IN_ONE_POOL);
    all_go_so::<_, GlobalTlsf<SmallGlobalTlsfOptions>>(&rt, rt.alloc(), &IN_POOLS_APART);
}
