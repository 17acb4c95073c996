//! Tests of ranges.

use crate::answers::passes;
use rlsf_base::memory::Range;

const TOP: usize = usize::MAX;

/// The start and the length of a range, those of a space, and whether the range lies in the space.
static PAIRS: [(usize, usize, usize, usize, bool); 12] = [
    (4096, 64, 4096, 64, true),
    (4096, 65, 4096, 64, false),
    (4097, 64, 4096, 64, false),
    (4095, 1, 4096, 64, false),
    (4159, 1, 4096, 64, true),
    (4160, 0, 4096, 64, true),
    (4160, 1, 4096, 64, false),
    (4161, 0, 4096, 64, false),
    (4100, 0, 4100, 0, true),
    // Ranges that end past the last address.
    (TOP, TOP, TOP, TOP, true),
    (TOP, 2, 0, TOP, false),
    (0, 5, TOP, 10, false),
];

#[test]
fn ranges_lie_in_others(rt: HostRuntime) {
    for (start, len, space_start, space_len, is_inside) in &PAIRS {
        let range = Range {
            start: *start,
            len: *len,
        };
        let space = Range {
            start: *space_start,
            len: *space_len,
        };
        passes(&rt, range.lies_in(space) == *is_inside, *start);
    }
}
