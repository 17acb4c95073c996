//! Payloads that are known by their address alone, which get another size whatever their alignment is.
//!
//! A block is a multiple of 32, and begins 16 bytes or more before its payload. The last 32 bytes of the pool are the sentinel's.

use crate::thin::{Call, Step, go_so, go_so_before_another};

static NARROW: [Step; 2] = [
    (Call::ResizeAny, 200, 4112, 208),
    (Call::ResizeAnyThere, 10, 4112, 16),
];

#[test]
fn narrow_payload_stays(rt: HostRuntime) {
    go_so(&rt, 512, (100, 16, 4112), &NARROW);
}

// The payload begins at 4160, in the block from 4096 to 4192, and another block follows.
static WIDE: [Step; 3] = [
    // Refused.
    (Call::ResizeAnyThere, 33, 4160, 32),
    (Call::ResizeAny, 100, 4336, 112),
    // Refused.
    (Call::ResizeAny, 1000, 4336, 112),
];

#[test]
fn wide_payload_moves(rt: HostRuntime) {
    go_so_before_another(&rt, (1, 64, 4160), 4208, &WIDE);
}

// The payload begins at 8192, in the block from 4096 on. The chunk ends at 12256.
static AT_A_PAGE: [Step; 3] = [
    (Call::ResizeAnyThere, 1000, 8192, 1024),
    (Call::ResizeAny, 100, 8192, 128),
    // Refused.
    (Call::ResizeAny, 5000, 8192, 128),
];

#[test]
fn payload_at_a_page_grows_and_shrinks(rt: HostRuntime) {
    go_so(&rt, 8192, (1, 4096, 8192), &AT_A_PAGE);
}
