//! How long pools have to be, as the calls of a `CheckedTlsf` answer.

use crate::checked::pools::Small;
use crate::pools::{all, layout_of};
use rlsf_checked::CheckedTlsf;

#[test]
fn lengths_of_pools(rt: HostRuntime) {
    // A payload of 16 bytes at a multiple of 16 needs a block of 32 bytes, where a class begins. So the length is (32 + 32) + 10 *
    // (32 + 32 - 32).
    let short = layout_of(&rt, 16, 16);
    // One of 65 bytes at a multiple of 64 needs 65 + 64, so a block of 160 bytes, at which a class begins too: 160 + 32.
    let long = layout_of(&rt, 65, 64);
    let found = [
        Small::pool_size_for_payloads(10, short),
        Small::pool_size_for_payloads(0, long),
        Small::pool_size_to_contain_allocation(long),
        CheckedTlsf::<u16, u16, 12, 3>::pool_size_for_payloads(10, short),
        CheckedTlsf::<u16, u16, 12, 3>::pool_size_to_contain_allocation(long),
    ];
    all(
        &rt,
        &[found == [Some(384), Some(192), Some(192), None, None]],
    );
}
