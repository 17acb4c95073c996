//! Pools that are taken out.

ghost use Rattle.std.specs.Prelude.{◌≡◌, [], ◌∷◌};
ghost use Rattle.rlsf_base.specs.Range.{range_at};

use super::pools::{Small, are, layout_of, number, zeros};
use rlsf::Range;
use std::process::Abort;

/// An allocator that has one chunk, of 256 bytes at the address 4096, and no payload.
fn with_chunk(rt: &(impl Abort + AllocGlobal)) -> Small
    ensures { (result.state.chunks ≡ range_at 4096 256 ∷ []) × (result.state.used ≡ []) }
{
    let mut tlsf = Small::new(zeros(rt, 4096, 1024));
    tlsf.insert_free_block(Range {
        start: 4096,
        len: 256,
    });
    tlsf
}

#[test]
fn pool_that_is_taken_out_serves_nothing(rt: HostRuntime) {
    let layout = layout_of(&rt, 17, 1);
    let mut tlsf = with_chunk(&rt);
    are(&rt, &[tlsf.chunk_end(4096)], &[4352]);
    tlsf.remove_pool(Range {
        start: 4096,
        len: 256,
    });
    are(&rt, &[number(tlsf.allocate(layout))], &[0]);
}
