//! Pictures of one pool: the text of each line, and the widths 0 and 1.

ghost use Rattle.rlsf_base.specs.Range.{range_at};
ghost use Rattle.rlsf_model.specs.ChunkRows.{IsRow};

use crate::pools::{Small, all, layout_of, with_pool};
use rlsf::{Blocks, Range};
use rlsf_example_libraries::picture;
use std::process::Abort;

/// An allocator over 256 bytes from the address 4096 on, which are one chunk, with two payloads, of 1 byte and of 40.
fn two_payloads(rt: &(impl Abort + AllocGlobal)) -> Small
    ensures { IsRow result.state (range_at 4096 256) }
{
    let mut tlsf = with_pool(rt, 256);
    let _ = tlsf.allocate(layout_of(rt, 1, 1));
    let _ = tlsf.allocate(layout_of(rt, 40, 8));
    tlsf
}

/// Passes if the picture of these blocks is this text.
fn are_drawn(rt: &(impl Abort + AllocGlobal), blocks: Blocks<'_>, width: usize, text: &str) {
    let drawn = picture(rt.alloc(), blocks, width).expect(rt, "memory");
    all(rt, &[drawn.as_str() == text]);
}

/// Passes if the picture of the chunk is this text.
fn is_drawn(rt: &(impl Abort + AllocGlobal), tlsf: &Small, width: usize, text: &str)
    requires { IsRow tlsf.now.state (range_at 4096 256) }
{
    let chunk = Range {
        start: 4096,
        len: 256,
    };
    are_drawn(rt, tlsf.iter_blocks(chunk), width, text);
}

#[test]
fn one_free_block_and_an_empty_range(rt: HostRuntime) {
    let tlsf = with_pool(&rt, 256);
    let nowhere = Range {
        start: 4096,
        len: 0,
    };
    are_drawn(&rt, tlsf.iter_blocks(nowhere), 16, "");
    is_drawn(&rt, &tlsf, 16, "4096..4320 free ................\n");
}

/// Pictures of two used blocks and a free one, by their widths.
static PICTURES: [(usize, &str); 3] = [
    (
        16,
        "4096..4128 used ###\n4128..4192 used #####\n4192..4320 free ..........\n",
    ),
    (0, "4096..4128 used \n4128..4192 used \n4192..4320 free \n"),
    (
        1,
        "4096..4128 used #\n4128..4192 used #\n4192..4320 free .\n",
    ),
];

#[test]
fn two_used_blocks_and_a_free_one(rt: HostRuntime) {
    let tlsf = two_payloads(&rt);
    for (width, text) in &PICTURES {
        is_drawn(&rt, &tlsf, *width, text);
    }
}
