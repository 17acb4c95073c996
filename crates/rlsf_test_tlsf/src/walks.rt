//! The iteration over the blocks of a range, payloads deallocated without their alignment, and how many bytes a payload has.

ghost use Rattle.rlsf_base.specs.Range.{range_at};
ghost use Rattle.rlsf_model.specs.ChunkRows.{IsRow};

use super::pools::{Small, all, are, layout_of, number, wide, with_inserted, with_pool};
use rlsf::{BlockInfo, Blocks, Layout, Range, Tlsf};
use std::alloc::{AllocError, Global};
use std::process::Abort;

/// Chunks of any length.
type Growing = Tlsf<u64, u64, 59, 8>;

/// Where a block begins, its size, and whether it is used.
type Row = (usize, usize, bool);

/// A block as a range, and whether it is used.
fn row(block: BlockInfo) -> Row {
    (block.as_ptr().start, block.size(), block.is_occupied())
}

/// A block as numbers, which are 0 if there is none.
fn numbers(row: Option<Row>) -> [usize; 3] {
    match row {
        Some((start, size, is_used)) => [start, size, is_used as usize],
        None => [0; 3],
    }
}

/// Passes if an iteration yields these blocks and no more.
fn gives(rt: &impl Abort, mut blocks: Blocks<'_>, rows: &[Row]) {
    for i in 0..=rows.len() {
        let given = numbers(blocks.next().map(row));
        are(rt, &given, &numbers(rows.get(i).copied()));
    }
}

/// The greatest size that fits in a block.
fn greatest_size(block: BlockInfo) -> usize {
    block.max_payload_size()
}

/// The greatest sizes that fit in the first two blocks of an iteration, 0 if there is none.
fn greatest_sizes(mut blocks: Blocks<'_>) -> [usize; 2] {
    [
        blocks.next().map_or(0, greatest_size),
        blocks.next().map_or(0, greatest_size),
    ]
}

/// The text of the first block of an iteration, or none.
fn first_text(alloc: Global, mut blocks: Blocks<'_>) -> Result<String, AllocError> {
    match blocks.next() {
        Some(block) => format!(in alloc; "{block:?}"),
        None => Ok(String::new(alloc)),
    }
}

/// Passes if an iteration over no bytes yields nothing.
fn walks_nowhere(rt: &impl Abort, tlsf: &Small) {
    let nowhere = Range {
        start: 4096,
        len: 0,
    };
    gives(rt, tlsf.iter_blocks(nowhere), &[]);
}

/// Passes if an iteration over a pool of 96 bytes yields these blocks. The greatest sizes are those that fit in the first two, 0 if
/// there is none.
fn walks(rt: &impl Abort, tlsf: &Small, expected: &[Row], sizes: [usize; 2])
    requires { IsRow tlsf.now.state (range_at 4096 96) }
{
    let range = Range {
        start: 4096,
        len: 96,
    };
    gives(rt, tlsf.iter_blocks(range), expected);
    are(rt, &greatest_sizes(tlsf.iter_blocks(range)), &sizes);
}

#[test]
fn one_pool_is_walked(rt: HostRuntime) {
    let layout = layout_of(&rt, 0, 1);
    let mut tlsf = with_pool(&rt, 96);
    walks_nowhere(&rt, &tlsf);
    walks(&rt, &tlsf, &[(4096, 64, false)], [48, 0]);
    let addresses = [number(tlsf.allocate(layout)), number(tlsf.allocate(layout))];
    are(&rt, &addresses, &[4112, 4144]);
    walks(&rt, &tlsf, &[(4096, 32, true), (4128, 32, true)], [16, 16]);
}

#[test]
fn blocks_have_a_text(rt: HostRuntime) {
    let tlsf = with_pool(&rt, 96);
    let range = Range {
        start: 4096,
        len: 96,
    };
    let text = first_text(rt.alloc(), tlsf.iter_blocks(range)).expect(&rt, "memory");
    let expected = "BlockInfo { ptr: 4096..4160, size: 64, is_occupied: false }";
    all(&rt, &[text.as_str() == expected]);
}

#[test]
fn adjacent_chunks_are_walked(rt: HostRuntime) {
    let range = Range {
        start: 4096,
        len: 128,
    };
    let (tlsf, _) = with_inserted::<u8, u8, 1, 1>(&rt, range, range);
    let rows = [(4096, 32, false), (4160, 32, false)];
    gives(&rt, tlsf.iter_blocks(range), &rows);
}

/// The sum of the greatest sizes that fit in the free blocks of an iteration.
fn free_bytes(blocks: Blocks<'_>) -> usize {
    let mut total: usize = 0;
    for block in blocks {
        if !block.is_occupied() {
            total = total.saturating_add(block.max_payload_size());
        }
    }
    total
}

#[test]
fn free_bytes_are_added_up(rt: HostRuntime) {
    let range = Range {
        start: 4096,
        len: 1024,
    };
    let layout = layout_of(&rt, 8, 8);
    let mut tlsf = wide(&rt, 1024);
    let before = free_bytes(tlsf.iter_blocks(range));
    let _ = tlsf.allocate(layout);
    let after = free_bytes(tlsf.iter_blocks(range));
    are(&rt, &[before, after], &[976, 944]);
}

/// Allocates a payload and deallocates it without its alignment. Passes if an iteration yields these blocks then.
fn frees(rt: &impl Abort, tlsf: &mut Growing, layout: Layout, rows: &[Row])
    requires { IsRow tlsf.old.state (range_at 4096 16384) }
{
    let Some(addr) = tlsf.allocate(layout) else {
        return are(rt, &[], &[1]);
    };
    tlsf.deallocate_unknown_align(addr);
    let blocks = tlsf.iter_blocks(Range {
        start: 4096,
        len: 16384,
    });
    gives(rt, blocks, rows);
}

/// An allocator with a pool of 16,384 bytes.
fn growing(rt: &(impl Abort + AllocGlobal)) -> Growing
    ensures { IsRow result.state (range_at 4096 16384) }
{
    let all = Range {
        start: 4096,
        len: 16384,
    };
    let (tlsf, _) = with_inserted(rt, all, all);
    tlsf
}

// The blocks then: a free one, and one behind the other payload's block.
const ALONE: &[Row] = &[(4096, 16352, false)];

const BEHIND: &[Row] = &[(4096, 32, true), (4128, 16320, false)];

// Sizes and alignments.
static LAYOUTS: [(usize, usize); 10] = [
    // below 32
    (0, 1),
    (1, 1),
    (0, 16),
    (1, 16),
    // from 32 on
    (0, 32),
    (1, 32),
    (0, 64),
    (1, 64),
    (0, 4096),
    (1, 4096),
];

#[test]
fn alignments_are_found(rt: HostRuntime) {
    for (size, align) in &LAYOUTS {
        let layout = layout_of(&rt, *size, *align);
        let least = layout_of(&rt, 1, 1);
        // The first payload of a new allocator, before which no word was written.
        frees(&rt, &mut growing(&rt), layout, ALONE);
        // As above, behind another payload.
        let mut tlsf = growing(&rt);
        let _ = tlsf.allocate(least);
        frees(&rt, &mut tlsf, layout, BEHIND);
    }
}

/// The address of a payload that is allocated, and how many bytes it has; or 0.
fn usable(tlsf: &mut Small, layout: Layout) -> [usize; 2] {
    match tlsf.allocate(layout) {
        Some(addr) => [addr.get(), tlsf.allocation_usable_size(addr)],
        None => [0; 2],
    }
}

/// The length of a pool, a size and an alignment, and where the payload is and how many bytes it has.
static USABLE: [(usize, usize, usize, [usize; 2]); 2] = [
    (96, 17, 1, [4112, 48]),
    (8192, 1, 4096, [8192, 32]),
];

#[test]
fn usable_sizes(rt: HostRuntime) {
    for (len, size, align, expected) in &USABLE {
        let layout = layout_of(&rt, *size, *align);
        let mut tlsf = with_pool(&rt, *len);
        are(&rt, &usable(&mut tlsf, layout), expected);
    }
}
