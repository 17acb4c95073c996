//! Blocks as text.

ghost use Rattle.std.specs.Prelude.{◌≡◌, ◌<◌, ◌≤◌, ◌*◌, ◌++◌, OnOk, IfOk, string_bytes};
ghost use Rattle.std.specs.Int.{div_ceil};
ghost use Rattle.rlsf_example_libraries.specs.Picture.{total_size, line_of, picture_of};

use rlsf::{BlockInfo, Blocks, Range};
use std::alloc::{AllocError, Global};

/// Returns a picture of blocks, as `iter_blocks` yields them: a line for each block, in their order, ended by LF.
///
/// A line has the block's range in decimal, `used` or `free`, and a bar of `#` or of `.`:
///
/// ```text
/// 4096..4128 used ###
/// 4128..4192 used #####
/// 4192..4320 free ..........
/// ```
///
/// A bar of `width` marks represents all the blocks together. A block's bar is its part of that bar, rounded up. So each block
/// has a mark if `width` isn't 0.
///
/// Returns an error if the system is out of memory. No clause says that it does so only then.
pub fn picture(alloc: Global, blocks: Blocks<'_>, width: usize) -> Result<String, AllocError>
    ensures { IfOk result (λ text. string_bytes text ≡ picture_of width blocks.entry) }
{
    let blocks: Vec<BlockInfo> = blocks.collect(alloc)?;
    lines(alloc, &blocks, width)
}

fn lines(alloc: Global, blocks: &[BlockInfo], width: usize) -> Result<String, AllocError>
    ensures { IfOk result (λ text. string_bytes text ≡ picture_of width blocks.now) }
{
    let total = total_size(blocks);
    let mut text = String::new(alloc);
    for block in blocks {
        print_line(alloc, &mut text, *block, width, total)?;
    }
    Ok(text)
}

fn total_size(blocks: &[BlockInfo]) -> u128
    ensures { result ≡ total_size blocks.now }
{
    blocks.iter().map(|b| b.size() as u128).sum()
}

fn print_line(
    alloc: Global,
    text: &mut String,
    block: BlockInfo,
    width: usize,
    total: u128,
) -> Result<(), AllocError>
    requires { block.range.len ≤ total }
    ensures { OnOk result (string_bytes text.new ≡ string_bytes text.old ++ line_of width total block) }
{
    let Range { start, len } = block.as_ptr();
    let end = start + len;
    let marks = part_of(width, len, total);
    let (state, mark) = if block.is_occupied() {
        ("used", "#")
    } else {
        ("free", ".")
    };
    let bar = mark.repeat(alloc, marks)?;
    writeln!(text, "{start}..{end} {state} {bar}")
}

/// Returns how many marks represent `size` bytes if `width` marks represent `total` bytes, rounded up.
fn part_of(width: usize, size: usize, total: u128) -> usize
    requires part { size ≤ total }
    requires some { 0 < total }
    ensures { result ≡ div_ceil (size * width) total }
{
    (size as u128 * width as u128).div_ceil(total) as usize
}
