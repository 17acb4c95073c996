//! What an allocator held, at most and at the end.

ghost use Rattle.std.specs.Prelude.{◌≡◌};
ghost use Rattle.rlsf_report_trace.specs.Summaries as spec;

use rlsf_trace_runs::{BlockInfo, Moment, Watched};

/// What the allocator held.
#[derive(Clone, Copy)]
pub(crate) struct Summary {
    /// What it held at the end.
    pub(crate) last: Moment,
    /// How many payloads were live at most.
    pub(crate) most_live: usize,
    /// How many usable bytes all live payloads had at most.
    pub(crate) most_usable: u128,
    /// The bytes of the used blocks at the end, with their headers.
    pub(crate) used_bytes: u128,
    /// How many free blocks there are at the end.
    pub(crate) free_blocks: usize,
    /// The bytes of the free blocks.
    pub(crate) free_bytes: u128,
    /// The bytes of the longest free block.
    pub(crate) longest: usize,
}

/// The summary of a run.
pub(crate) fn summary_of(watched: &Watched) -> Summary
    ensures last { result.last ≡ spec.last_moment watched.now.moments.items }
    ensures live { result.most_live ≡ spec.most_live watched.now.moments.items }
    ensures usable { result.most_usable ≡ spec.most_usable watched.now.moments.items }
    ensures used { result.used_bytes ≡ spec.occupied_bytes watched.now.blocks.items }
    ensures free { result.free_bytes ≡ spec.free_bytes watched.now.blocks.items }
    ensures count { result.free_blocks ≡ spec.free_count watched.now.blocks.items }
    ensures longest { result.longest ≡ spec.longest_free watched.now.blocks.items }
{
    let moments = &watched.moments;
    let blocks = &watched.blocks;
    Summary {
        last: last_moment(moments),
        most_live: most_live(moments),
        most_usable: most_usable(moments),
        used_bytes: used_bytes(blocks),
        free_blocks: free_count(blocks),
        free_bytes: free_bytes(blocks),
        longest: longest_free(blocks),
    }
}

/// What was held after the last op, or nothing without an op.
fn last_moment(moments: &[Moment]) -> Moment
    ensures { result ≡ spec.last_moment moments.now }
{
    if moments.is_empty() {
        return Moment { live: 0, usable: 0 };
    }
    moments[moments.len() - 1]
}

/// How many payloads were live at most.
pub(crate) fn most_live(moments: &[Moment]) -> usize
    ensures { result ≡ spec.most_live moments.now }
{
    moments
        .iter()
        .fold(0, |most: usize, moment| most.max(moment.live))
}

/// How many bytes of live payloads were usable at most.
fn most_usable(moments: &[Moment]) -> u128
    ensures { result ≡ spec.most_usable moments.now }
{
    moments
        .iter()
        .fold(0, |most: u128, moment| most.max(moment.usable))
}

/// The bytes of the used blocks, with their headers.
fn used_bytes(blocks: &[BlockInfo]) -> u128
    ensures { result ≡ spec.occupied_bytes blocks.now }
{
    blocks
        .iter()
        .map(|block| if block.is_occupied() {
            block.size() as u128
        } else {
            0
        })
        .sum()
}

/// The bytes of the free blocks.
fn free_bytes(blocks: &[BlockInfo]) -> u128
    ensures { result ≡ spec.free_bytes blocks.now }
{
    blocks
        .iter()
        .map(|block| if block.is_occupied() {
            0
        } else {
            block.size() as u128
        })
        .sum()
}

/// How many blocks are free.
fn free_count(blocks: &[BlockInfo]) -> usize
    ensures { result ≡ spec.free_count blocks.now }
{
    blocks.iter().filter(|block| !block.is_occupied()).count()
}

/// The bytes of the longest free block, or 0 without one.
fn longest_free(blocks: &[BlockInfo]) -> usize
    ensures { result ≡ spec.longest_free blocks.now }
{
    blocks.iter().fold(0, |most: usize, block| {
        if block.is_occupied() {
            most
        } else {
            most.max(block.size())
        }
    })
}
