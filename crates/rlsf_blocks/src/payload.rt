//! The block of a payload, and the bytes that its caller may use.

ghost use Rattle.std.specs.Prelude.{◌≡◌, ◌+◌};
ghost use Rattle.rlsf_model.specs.State.{usable};
ghost use Rattle.rlsf_blocks.specs.Steps.LiveBlock.{IsLiveIn, AtEachBlock};

use crate::HEADER;
use rlsf_base::memory::{OpenMemory, Range};
use rlsf_table::{PAD, used_end};

/// Returns the start of the block of the live payload at `payload`, whatever alignment it was allocated with.
///
/// The word before a payload names its block. For an alignment below 32 it names the block before its block instead, which ends 16
/// bytes before the payload. The first block of a chunk has none before it.
pub fn block_of(memory: &OpenMemory, payload: usize) -> usize
    requires { IsLiveIn memory.now payload }
    ensures { AtEachBlock memory.now payload (λ u. result ≡ u.block.start) }
{
    let named = memory.word(payload - PAD) as usize;
    let nearest = payload - HEADER;
    if named == 0 {
        return nearest;
    }
    // The flag in a used block's size word puts this one byte past its end. That does no harm: its own payload begins at
    // its end at the latest, and the payload of the next block 16 bytes later.
    let end = named + memory.word(named) as usize;
    if payload > end { nearest } else { named }
}

/// Returns the number of bytes from the live payload at `payload` to its block's end, whatever alignment it was allocated with.
pub fn usable_bytes(memory: &OpenMemory, payload: usize) -> Range
    requires { IsLiveIn memory.now payload }
    ensures { AtEachBlock memory.now payload (λ u. result ≡ usable u) }
{
    let block = block_of(memory, payload);
    let end = used_end(block, memory.word(block));
    Range {
        start: payload,
        len: end - payload,
    }
}

/// Returns the same as `block_of`, and counts the words that it reads: two touches, whatever the words are.
pub fn load_block_of(memory: &mut OpenMemory, payload: usize) -> usize
    requires { IsLiveIn memory.old payload }
    ensures block { AtEachBlock memory.old payload (λ u. result ≡ u.block.start) }
    ensures memory { memory.new ≡ record memory.old { touches = memory.old.touches + 2 } }
{
    let named = memory.load(payload - PAD) as usize;
    let nearest = payload - HEADER;
    if named == 0 {
        // Counted like the second word, so that the count does not depend on the words.
        memory.touch();
        return nearest;
    }
    let end = named + memory.load(named) as usize;
    if payload > end { nearest } else { named }
}

/// Returns the same as `usable_bytes`, and counts the words that it reads: three touches, whatever the words are.
pub fn load_usable_bytes(memory: &mut OpenMemory, payload: usize) -> Range
    requires { IsLiveIn memory.old payload }
    ensures range { AtEachBlock memory.old payload (λ u. result ≡ usable u) }
    ensures memory { memory.new ≡ record memory.old { touches = memory.old.touches + 3 } }
{
    let block = load_block_of(memory, payload);
    let end = used_end(block, memory.load(block));
    Range {
        start: payload,
        len: end - payload,
    }
}
