//! The words of a block: the offset of each in bytes, and the meaning of a size word.
//!
//! The first word of a block is its size word: its length, which is a multiple of 32, and two flags below.

ghost use Rattle.std.specs.Prelude.{◌≡◌, ◌+◌, ◌-◌, ◌%◌, ◌^◌, ◌<◌, ◌≤◌, ◌↔◌, IsTrue};

/// The word that names the block before this one, or 0 in a chunk's first block.
pub const PREVIOUS_BLOCK: usize = 8;

/// In a free block, the link to the next one of its list, or 0.
pub const NEXT_FREE: usize = 16;

/// In a free block, the link to the one before it in its list, or 0.
pub const PREVIOUS_FREE: usize = 24;

/// The distance in bytes from the word that names the block to its payload, for a payload with an alignment of 32 or more.
pub const PAD: usize = 8;

/// The flag in a size word of a used block.
pub const SIZE_USED: u64 = 1;

/// The flag in a size word of a sentinel, the last block of its chunk. A sentinel has the flag of a used block, too.
pub const SIZE_SENTINEL: u64 = 2;

/// Returns whether the block with this size word is free.
pub fn is_free(size: u64) -> bool
    ensures { IsTrue result ↔ (size % 2 ≡ 0) }
{
    size % 2 == 0
}

/// Returns the size word of a used block of `len` bytes.
pub fn used_size_word(len: usize) -> u64
    requires { len + 1 < 2 ^ 64 }
    ensures { result ≡ len + 1 }
{
    len as u64 + SIZE_USED
}

/// Returns the length of the used block with this size word, which must not be a sentinel's.
pub fn len_of_used(size: u64) -> usize
    requires { 1 ≤ size }
    ensures { result ≡ size - 1 }
{
    (size - SIZE_USED) as usize
}

/// Returns the end of the used block at `block` with this size word.
pub fn used_end(block: usize, size: u64) -> usize
    requires used { 1 ≤ size }
    requires fits { block + (size - 1) < 2 ^ 64 }
    ensures { result ≡ block + (size - 1) }
{
    block + len_of_used(size)
}
