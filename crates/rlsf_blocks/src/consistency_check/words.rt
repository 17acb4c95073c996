//! Words at addresses that may lie outside of the memory, or of the pools of which a check is.

ghost use Rattle.std.specs.Prelude.{◌≡◌, ◌↔◌, ◌+◌, IfNone, IfSome, true};
ghost use Rattle.rlsf_base.specs.Range.{LiesIn};
ghost use Rattle.rlsf_base.specs.Space.{word_at, word_range};
ghost use Rattle.rlsf_blocks.specs.Consistency.Linked.{HasFreeSize, HasWord};
ghost use Rattle.rlsf_blocks.specs.Consistency.Pools.{IsPoolWord, LiesInPool};
ghost use Rattle.rlsf_blocks.specs.Steps.Legible.{IsLegible};

use crate::GRANULARITY;
use rlsf_base::memory::OpenMemory;

/// Returns whether a word at an address lies in `len` bytes from `start` on.
fn lies_in(addr: usize, start: usize, len: usize) -> bool
    ensures { (result ≡ true) ↔ LiesIn (word_range addr) start len }
{
    addr >= start && len >= 8 && addr - start <= len - 8
}

/// Returns whether a word at an address lies in one of some pools.
fn lies_in_pool(pools: &[usize], addr: usize) -> bool
    ensures { (result ≡ true) ↔ LiesInPool pools.now (word_range addr) }
{
    for k in 0..pools.len() / 2 {
        if lies_in(addr, pools[2 * k], pools[2 * k + 1]) {
            return true;
        }
    }
    false
}

/// Returns whether a word of the pools is at an address: a multiple of 8 whose eight bytes lie in the memory, and in one of the pools.
fn is_word(memory: &OpenMemory, pools: &[usize], addr: usize) -> bool
    ensures { (result ≡ true) ↔ IsPoolWord pools.now memory.now addr }
{
    addr % 8 == 0 && lies_in(addr, memory.start(), memory.len()) && lies_in_pool(pools, addr)
}

/// Returns whether a word of the pools is at an address and has a value.
pub(crate) fn has_word(memory: &OpenMemory, pools: &[usize], addr: usize, word: u64) -> bool
    requires { IsLegible pools.now memory.now addr }
    ensures { (result ≡ true) ↔ HasWord pools.now memory.now addr word }
{
    is_word(memory, pools, addr) && memory.word(addr) == word
}

/// Returns whether a word of the pools is at an offset from an address and has a value.
pub(crate) fn has_word_behind(
    memory: &OpenMemory,
    pools: &[usize],
    addr: usize,
    offset: usize,
    word: u64,
) -> bool
    requires { IsLegible pools.now memory.now (addr + offset) }
    ensures { (result ≡ true) ↔ HasWord pools.now memory.now (addr + offset) word }
{
    // Opens the memory's invariant for the prover: each address fits in a word.
    let _ = memory.start();
    match addr.checked_add(offset) {
        Some(place) => has_word(memory, pools, place, word),
        None => false,
    }
}

/// Returns the size word at an address, if it is that of a free block.
pub(crate) fn free_size(memory: &OpenMemory, pools: &[usize], addr: usize) -> Option<usize>
    requires { IsLegible pools.now memory.now addr }
    ensures some { IfSome result (λ size. HasFreeSize pools.now memory.now addr × (size ≡ word_at memory.now addr)) }
    ensures none { IfNone result (HasFreeSize pools.now memory.now addr → ⊥) }
{
    if !is_word(memory, pools, addr) {
        return None;
    }
    let size = memory.word(addr) as usize;
    if size != 0 && size % GRANULARITY == 0 {
        Some(size)
    } else {
        None
    }
}
