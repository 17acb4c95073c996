//! Trim: returns the newest ranges without a used block to their source.

ghost use Rattle.std.specs.Prelude.{◌≡◌, ◌↔◌, ◌≤◌, ◌<◌, ◌+◌, ◌*◌, ℕ, [], Some, None, true, false, length, MatchOption, IfSome};
ghost use Rattle.rlsf_blocks.specs.Blocks.{walked};
ghost use Rattle.rlsf_flex.specs.StandsFor.{FlexStandsFor};
ghost use Rattle.rlsf_flex.specs.Steps.Parts.{flex_over};
ghost use Rattle.rlsf_flex.specs.Steps.Trim.{GaveBack, GaveNewest, HasRoomForChunk, LeavesPayloads};
ghost use Rattle.rlsf_model.specs.ChunkRows.{IsRow};
ghost use Rattle.rlsf_model.specs.FlexWellFormed.{IsPool};
ghost use Rattle.rlsf_model.specs.Remove.{IsIdle};
ghost use Rattle.rlsf_model.specs.Trim.{IsNewestHeld};
ghost use Rattle.rlsf_tlsf.specs.Allocator.{Stands};

use crate::end::range_before;
use crate::parts::Parts;
use crate::pool::Pool;
use crate::source::FlexSource;
use rlsf_base::memory::Range;
use rlsf_base::rounding::next_multiple_of_32;
use rlsf_tlsf::Tlsf;

/// Returns whether no block of some contiguous chunks is used.
fn is_idle<const FLLEN: usize, const SLLEN: usize>(
    tlsf: &Tlsf<u128, u128, FLLEN, SLLEN>,
    row: Range,
) -> bool
    requires stands { Stands FLLEN SLLEN tlsf.now }
    requires row { IsRow tlsf.now.state (walked row) }
    ensures { (result ≡ true) ↔ IsIdle tlsf.now.state (walked row) }
{
    let mut blocks = tlsf.iter_blocks(row);
    while let Some(block) = blocks.next() {
        if block.is_occupied() {
            return false;
        }
    }
    true
}

/// Returns the number of bytes from the start of a range to the end of its last chunk. It iterates over the chunks while there is room for
/// one.
fn pool_len<const FLLEN: usize, const SLLEN: usize>(
    tlsf: &Tlsf<u128, u128, FLLEN, SLLEN>,
    range: Range,
) -> usize
    requires stands { Stands FLLEN SLLEN tlsf.now }
    requires room { HasRoomForChunk range }
    requires pool { (len : ℕ) × IsPool tlsf.now.state range len }
    ensures { (len : ℕ) → IsPool tlsf.now.state range len → result ≡ len }
{
    let mut end = next_multiple_of_32(range.start);
    while range.start + range.len - end >= 64 {
        end = tlsf.chunk_end(end);
    }
    end - range.start
}

/// Returns the pool of a range, if there is a range.
fn pool_of<const FLLEN: usize, const SLLEN: usize>(
    tlsf: &Tlsf<u128, u128, FLLEN, SLLEN>,
    range: Option<Range>,
) -> Option<Pool>
    requires stands { Stands FLLEN SLLEN tlsf.now }
    requires pool { IfSome range (λ r. HasRoomForChunk r × ((len : ℕ) × IsPool tlsf.now.state r len)) }
    ensures { MatchOption range (result ≡ None) (λ r. (len : ℕ) → IsPool tlsf.now.state r len → result ≡ Some (record { range = r; len = len })) }
{
    match range {
        Some(range) => Some(Pool {
            range,
            len: pool_len(tlsf, range),
        }),
        None => None,
    }
}

impl<S: FlexSource, const FLLEN: usize, const SLLEN: usize> Parts<S, FLLEN, SLLEN> {
    /// Returns the newest range to the source, if there is one and it holds no used block. The range before it is then the newest. Returns
    /// whether a range was returned.
    fn give_newest_back(&mut self) -> bool
        requires supported { (S.terms self.old.source).dealloc ≡ true }
        requires stands { FlexStandsFor FLLEN SLLEN S.terms S.owes (flex_over self.old) }
        requires whole { self.old.tlsf.memory.out ≡ [] }
        ensures gone { result ≡ true → GaveNewest FLLEN SLLEN S.terms S.owes S.leads (flex_over self.old) (flex_over self.new) }
        ensures held { result ≡ false → IsNewestHeld self.old.tlsf.state self.old.owed.ranges }
        ensures same { result ≡ false → self.new ≡ self.old }
        ensures payloads { LeavesPayloads self.old.tlsf self.new.tlsf }
        ensures touches { self.new.tlsf.memory.touches + 9 * length self.new.tlsf.state.chunks ≤ self.old.tlsf.memory.touches + 9 * length self.old.tlsf.state.chunks }
    {
        let Some(pool) = self.kept else {
            return false;
        };
        let row = Range {
            start: pool.range.start,
            len: pool.len,
        };
        if !is_idle(&self.tlsf, row) {
            return false;
        }
        // The footer goes with its range.
        let before = range_before(self.tlsf.memory_ref(), pool.range);
        self.tlsf.remove_pool(row);
        self.source.dealloc(pool.range);
        self.owed.drop_newest();
        let next = pool_of(&self.tlsf, before);
        self.kept = next;
        true
    }

    /// Returns the newest range to the source, as long as that holds no used block. The result is the number of these ranges.
    pub(crate) fn give_idle_back(&mut self) -> usize
        requires supported { (S.terms self.old.source).dealloc ≡ true }
        requires stands { FlexStandsFor FLLEN SLLEN S.terms S.owes (flex_over self.old) }
        requires whole { self.old.tlsf.memory.out ≡ [] }
        ensures gone { GaveBack FLLEN SLLEN S.terms S.owes S.leads (flex_over self.old) (flex_over self.new) result }
        ensures held { IsNewestHeld self.new.tlsf.state self.new.owed.ranges }
        ensures same { result ≡ 0 → self.new ≡ self.old }
        ensures payloads { LeavesPayloads self.old.tlsf self.new.tlsf }
        ensures touches { self.new.tlsf.memory.touches + 9 * length self.new.tlsf.state.chunks ≤ self.old.tlsf.memory.touches + 9 * length self.old.tlsf.state.chunks }
    {
        let mut count = 0;
        while self.give_newest_back() {
            count += 1;
        }
        count
    }
}
