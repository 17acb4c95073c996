//! Growth: asks a source for more memory, and inserts the memory that comes.

ghost use Rattle.std.specs.Prelude.{◌≡◌, ◌≢◌, ◌≤◌, ◌<◌, ◌+◌, ◌||◌, ℕ, [], false, None, Some, IfNone, IfSome, MatchOption, length};
ghost use Rattle.std.specs.Int.NonZero.{non_zero_usize_get};
ghost use Rattle.rlsf_base.specs.Addr.{at};
ghost use Rattle.rlsf_model_sizes.specs.SizeClass.{IsValid};
ghost use Rattle.rlsf_base.specs.Space.{SamePlace};
ghost use Rattle.rlsf_tlsf.specs.Allocator.{Stands};
ghost use Rattle.rlsf_tlsf.specs.Bounds.{KeepsBounds};
ghost use Rattle.rlsf_tlsf.specs.Results.{IsReallocated};
ghost use Rattle.rlsf_flex.specs.StandsFor.{FlexStandsFor, kept_pool};
ghost use Rattle.rlsf_flex.specs.Steps.Growth.{AskedGrowth, AskedRange, Extended, IsAsBefore, HasSamePayloads, MovesPayload, kept_len, kept_start};
ghost use Rattle.rlsf_flex.specs.Steps.Parts.{flex_over};
ghost use Rattle.rlsf_model.specs.Allocate.{Allocates};
ghost use Rattle.rlsf_model.specs.Callers.{align_at, bytes_at};
ghost use Rattle.rlsf_model.specs.Growth.{range_length};
ghost use Rattle.rlsf_model.specs.PoolLength.{IsPoolSize};
ghost use Rattle.rlsf_model.specs.Sized.{live_count};

use crate::footers::{read_footer, write_footer, write_footer_if};
use crate::parts::Parts;
use crate::pool::Pool;
use crate::source::FlexSource;
use rlsf_base::memory::{Addr, Layout, Range};
use rlsf_tlsf::Tlsf;
use std::num::NonZeroUsize;

/// Returns the start and the length that the footer of the next range names.
fn words_of(kept: Option<Pool>) -> (usize, usize)
    ensures { (result.0 ≡ kept_start kept) × (result.1 ≡ kept_len kept) }
{
    match kept {
        Some(pool) => (pool.range.start, pool.range.len),
        None => (0, 0),
    }
}

/// Returns whether the newest range is kept.
fn keeps_pool<S: FlexSource>(source: &S) -> bool
    ensures { result ≡ ((S.terms source.now).dealloc || (S.terms source.now).grow) }
{
    source.supports_dealloc() || source.supports_realloc_inplace_grow()
}

/// Returns the number of bytes that an insertion took: 0 if it took none.
fn len_of(taken: Option<NonZeroUsize>) -> usize
    ensures { MatchOption taken (result ≡ 0) (λ len. result ≡ non_zero_usize_get len) }
{
    match taken {
        Some(len) => len.get(),
        None => 0,
    }
}

/// Returns the length of a new range that is sure to contain `wanted` bytes from a multiple of 32 on.
fn range_len<S: FlexSource>(source: &S, wanted: usize) -> Option<usize>
    ensures { result ≡ range_length (S.terms source.now) wanted }
{
    if source.min_align() < 32 {
        wanted.checked_add(32)
    } else {
        Some(wanted)
    }
}

impl<S: FlexSource, const FLLEN: usize, const SLLEN: usize> Parts<S, FLLEN, SLLEN> {
    /// Asks for a range that is sure to contain `wanted` bytes from a multiple of 32 on, if there is a length for one. Inserts the range.
    fn ask_range(&mut self, wanted: usize) -> Option<Range>
        requires valid { IsValid 128 128 FLLEN SLLEN }
        requires wanted { IsPoolSize FLLEN SLLEN wanted }
        requires stands { FlexStandsFor FLLEN SLLEN S.terms S.owes (flex_over self.old) }
        requires whole { self.old.tlsf.memory.out ≡ [] }
        ensures step { AskedRange FLLEN SLLEN S.terms S.owes S.leads (flex_over self.old) (flex_over self.new) wanted result }
        ensures payloads { HasSamePayloads SLLEN self.old.tlsf self.new.tlsf }
        ensures refused { IfNone result (IsAsBefore self.old.tlsf self.new.tlsf) }
    {
        let len = range_len(&self.source, wanted)?;
        let range = self.source.alloc(len)?;
        let taken = len_of(self.tlsf.insert_free_block_ptr(range));
        let takes_back = self.source.supports_dealloc();
        let (start, len) = words_of(self.kept);
        write_footer_if(takes_back, &mut self.tlsf, range, start, len);
        self.kept = keeps_pool(&self.source).then_some(Pool { range, len: taken });
        self.owed.give(range);
        Some(range)
    }

    /// Asks for growth of the kept range to `len` bytes, if the source can grow it. Appends the new bytes, after the footer has moved.
    fn ask_growth(&mut self, pool: Pool, wanted: usize, len: usize) -> Option<usize>
        requires kept { self.old.kept ≡ Some pool }
        requires valid { IsValid 128 128 FLLEN SLLEN }
        requires wanted { IsPoolSize FLLEN SLLEN wanted }
        requires len { len ≡ pool.len + wanted }
        requires stands { FlexStandsFor FLLEN SLLEN S.terms S.owes (flex_over self.old) }
        requires whole { self.old.tlsf.memory.out ≡ [] }
        ensures step { AskedGrowth FLLEN SLLEN S.terms S.owes S.leads (flex_over self.old) (flex_over self.new) (kept_pool pool) len wanted result }
        ensures whole { self.new.tlsf.memory.out ≡ [] }
        ensures payloads { HasSamePayloads SLLEN self.old.tlsf self.new.tlsf }
        ensures refused { IfNone result (IsAsBefore self.old.tlsf self.new.tlsf) }
    {
        let Parts {
            tlsf,
            kept,
            source,
            owed,
        } = self;
        let grows = source.supports_realloc_inplace_grow();
        if !grows {
            return None;
        }
        let grown = source.realloc_inplace_grow(pool.range, len)?;
        let range = Range {
            start: pool.range.start,
            len: grown,
        };
        if source.supports_dealloc() {
            let (start, before) = read_footer(tlsf.memory_ref(), pool.range);
            write_footer(tlsf, range, start, before);
        }
        let taken = tlsf.append_free_block_ptr(Range {
            start: pool.range.start + pool.len,
            len: grown - pool.len,
        });
        *kept = Some(Pool {
            range,
            len: pool.len + taken,
        });
        owed.grow(grown);
        Some(grown)
    }

    /// Asks for `wanted` more bytes: first for growth of the kept range, if there is one. If no growth came, asks for a new range, unless a
    /// pool is kept and the source is contiguous. Returns whether memory came.
    pub(crate) fn extend(&mut self, wanted: usize) -> bool
        requires valid { IsValid 128 128 FLLEN SLLEN }
        requires wanted { IsPoolSize FLLEN SLLEN wanted }
        requires stands { FlexStandsFor FLLEN SLLEN S.terms S.owes (flex_over self.old) }
        requires whole { self.old.tlsf.memory.out ≡ [] }
        ensures step { Extended FLLEN SLLEN S.terms S.owes S.leads (flex_over self.old) (flex_over self.new) wanted result }
        ensures payloads { HasSamePayloads SLLEN self.old.tlsf self.new.tlsf }
        ensures refused { result ≡ false → IsAsBefore self.old.tlsf self.new.tlsf }
    {
        let Some(pool) = self.kept else {
            return self.ask_range(wanted).is_some();
        };
        let Some(len) = pool.len.checked_add(wanted) else {
            return false;
        };
        if self.ask_growth(pool, wanted, len).is_some() {
            return true;
        }
        let is_contiguous = self.source.is_contiguous_growable();
        if is_contiguous {
            return false;
        }
        self.ask_range(wanted).is_some()
    }
}

/// Moves a payload, with all its bytes, into a block that is allocated for it, if there is room for one.
pub(crate) fn move_payload<const FLLEN: usize, const SLLEN: usize>(
    tlsf: &mut Tlsf<u128, u128, FLLEN, SLLEN>,
    addr: Addr,
    layout: Layout,
) -> Option<Addr>
    requires stands { Stands FLLEN SLLEN tlsf.old }
    requires live { align_at tlsf.old.state (at addr) ≡ Some layout.align }
    requires short { length (bytes_at tlsf.old.state (at addr)) ≤ layout.size }
    ensures refused { IfNone result (Allocates SLLEN tlsf.old.state layout.size layout.align None tlsf.old.state) }
    ensures step { IfSome result (λ to. MovesPayload FLLEN SLLEN tlsf.old tlsf.new (at addr) layout.size (at to)) }
    ensures result { IfSome result (λ to. IsReallocated tlsf.old.state tlsf.new.state (at addr) layout.size layout.align (at to)) }
    ensures count { live_count tlsf.new.state ≡ live_count tlsf.old.state }
    ensures bounds { KeepsBounds SLLEN tlsf.old.state tlsf.new.state layout.size layout.align }
    ensures place { SamePlace tlsf.old.memory tlsf.new.memory }
    ensures grow { tlsf.old.memory.touches ≤ tlsf.new.memory.touches }
    ensures grow_copied { tlsf.old.memory.copied ≤ tlsf.new.memory.copied }
{
    let to = tlsf.allocate(layout)?;
    let len = tlsf.allocation_usable_size(addr);
    tlsf.copy_payload(addr, to, len);
    tlsf.deallocate(addr, layout.align());
    Some(to)
}
