//! The words of a heap, whatever their values are.

ghost use Rattle.std.specs.Prelude.{◌≡◌, ◌↔◌, true};
ghost use Rattle.rlsf_model_sizes.specs.SizeClass.{IsValid};
ghost use Rattle.rlsf_blocks.specs.Consistency.Consistent.{AreConsistent, ArePoolsLegible};

use rlsf_base::memory::OpenMemory;
use rlsf_base::memory::ledger::Ledger;
use rlsf_blocks::consistency_check::are_consistent;
use rlsf_int::BitPattern;
use rlsf_table::ClassTable;
use rlsf_tlsf::GhostState;
use std::marker::{Model, PhantomData};

/// The words of a heap: those of its memory and of its class table. They may have any values, since other code may have written to them,
/// as a program in C can. So nothing is known of them, and no call is made on a heap whose words they are, but for the check.
///
/// It has the fields of a `Heap`, in the same order: it lies where the heap lay.
pub struct HeapWords<
    FLBitmap: BitPattern,
    SLBitmap: BitPattern,
    const FLLEN: usize,
    const SLLEN: usize,
> {
    pub(crate) memory: OpenMemory,
    pub(crate) live: usize,
    pub(crate) lent: bool,
    pub(crate) table: ClassTable<FLLEN, SLLEN>,
    pub(crate) state: GhostState,
    pub(crate) ledger: Ledger,
    pub(crate) bitmaps: [PhantomData<(FLBitmap, SLBitmap)>; 0],
}

impl<FLBitmap: BitPattern, SLBitmap: BitPattern, const FLLEN: usize, const SLLEN: usize> Model
    for HeapWords<FLBitmap, SLBitmap, FLLEN, SLLEN> {
    ghost use Rattle.rlsf_heap.specs.Words.{WordsView};

    ghost Value = { WordsView };

    ghost view = { λ h. record { memory = h.memory; table = h.table; live = h.live; lent = h.lent; state = h.state.state; ledger = h.ledger.name; entries = h.ledger.entries } };
}

impl<FLBitmap: BitPattern, SLBitmap: BitPattern, const FLLEN: usize, const SLLEN: usize> HeapWords<
    FLBitmap,
    SLBitmap,
    FLLEN,
    SLLEN,
> {
    /// Returns whether these are the words of a heap over some pools, as `rlsf_blocks::consistency_check::are_consistent` does. The numbers are
    /// the start and the length of each pool.
    ///
    /// The words and the pools may have any values. Nothing outside of the pools and the table is read, and nothing is written. Each word of the
    /// pools must be here, or the words must be those of a heap: then bytes of payloads may be out, since none of them is read.
    pub fn are_consistent(&self, pools: &[usize]) -> bool
        requires parameters { IsValid FLBitmap.width SLBitmap.width FLLEN SLLEN }
        requires legible { ArePoolsLegible FLLEN SLLEN pools.now self.now.memory self.now.table }
        ensures { (result ≡ true) ↔ AreConsistent FLLEN SLLEN pools.now self.now.memory self.now.table }
    {
        are_consistent(&self.memory, &self.table, pools)
    }
}
