//! Bytes that a caller who holds a pointer lends to a heap, or gets back.
ghost use Rattle.std.specs.Prelude.{◌≡◌, ◌≢◌, true, length};
ghost use Rattle.std.specs.Borrow.{sem};
ghost use Rattle.rlsf_base.specs.Piece.{IsFull, Piece, piece_range};
ghost use Rattle.rlsf_base.specs.Range.{AreApart, LiesIn};
ghost use Rattle.rlsf_base.specs.declared.memory.range.Range.{Range};
ghost use Rattle.rlsf_model.specs.Insert.{IsUntouched};
ghost use Rattle.rlsf_heap.specs.Lending.{IsLentTo, IsReclaimed};
ghost use Rattle.rlsf_heap.specs.Loans.{owns_loan};

use crate::heap::Heap;
use rlsf_base::memory::{Part, Range, ThinBytes};
use rlsf_int::BitPattern;
use std::marker::{Model, PhantomData};

/// Bytes of a heap's addresses that a caller lends or gets back, by the address of the first one; or none, where that is 0. It owns them, and
/// takes one word: its heap and its length are known to the prover alone (`of`).
///
/// Dropping a loan leaks its bytes.
pub struct Loan {
    /// The address, or 0.
    pub addr: usize,
    pub ghost of: { Piece },
}

impl Model for Loan {
    ghost also_owns = { λ l. owns_loan l.of };
}

impl Drop for Loan {
    fn drop(self) {
        let Loan { addr: _ } = self;
    }
}

impl Loan {
    /// Returns no bytes.
    ///
    /// Completes in constant time.
    pub fn none() -> Loan
        ensures { (result.addr ≡ 0) × (result.of.start ≡ 0) }
    {
        Loan { addr: 0 }
    }

    // The bytes of this part.
    pub(crate) fn from_part(addr: usize, part: Part) -> Loan
        requires { (part.start ≡ addr) × (addr ≢ 0) }
        ensures { (result.addr ≡ addr) × (result.of ≡ part) }
    {
        part.into_raw();
        Loan { addr }
    }

    // Consumes the loan and returns its bytes.
    pub(crate) unsafe fn into_bytes(self) -> ThinBytes
        requires { self.of.start ≢ 0 }
        ensures { result.piece ≡ self.of }
    {
        let Loan { addr: _ } = self;
        ThinBytes { mark: PhantomData }
    }

    /// Consumes the loan and returns its address. Its bytes are the caller's from now on.
    ///
    /// Completes in constant time.
    pub fn into_raw(self) -> usize
        ensures* handed { sem 𝓛 (owns_loan self.of) }
        ensures addr { result ≡ self.addr }
    {
        let Loan { addr } = self;
        addr
    }

    /// Makes a loan of the caller's bytes.
    ///
    /// Completes in constant time.
    ///
    /// # Safety
    ///
    /// The caller must own the bytes, and gives them up.
    pub unsafe fn from_raw(addr: usize) -> Loan
        ghost of: { Piece }
        requires* { sem 𝓛 (owns_loan of) }
        ensures { (result.addr ≡ addr) × (result.of ≡ of) }
    {
        Loan { addr }
    }
}

impl<FLBitmap: BitPattern, SLBitmap: BitPattern, const FLLEN: usize, const SLLEN: usize> Heap<
    FLBitmap,
    SLBitmap,
    FLLEN,
    SLLEN,
> {
    ghost use Rattle.rlsf_heap.specs.Heap.{IsLent, Stands};

    /// Lends the bytes of a range to the heap, as `lend` does.
    ///
    /// Completes in constant time, without a word access.
    pub fn lend_loan(&mut self, loan: Loan, range: Range)
        requires some { loan.of.start ≢ 0 }
        requires range { piece_range loan.of ≡ range }
        requires home { loan.of.home ≡ self.old.identity.home }
        requires full { IsFull loan.of }
        requires lies_in { LiesIn range self.old.memory.start (length self.old.memory.bytes) }
        requires untouched { IsUntouched self.old.state.chunks range }
        ensures stands { Stands FLLEN SLLEN self.new }
        ensures lent { IsLentTo self.old self.new loan.of }
        ensures range { IsLent self.new range }
        ensures others { (r : Range) → IsLent self.old r → IsLent self.new r }
    {
        self.memory.takes_parts();
        let view = self.memory.view();
        let bytes = unsafe { loan.into_bytes() };
        let part = unsafe { bytes.into_part(view, range) };
        self.lend(part);
    }

    /// Returns the bytes of a range, as `reclaim` does.
    ///
    /// Completes in constant time, without a word access.
    pub fn reclaim_loan(&mut self, range: Range) -> Loan
        requires lies_in { LiesIn range self.old.memory.start (length self.old.memory.bytes) }
        requires untouched { IsUntouched self.old.state.chunks range }
        requires range { IsLent self.old range }
        requires lent { self.old.lent ≡ true }
        ensures stands { Stands FLLEN SLLEN self.new }
        ensures reclaimed { IsReclaimed self.old self.new range result.of }
        ensures others { (r : Range) → IsLent self.old r → AreApart range r → IsLent self.new r }
    {
        let _ = self.memory.start();
        let part = self.reclaim(range);
        Loan::from_part(range.start, part)
    }
}
