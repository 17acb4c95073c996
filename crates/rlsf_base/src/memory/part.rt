//! Bytes of a memory that left it: how they leave, and come back.
ghost use Rattle.std.specs.Prelude.{◌≡◌, ◌≤◌, ◌-◌, ◌++◌, ℕ, List, length, replicate, take};
ghost use Rattle.std.specs.Borrow.{sem};
ghost use Rattle.rlsf_base.specs.Changes.{AreBytesHere};
ghost use Rattle.rlsf_base.specs.MemoryCalls.{CountsNothing, IsPutBack, IsSpaceWith, IsTakenOut, StaysBeside};
ghost use Rattle.rlsf_base.specs.OpenSpace.{home_of, IsAway, IsOwned, out_raw, out_with, out_without};
ghost use Rattle.rlsf_base.specs.Piece.{piece_range, IsFull};
ghost use Rattle.rlsf_base.specs.Range.{LiesIn};
ghost use Rattle.rlsf_base.specs.Space.{with_bytes};

use super::block::Bytes;
use super::filling::{fill_bytes, fill_bytes_from};
use super::open_memory::OpenMemory;
use super::range::Range;
use super::view::View;
use std::marker::Model;

/// Bytes that left an `OpenMemory`: the part owns them. Each is here, with a value, or raw, without one.
///
/// A part is `Send`, so it can cross to another thread. `put_back` and `put_room` of its memory take it back. Dropping a
/// part leaks it: its bytes stay out, and `free` can't deallocate the memory any more.
pub struct Part {
    pub(crate) view: View,
    pub(crate) range: Range,
    pub(crate) bytes: Bytes,
}

impl Model for Part {
    ghost use Rattle.rlsf_base.specs.Piece.{Piece, IsPiece, home_from};

    ghost Value = { Piece };

    ghost view = { λ p. record { home = home_from p.view p.bytes.of; start = p.range.start; bytes = p.bytes.bytes; out = p.bytes.out } };

    ghost invariant = { λ p. IsPiece p.view p.range p.bytes };
}

impl Drop for Part {
    fn drop(self) {
        self.into_bytes().end();
    }
}

impl Part {
    ghost use Rattle.rlsf_base.specs.LendsPiece.{LendsPiece, lent_piece};
    ghost use Rattle.rlsf_base.specs.Piece.{CanCome, HasPartBytes, IsFull, IsPiece, IsPieceOf, Piece, piece_owns};

    // Consumes the part and returns the owner of its bytes. Only a method can take a part apart.
    #[inline(always)]
    pub(crate) fn into_bytes(self) -> Bytes
        ensures { HasPartBytes self result }
    {
        let Part {
            view: _,
            range: _,
            bytes,
        } = self;
        bytes
    }

    /// Consumes the part. What it owns, its bytes and the ways of their units, is the caller's from now on. `from_raw` can make
    /// it a part again.
    pub fn into_raw(self)
        ensures* handed { sem 𝓛 (piece_owns self) }
        ensures can { CanCome self self.home.view (piece_range self) }
    {
        self.into_bytes().into_raw();
    }

    // The part with these fields.
    pub(crate) fn of(view: View, range: Range, bytes: Bytes) -> Part
        requires { IsPiece view range bytes }
        ensures { IsPieceOf view range bytes result }
    {
        Part { view, range, bytes }
    }

    /// Returns the part of what `into_raw` passed to the caller.
    ///
    /// # Safety
    ///
    /// The caller must own what the part owned, and gives it up. `view` must be a view of the memory that it left, and `range`
    /// its addresses.
    pub unsafe fn from_raw(view: View, range: Range) -> Part
        ghost piece: { Piece }
        requires* { sem 𝓛 (piece_owns piece) ∗ ⌜ CanCome piece view range ⌝ }
        ensures { result ≡ piece }
    {
        Part::of(view, range, Bytes::from_raw())
    }

    /// Returns the address of the first byte.
    pub fn start(&self) -> usize
        ensures { result ≡ self.now.start }
    {
        self.range.start
    }

    /// Returns the number of bytes.
    pub fn len(&self) -> usize
        ensures { result ≡ length self.now.bytes }
    {
        self.range.len
    }

    /// Returns the bytes. They must be here.
    pub fn as_slice(&self) -> &[u8]
        requires { IsFull self.now }
        ensures { result.now ≡ self.now.bytes }
    {
        self.bytes.slice(
            self.view.base,
            self.view.place(self.range.start),
            self.range.len,
        )
    }

    /// Returns the bytes, for reading and writing. They must be here. When the borrow ends, the part has the bytes that
    /// were written. Nothing else changes.
    pub fn as_mut_slice(&mut self) -> &mut [u8]
        requires { IsFull self.old }
        ensures* writes_back { sem 𝓛 (LendsPiece self.entry result) }
        ensures value { result.now ≡ self.old.bytes }
        ensures filled { (w : List ℕ) → length w ≡ length result.now → (lent_piece self.old w).bytes ≡ w }
        ensures lengths { (w : List ℕ) → length (lent_piece self.old w).bytes ≡ length self.old.bytes }
        ensures full { (w : List ℕ) → IsFull (lent_piece self.old w) }
        ensures home { (w : List ℕ) → (lent_piece self.old w).home ≡ self.old.home }
        ensures start { (w : List ℕ) → (lent_piece self.old w).start ≡ self.old.start }
    {
        let view = self.view;
        let start = self.range.start;
        let len = self.range.len;
        self.bytes.slice_mut(view.base, view.place(start), len)
    }

    /// Writes `value` to each byte. All are then here. The address and the length don't change.
    pub fn fill(&mut self, value: u8)
        ensures bytes { self.new.bytes ≡ replicate (length self.old.bytes) value }
        ensures full { IsFull self.new }
        ensures home { self.new.home ≡ self.old.home }
        ensures start { self.new.start ≡ self.old.start }
    {
        let view = self.view;
        let place = view.place(self.range.start);
        fill_bytes(&mut self.bytes, view.base, place, self.range.len, value);
    }

    /// Writes `value` to each byte from index `from` on. The bytes before must be here, and keep their values. All are then here.
    /// The address and the length don't change.
    pub fn fill_from(&mut self, from: usize, value: u8)
        requires place { from ≤ length self.old.bytes }
        requires kept { AreBytesHere self.old.out 0 from }
        ensures bytes { self.new.bytes ≡ take from self.old.bytes ++ replicate (length self.old.bytes - from) value }
        ensures full { IsFull self.new }
        ensures home { self.new.home ≡ self.old.home }
        ensures start { self.new.start ≡ self.old.start }
    {
        let view = self.view;
        let place = view.place(self.range.start);
        let len = self.range.len;
        fill_bytes_from(&mut self.bytes, view.base, place, len, from, value);
    }
}

impl OpenMemory {
    /// Takes the bytes of `range` out of the memory, and returns the part that owns them. Each is here or raw, as it was, and
    /// keeps its value. Nothing else changes.
    ///
    /// `range` must lie in the memory, and no byte of it may be out.
    #[inline(always)]
    pub fn take_out(&mut self, range: Range) -> Part
        requires place { LiesIn range self.old.start (length self.old.bytes) }
        requires own { IsOwned self.old range }
        ensures part { IsTakenOut self.old range result }
        ensures memory { IsSpaceWith self.old self.new self.old.bytes (out_without self.old range) }
        ensures counts { CountsNothing self.old self.new }
        ensures beside { StaysBeside self.old self.new range }
    {
        let view = self.view();
        let bytes = self.bytes.take_out(view.place(range.start), range.len);
        Part { view, range, bytes }
    }

    /// Puts the bytes of `part` back. They are then here, with the values that they have in the part. Nothing else changes.
    ///
    /// `part` must come from this memory, and its bytes must be here.
    #[inline(always)]
    pub fn put_back(&mut self, part: Part)
        requires home { part.home ≡ home_of self.old }
        requires full { IsFull part }
        ensures away { IsAway self.old (piece_range part) }
        ensures memory { IsSpaceWith self.old self.new (with_bytes self.old part.start part.bytes) (out_with self.old (piece_range part)) }
        ensures counts { CountsNothing self.old self.new }
        ensures back { IsPutBack self.old self.new part }
    {
        self.put_thin_back(part.into_thin_bytes());
    }

    /// Puts the bytes of `part` back. They are then raw. Nothing else changes.
    ///
    /// `part` must come from this memory.
    #[inline(always)]
    pub fn put_room(&mut self, part: Part)
        requires { part.home ≡ home_of self.old }
        ensures away { IsAway self.old (piece_range part) }
        ensures memory { IsSpaceWith self.old self.new self.old.bytes (out_raw self.old (piece_range part)) }
        ensures counts { CountsNothing self.old self.new }
        ensures own { IsOwned self.new (piece_range part) }
        ensures beside { StaysBeside self.old self.new (piece_range part) }
    {
        self.put_thin_room(part.into_thin_bytes());
    }
}
