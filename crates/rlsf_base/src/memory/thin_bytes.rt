//! The bytes of a part without the numbers of their place: for callers that know an address alone.
ghost use Rattle.std.specs.Prelude.{◌≡◌};
ghost use Rattle.rlsf_base.specs.MemoryCalls.{CountsNothing, IsPutBack, IsSpaceWith, StaysBeside};
ghost use Rattle.rlsf_base.specs.OpenSpace.{home_of, IsAway, IsOwned, out_raw, out_with};
ghost use Rattle.rlsf_base.specs.Piece.{CanCome, HasPartBytes, IsFull, Piece, piece_owns, piece_range};
ghost use Rattle.rlsf_base.specs.Space.{with_bytes};

use super::block::Bytes;
use super::open_memory::OpenMemory;
use super::part::Part;
use super::range::Range;
use super::view::View;
use std::marker::{Model, PhantomData};

/// The bytes of a part. Their place and their number are known to the prover alone (`piece`), so the value takes no space. It has no
/// `Drop`: `put_thin_back` and `put_thin_room` of its memory take it back, and `into_part` makes it a part again.
pub struct ThinBytes {
    pub mark: PhantomData<()>,
    pub ghost piece: { Piece },
}

impl Model for ThinBytes {
    ghost also_owns = { λ b. piece_owns b.piece };
}

impl ThinBytes {
    // The owner of these bytes.
    unsafe fn into_bytes(self) -> Bytes
        requires { CanCome self.piece self.piece.home.view (piece_range self.piece) }
        ensures { HasPartBytes self.piece result }
    {
        let ThinBytes { mark: _ } = self;
        Bytes::from_raw()
    }

    /// Returns the part with these bytes.
    ///
    /// # Safety
    ///
    /// `view` must be a view of the memory that they left, and `range` their addresses there.
    pub unsafe fn into_part(self, view: View, range: Range) -> Part
        requires { CanCome self.piece view range }
        ensures { result ≡ self.piece }
    {
        Part::of(view, range, self.into_bytes())
    }
}

impl Part {
    /// Consumes the part and returns its bytes without the numbers of their place.
    pub fn into_thin_bytes(self) -> ThinBytes
        ensures piece { result.piece ≡ self }
        ensures can { CanCome self self.home.view (piece_range self) }
    {
        self.into_raw();
        ThinBytes { mark: PhantomData }
    }
}

impl OpenMemory {
    /// Puts bytes back, as `put_back` does. It needs no number: their place is known to the prover alone.
    ///
    /// They must come from this memory, and each must be here.
    #[inline(always)]
    pub fn put_thin_back(&mut self, bytes: ThinBytes)
        requires home { bytes.piece.home ≡ home_of self.old }
        requires can { CanCome bytes.piece bytes.piece.home.view (piece_range bytes.piece) }
        requires full { IsFull bytes.piece }
        ensures away { IsAway self.old (piece_range bytes.piece) }
        ensures memory { IsSpaceWith self.old self.new (with_bytes self.old bytes.piece.start bytes.piece.bytes) (out_with self.old (piece_range bytes.piece)) }
        ensures counts { CountsNothing self.old self.new }
        ensures back { IsPutBack self.old self.new bytes.piece }
    {
        self.bytes.put_back(unsafe { bytes.into_bytes() });
    }

    /// Puts bytes back, as `put_room` does: they are then raw. It needs no number: their place is known to the prover alone.
    ///
    /// They must come from this memory.
    #[inline(always)]
    pub fn put_thin_room(&mut self, bytes: ThinBytes)
        requires home { bytes.piece.home ≡ home_of self.old }
        requires can { CanCome bytes.piece bytes.piece.home.view (piece_range bytes.piece) }
        ensures away { IsAway self.old (piece_range bytes.piece) }
        ensures memory { IsSpaceWith self.old self.new self.old.bytes (out_raw self.old (piece_range bytes.piece)) }
        ensures counts { CountsNothing self.old self.new }
        ensures own { IsOwned self.new (piece_range bytes.piece) }
        ensures beside { StaysBeside self.old self.new (piece_range bytes.piece) }
    {
        self.bytes.put_room(unsafe { bytes.into_bytes() });
    }
}
