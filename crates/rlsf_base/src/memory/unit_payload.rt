//! Payloads of complete units that are known by a pointer alone, and of which the first bytes may stay with their owner.
ghost use Rattle.std.specs.Prelude.{◌≡◌, ℕ, ◌+◌, ◌-◌, ◌%◌, ◌↔◌, IsTrue, false, length, set};
ghost use Rattle.std.specs.Int.{w64, from_le_bytes};
ghost use Rattle.rlsf_base.specs.Ledger.{IsIssued, entry_of, extent};
ghost use Rattle.rlsf_base.specs.MemoryCalls.{CountsNothing, IsSpaceWith};
ghost use Rattle.rlsf_base.specs.OpenSpace.{HasUnits, Home, home_of, IsAway, IsOwned, IsReadable, out_raw, out_without};
ghost use Rattle.rlsf_base.specs.Piece.{piece_range, IsUnits};
ghost use Rattle.rlsf_base.specs.Range.{LiesIn, range_at};
ghost use Rattle.rlsf_base.specs.Space.{word_at};
ghost use Rattle.rlsf_base.specs.Steps.UnitParts.{AreUnitsAt, IsSpotAt, IsTicketFor};
ghost use Rattle.rlsf_base.specs.UnitPayload.{AreCompleteUnits, IsUnitPointer};

use super::block::{Base, Units};
use super::ledger::{Ledger, Ticket};
use super::open_memory::OpenMemory;
use super::part::Part;
use std::marker::{Model, PhantomData};

/// A payload of complete units of 16 bytes that left a memory, by a pointer to it. Its first `kept` bytes stay with their owner, so that it
/// can grow or shrink in place. It owns the room of the units behind them, which is aligned to 16, and the ticket for the complete payload.
/// It takes two words: its address is that of the ticket, which takes no space.
pub struct UnitPayload {
    /// Points to the first byte.
    pub ptr: *mut u8,
    /// The number of bytes, a multiple of 16.
    pub len: usize,
    pub ghost home: { Home },
    pub ghost name: { ℕ },
    pub ghost key: { ℕ },
    pub ghost start: { ℕ },
    pub ghost kept: { ℕ },
    pub ghost placed: { IsUnitPointer home ptr start len },
    pub ghost within: { AreCompleteUnits kept len },
}

impl Model for UnitPayload {
    ghost use Rattle.rlsf_base.specs.UnitPayload.{unit_payload_owns};

    ghost also_owns = { λ p. unit_payload_owns p.name p.key p.start p.ptr p.len p.kept };
}

// Where the units are, and how many bytes the payload has. It owns nothing.
#[derive(Clone, Copy)]
struct Spot {
    ptr: *mut u8,
    len: usize,
}

impl UnitPayload {
    /// Returns where the units behind the first `kept` bytes are, these units, and the ticket.
    fn into_parts(self, kept: usize) -> (Spot, Units, Ticket)
        requires { kept ≡ self.kept }
        ensures { IsSpotAt result.1 self.len result.0 × AreUnitsAt self.home self.start self.len self.kept result.1 × IsTicketFor self.name self.key self.start self.len result.2 }
    {
        let UnitPayload { ptr, len } = self;
        let ptr = unsafe { ptr.add(kept) };
        (
            Spot { ptr, len },
            Units { mark: PhantomData },
            Ticket { mark: PhantomData },
        )
    }
}

impl Part {
    /// Consumes the part and a ticket for it, and returns a payload of its units of 16 bytes. Values that its bytes have are
    /// lost.
    ///
    /// The part must begin and end at multiples of 16, in a memory that has units.
    #[inline(always)]
    pub fn into_unit_payload(self, ticket: Ticket) -> UnitPayload
        requires units { IsUnits (piece_range self) }
        requires aligned { self.home.view.shift % 16 ≡ 0 }
        requires ticket { (ticket.addr ≡ self.start) × (ticket.len ≡ length self.bytes) × (ticket.align ≡ 16) }
        ensures place { (result.home ≡ self.home) × (result.start ≡ self.start) × (result.len ≡ length self.bytes) × (result.kept ≡ 0) }
        ensures ticket { (result.name ≡ ticket.name) × (result.key ≡ ticket.key) }
    {
        let (view, range) = (self.view, self.range);
        let mut bytes = self.into_bytes();
        let place = view.place(range.start);
        let units = bytes.take_units(place / 16, range.len / 16);
        bytes.end();
        ticket.with_units(view, place, range.len, units)
    }
}

impl OpenMemory {
    /// Returns whether the memory has units of 16 bytes: whether its block is the system's, or begins at a multiple of 16.
    pub fn has_units(&self) -> bool
        ensures { IsTrue result ↔ HasUnits self.now }
    {
        self.shift % 16 == 0
    }

    /// Puts the units of a payload behind its first `kept` bytes back, redeems its ticket, and returns the word that lies `behind` bytes
    /// past the payload's end. These units are then raw; the bytes before them stay out. Counts one touch. Nothing else changes.
    ///
    /// The payload must come from this memory, with a ticket of `ledger`. The word must be here. `behind` is a multiple of 8.
    #[inline(always)]
    pub fn put_unit_payload(
        &mut self,
        ledger: &mut Ledger,
        payload: UnitPayload,
        kept: usize,
        behind: usize,
    ) -> u64
        requires home { payload.home ≡ home_of self.old }
        requires name { payload.name ≡ ledger.old.name }
        requires kept { kept ≡ payload.kept }
        requires readable { IsIssued ledger.old.entries payload.key (extent payload.start payload.len 16) → IsReadable self.old (payload.start + (payload.len + behind)) }
        ensures issued { IsIssued ledger.old.entries payload.key (extent payload.start payload.len 16) }
        ensures ledger { (ledger.new.name ≡ ledger.old.name) × (ledger.new.entries ≡ set ledger.old.entries payload.key (entry_of (extent payload.start payload.len 16) false)) }
        ensures word { result ≡ word_at self.old (payload.start + (payload.len + behind)) }
        ensures away { IsAway self.old (range_at (payload.start + payload.kept) (payload.len - payload.kept)) }
        ensures memory { IsSpaceWith self.old self.new self.old.bytes (out_raw self.old (range_at (payload.start + payload.kept) (payload.len - payload.kept))) }
        ensures counts { (self.new.touches ≡ self.old.touches + 1) × (self.new.copied ≡ self.old.copied) }
    {
        let (spot, units, ticket) = payload.into_parts(kept);
        ledger.redeem(ticket);
        let from = Base::at(spot.ptr);
        let word = word_of(
            self.bytes
                .slice_ahead(from, &units, spot.len - kept + behind, 8),
        );
        self.touch();
        self.bytes.put_units(units);
        word
    }

    /// Takes the units of the `len` bytes at `start` out of the memory but for the first `kept` bytes, and returns them as a payload with
    /// the ticket for all of these bytes. Their bytes may be raw. Nothing else changes.
    ///
    /// The memory must have units. The bytes must lie in it, and begin, end and be parted at multiples of 16. None of those behind the
    /// first `kept` may be out.
    #[inline(always)]
    pub fn take_unit_payload(
        &mut self,
        ticket: Ticket,
        start: usize,
        len: usize,
        kept: usize,
    ) -> UnitPayload
        requires place { LiesIn (range_at start len) self.old.start (length self.old.bytes) }
        requires units { (start % 16 ≡ 0) × (len % 16 ≡ 0) }
        requires kept { AreCompleteUnits kept len }
        requires aligned { HasUnits self.old }
        requires own { IsOwned self.old (range_at (start + kept) (len - kept)) }
        requires ticket { (ticket.addr ≡ start) × (ticket.len ≡ len) × (ticket.align ≡ 16) }
        ensures place { (result.home ≡ home_of self.old) × (result.start ≡ start) × (result.len ≡ len) × (result.kept ≡ kept) }
        ensures ticket { (result.name ≡ ticket.name) × (result.key ≡ ticket.key) }
        ensures memory { IsSpaceWith self.old self.new self.old.bytes (out_without self.old (range_at (start + kept) (len - kept))) }
        ensures counts { CountsNothing self.old self.new }
    {
        let view = self.view();
        let place = view.place(start);
        let units = self
            .bytes
            .take_units((place + kept) / 16, (len - kept) / 16);
        ticket.with_units(view, place, len, units)
    }
}

// Returns the word of eight bytes, the least significant byte first.
#[inline(always)]
fn word_of(bytes: &[u8]) -> u64
    requires { length bytes.now ≡ 8 }
    ensures { result ≡ from_le_bytes w64 bytes.now }
{
    match bytes.first_chunk::<8>() {
        Some(chunk) => u64::from_le_bytes(*chunk),
        None => 0,
    }
}
