//! Tickets for payloads that are out: each shows the address, the length and the alignment of one payload.
ghost use Rattle.std.specs.Prelude.{◌≡◌, ℕ, List, [], ◌∷◌, ◌++◌, length, set, true, false};
ghost use Rattle.std.specs.Borrow.{sem};
ghost use Rattle.rlsf_base.specs.Ledger.{Entry, Extent, entry_of, extent, IsIssued, ledger_owns, ticket_owns};

use super::block::Units;
use super::unit_payload::UnitPayload;
use super::view::View;
use std::marker::{Model, PhantomData, Send, Sync};

/// The list of all tickets that were issued, and which of them are live: not yet redeemed. It takes no space.
///
/// Dropping it changes no ticket that is still out.
pub struct Ledger {
    mark: PhantomData<()>,
    pub ghost name: { ℕ },
    pub ghost entries: { List Entry },
}

impl Model for Ledger {
    ghost also_owns = { λ l. ledger_owns l.name 0 l.entries };
}

/// The proof that a payload is out, at the address, and of the length and alignment, that the ticket was issued for. It
/// can't be copied, and it is `Send` and `Sync`. It takes no space.
///
/// Dropping a ticket leaks it: its entry in the ledger stays live.
pub struct Ticket {
    pub(crate) mark: PhantomData<()>,
    pub ghost name: { ℕ },
    pub ghost key: { ℕ },
    pub ghost addr: { ℕ },
    pub ghost len: { ℕ },
    pub ghost align: { ℕ },
}

impl Model for Ticket {
    ghost also_owns = { λ t. ticket_owns t.name t.key (extent t.addr t.len t.align) };
}

impl Drop for Ledger {
    fn drop(self) {
        let Ledger { mark: _ } = self;
    }
}

impl Drop for Ticket {
    fn drop(self) {
        let Ticket { mark: _ } = self;
    }
}

unsafe impl Send for Ledger {}

unsafe impl Send for Ticket {}

unsafe impl Sync for Ticket {}

impl Ledger {
    /// Creates a ledger that has issued no tickets.
    pub fn new() -> Ledger
        ensures { result.entries ≡ [] }
    {
        Ledger { mark: PhantomData }
    }

    /// Issues a ticket for the payload of `len` bytes at `addr`, of the alignment `align`. Its entry is the last one, and
    /// live. No other entry changes.
    pub fn issue(&mut self, addr: usize, len: usize, align: usize) -> Ticket
        ensures ticket { (result.key ≡ length self.old.entries) × (result.addr ≡ addr) × (result.len ≡ len) × (result.align ≡ align) }
        ensures name { (result.name ≡ self.old.name) × (self.new.name ≡ self.old.name) }
        ensures entries { self.new.entries ≡ self.old.entries ++ entry_of (extent addr len align) true ∷ [] }
    {
        Ticket { mark: PhantomData }
    }

    /// Consumes a ticket of this ledger. Its entry was live, with what the ticket shows, and is not live any more. No other
    /// entry changes.
    pub fn redeem(&mut self, ticket: Ticket)
        requires { ticket.name ≡ self.old.name }
        ensures issued { IsIssued self.old.entries ticket.key (extent ticket.addr ticket.len ticket.align) }
        ensures name { self.new.name ≡ self.old.name }
        ensures entries { self.new.entries ≡ set self.old.entries ticket.key (entry_of (extent ticket.addr ticket.len ticket.align) false) }
    {
        ticket.redeem_in(self);
    }
}

impl Ticket {
    // What `redeem` of the ledger does. Only a method of a ticket can take it apart.
    #[inline(always)]
    fn redeem_in(self, ledger: &mut Ledger)
        requires { self.name ≡ ledger.old.name }
        ensures issued { IsIssued ledger.old.entries self.key (extent self.addr self.len self.align) }
        ensures name { ledger.new.name ≡ ledger.old.name }
        ensures entries { ledger.new.entries ≡ set ledger.old.entries self.key (entry_of (extent self.addr self.len self.align) false) }
    {
        let Ticket { mark: _ } = self;
    }

    /// Consumes the ticket. What it owns, its part of its entry, is the caller's from now on.
    pub fn into_raw(self)
        ensures* handed { sem 𝓛 (ticket_owns self.name self.key (extent self.addr self.len self.align)) }
    {
        let Ticket { mark: _ } = self;
    }

    /// Makes a ticket of what `into_raw` passed to the caller: of the name of the ledger, the ticket's key there, and what
    /// it shows.
    ///
    /// # Safety
    ///
    /// The caller must own what the ticket owned, and gives it up.
    pub unsafe fn from_raw() -> Ticket
        ghost of: { ℕ × ℕ × Extent }
        requires* { sem 𝓛 (ticket_owns of.0 of.1 of.2) }
        ensures ticket { (result.addr ≡ of.2.addr) × (result.len ≡ of.2.len) × (result.align ≡ of.2.align) }
        ensures entry { (result.name ≡ of.0) × (result.key ≡ of.1) }
    {
        Ticket { mark: PhantomData }
    }
}

impl Ticket {
    ghost use Rattle.std.specs.Prelude.{◌+◌, ◌-◌, ◌*◌, ◌≤◌};
    ghost use Rattle.rlsf_base.specs.OpenSpace.{place_in};
    ghost use Rattle.rlsf_base.specs.Piece.{home_from};
    ghost use Rattle.rlsf_base.specs.UnitPayload.{IsUnitPointer, pointer_to};

    // Returns the last units of the `len` bytes at a place of the block, with this ticket for all of these bytes.
    pub(crate) fn with_units(
        self,
        view: View,
        place: usize,
        len: usize,
        units: Units,
    ) -> UnitPayload
        requires units { (units.at ≡ view.base.ptr) × (units.first * 16 + units.count * 16 ≡ place + len) × (units.count * 16 ≤ len) }
        requires ticket { (self.len ≡ len) × (self.align ≡ 16) × (place ≡ place_in view self.addr) }
        requires placed { IsUnitPointer (home_from view units.of) (pointer_to view self.addr) self.addr self.len }
        ensures place { (result.home ≡ home_from view units.of) × (result.start ≡ self.addr) × (result.len ≡ len) × (result.kept ≡ len - units.count * 16) }
        ensures ticket { (result.name ≡ self.name) × (result.key ≡ self.key) }
    {
        let Ticket { mark: _ } = self;
        let Units { mark: _ } = units;
        let ptr = unsafe { view.base.ptr.add(place) };
        UnitPayload { ptr, len }
    }
}
