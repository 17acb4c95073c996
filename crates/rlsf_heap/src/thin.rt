//! Payloads by their address alone: what a caller that holds a pointer has of them. `thin_calls.rt` and `thin_reallocation.rt`
//! have the calls on them.
ghost use Rattle.std.specs.Prelude.{◌≡◌, ◌≢◌, ℕ, List, length};
ghost use Rattle.std.specs.Borrow.{sem};
ghost use Rattle.rlsf_base.specs.Ledger.{extent, IsIssued};
ghost use Rattle.rlsf_heap.specs.Heap.{Identity, IsTicketOf, IsWritten, PayloadView, payload_view};
ghost use Rattle.rlsf_heap.specs.Raw.{bytes_of, CanComeBack};
ghost use Rattle.rlsf_heap.specs.Thin.{owns_bytes, owns_reply, written_payload};
ghost use Rattle.rlsf_heap.specs.ThinInPlace.{LendsBytes};

use crate::payload::Payload;
use rlsf_base::memory::ledger::{Ledger, Ticket};
use rlsf_base::memory::{Part, ThinBytes};
use std::marker::{Model, PhantomData};

/// A payload by its address, or none, where the address is 0. It owns the payload's bytes, and the right to deallocate them. It
/// takes one word: its heap, its bytes and its alignment are known to the prover alone (`of`).
///
/// Dropping a payload leaks it: it stays live, and its bytes are never deallocated.
pub struct ThinPayload {
    /// The address, or 0.
    pub addr: usize,
    pub ghost of: { PayloadView },
}

impl Model for ThinPayload {
    ghost also_owns = { λ p. owns_reply p.of };
}

impl Drop for ThinPayload {
    fn drop(self) {
        let ThinPayload { addr: _ } = self;
    }
}

impl ThinPayload {
    /// Returns no payload.
    ///
    /// Completes in constant time.
    pub fn none() -> ThinPayload
        ensures { (result.addr ≡ 0) × (result.of.start ≡ 0) }
    {
        ThinPayload { addr: 0 }
    }

    // The payload of this part and the ticket for it.
    pub(crate) fn from_parts(addr: usize, part: Part, ticket: Ticket) -> ThinPayload
        requires { (part.start ≡ addr) × (addr ≢ 0) × IsTicketOf part ticket.align (extent ticket.addr ticket.len ticket.align) }
        ensures { (result.addr ≡ addr) × (result.of ≡ payload_view part ticket.align ticket.name) }
    {
        part.into_raw();
        ticket.into_raw();
        ThinPayload { addr }
    }

    // Consumes the payload and returns its bytes and its ticket.
    pub(crate) unsafe fn into_parts(self) -> (ThinBytes, Ticket)
        requires { self.of.start ≢ 0 }
        ensures bytes { (result.0.piece ≡ bytes_of self.of) × CanComeBack self.of }
        ensures ticket { (result.1.name ≡ self.of.identity.ledger) × (result.1.addr ≡ self.of.start) × (result.1.len ≡ length self.of.bytes) × (result.1.align ≡ self.of.align) }
    {
        let ThinPayload { addr: _ } = self;
        let ticket = Ticket::from_raw();
        (ThinBytes { mark: PhantomData }, ticket)
    }

    // Returns the payload unchanged. Its ticket is one of the ledger, which has a live entry for it.
    pub(crate) fn checked(self, ledger: &mut Ledger) -> ThinPayload
        requires { (self.of.start ≢ 0) × (self.of.identity.ledger ≡ ledger.old.name) }
        ensures payload { (result.addr ≡ self.addr) × (result.of ≡ self.of) }
        ensures ledger { ledger.new ≡ ledger.old }
        ensures issued { (k : ℕ) × IsIssued ledger.old.entries k (extent self.of.start (length self.of.bytes) self.of.align) }
    {
        self
    }

    /// Returns the payload, which has no raw byte, as one with these values. It does nothing: its contract states that its owner
    /// owns the values (`owns_bytes`).
    pub fn with_values(self) -> ThinPayload
        requires { IsWritten self.of }
        ensures { (result.addr ≡ self.addr) × (result.of ≡ written_payload self.of.identity self.of.start self.of.bytes self.of.align) }
    {
        let ThinPayload { addr } = self;
        ThinPayload { addr }
    }

    /// Lends the bytes of a payload with values to its owner, who owns the payload by `into_raw`: they lie at their pointer, and may be
    /// read and written there. With other bytes of the same number, the owner owns the payload with those. It does nothing: its
    /// contract states this law.
    ///
    /// # Safety
    ///
    /// The caller must own the payload, whose address isn't 0.
    pub unsafe fn lend_bytes()
        ghost of: { Identity × ℕ × List ℕ × ℕ }
        requires* { sem 𝓛 (owns_bytes of.0 of.1 of.2 of.3) ∗ ⌜ of.1 ≢ 0 ⌝ }
        ensures* { sem 𝓛 (LendsBytes of.0 of.1 of.2 of.3) }
    {}

    /// Returns the address of the payload, or 0, and the payload unchanged.
    ///
    /// Completes in constant time.
    pub fn with_addr(self) -> (usize, ThinPayload)
        ensures addr { result.0 ≡ self.addr }
        ensures payload { (result.1.addr ≡ self.addr) × (result.1.of ≡ self.of) }
    {
        let ThinPayload { addr } = self;
        (addr, ThinPayload { addr })
    }

    /// Consumes the payload and returns its address. What it owns is the caller's from now on: the payload's bytes, and the right
    /// to deallocate them.
    ///
    /// Completes in constant time.
    pub fn into_raw(self) -> usize
        ensures* handed { sem 𝓛 (owns_reply self.of) }
        ensures addr { result ≡ self.addr }
    {
        let ThinPayload { addr } = self;
        addr
    }

    /// Makes a payload of what `into_raw` passed to the caller.
    ///
    /// Completes in constant time.
    ///
    /// # Safety
    ///
    /// The caller must own what the payload owned, and gives it up.
    pub unsafe fn from_raw(addr: usize) -> ThinPayload
        ghost of: { PayloadView }
        requires* { sem 𝓛 (owns_reply of) }
        ensures { (result.addr ≡ addr) × (result.of ≡ of) }
    {
        ThinPayload { addr }
    }
}

impl Payload {
    /// Consumes the payload and returns it by its address, which isn't 0. `into_raw` of this returns the address as a number, which a
    /// foreign structure can keep.
    ///
    /// Completes in constant time.
    pub fn into_thin(self) -> ThinPayload
        ensures { (result.addr ≡ self.start) × (result.of ≡ self) × (self.start ≢ 0) }
    {
        let (part, ticket) = self.into_parts();
        let addr = part.start();
        ThinPayload::from_parts(addr, part, ticket)
    }
}
