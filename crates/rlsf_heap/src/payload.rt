//! Payloads that left the memory of a heap.
ghost use Rattle.std.specs.Prelude.{◌≡◌, ◌≢◌, ◌-◌, ◌≤◌, ◌++◌, ℕ, List, length, replicate, take};
ghost use Rattle.std.specs.Borrow.{sem};
ghost use Rattle.rlsf_base.specs.Changes.{AreBytesHere};
ghost use Rattle.rlsf_heap.specs.Heap.{IsWritten};
ghost use Rattle.rlsf_heap.specs.Lends.{IsRewritten};

use rlsf_base::memory::Part;
use rlsf_base::memory::ledger::Ticket;
use std::marker::Model;

/// A payload that left the memory of its heap. It owns its bytes, and the right to deallocate them.
///
/// Each byte is here, with a value, or raw, without one. `deallocate` of its heap takes it back. It is `Send` and `Sync`,
/// so it can cross to another thread. Dropping a payload leaks it: it stays live, and its bytes are never deallocated.
pub struct Payload {
    pub(crate) part: Part,
    pub(crate) align: usize,
    pub(crate) ticket: Ticket,
}

impl Model for Payload {
    ghost use Rattle.std.specs.Prelude.{◌≢◌};
    ghost use Rattle.rlsf_base.specs.Ledger.{extent};
    ghost use Rattle.rlsf_heap.specs.Heap.{PayloadView, payload_view, IsTicketOf};

    ghost Value = { PayloadView };

    ghost view = { λ p. payload_view p.part p.align p.ticket.name };

    ghost invariant = { λ p. IsTicketOf p.part p.align (extent p.ticket.addr p.ticket.len p.ticket.align) × (p.part.start ≢ 0) };
}

impl Drop for Payload {
    fn drop(self) {
        let _ = self.into_parts();
    }
}

impl Payload {
    ghost use Rattle.rlsf_base.specs.Ledger.{extent};
    ghost use Rattle.rlsf_heap.specs.Heap.{payload_view, IsTicketOf};
    ghost use Rattle.rlsf_heap.specs.Lends.{LendsPayload, rewritten};

    // Consumes the payload and returns its part and its ticket. Only a method can take a payload apart.
    #[inline(always)]
    pub(crate) fn into_parts(self) -> (Part, Ticket)
        ensures parts { payload_view result.0 self.align result.1.name ≡ self }
        ensures ticket { IsTicketOf result.0 self.align (extent result.1.addr result.1.len result.1.align) }
        ensures some { result.0.start ≢ 0 }
    {
        let Payload {
            part,
            align: _,
            ticket,
        } = self;
        (part, ticket)
    }

    /// Returns the address of the first byte.
    ///
    /// Completes in constant time.
    pub fn addr(&self) -> usize
        ensures { result ≡ self.now.start }
    {
        self.part.start()
    }

    /// Returns the number of bytes. All of them may be used.
    ///
    /// Completes in constant time.
    pub fn len(&self) -> usize
        ensures { result ≡ length self.now.bytes }
    {
        self.part.len()
    }

    /// Returns the alignment that was requested. The address is a multiple of it.
    ///
    /// Completes in constant time.
    pub fn align(&self) -> usize
        ensures { result ≡ self.now.align }
    {
        self.align
    }

    /// Returns the bytes. None may be raw.
    ///
    /// Completes in constant time.
    ///
    /// From `crates/rlsf_example_tenants/src/pair.rt`:
    ///
    /// ```
    /// let first = longer(heap, first, 1000);
    /// let bytes = [first.as_slice()[0], second.as_slice()[0]];
    /// ```
    pub fn as_slice(&self) -> &[u8]
        requires { IsWritten self.now }
        ensures { result.now ≡ self.now.bytes }
    {
        self.part.as_slice()
    }

    /// Returns the bytes, for reading and writing. None may be raw. When the borrow ends, the payload has the bytes that
    /// were written. Nothing else changes.
    ///
    /// Completes in constant time.
    ///
    /// From `crates/rlsf_example_tenants/src/pair.rt`:
    ///
    /// ```
    /// mark(first.as_mut_slice(), second.as_mut_slice());
    /// ```
    pub fn as_mut_slice(&mut self) -> &mut [u8]
        requires { IsWritten self.old }
        ensures* writes_back { sem 𝓛 (LendsPayload self.entry result) }
        ensures value { result.now ≡ self.old.bytes }
        ensures filled { (w : List ℕ) → length w ≡ length result.now → (rewritten self.old w).bytes ≡ w }
        ensures left { (w : List ℕ) → IsRewritten self.old (rewritten self.old w) }
    {
        self.part.as_mut_slice()
    }

    /// Writes `value` to each byte. Then none is raw. Nothing else changes.
    ///
    /// Takes time proportional to the length. No word access is counted.
    ///
    /// From `crates/rlsf_test_heap/src/growing.rt`:
    ///
    /// ```
    /// let mut payload = heap.allocate(layout)?;
    /// payload.fill(7);
    /// ```
    pub fn fill(&mut self, value: u8)
        ensures bytes { self.new.bytes ≡ replicate (length self.old.bytes) value }
        ensures written { IsWritten self.new }
        ensures identity { self.new.identity ≡ self.old.identity }
        ensures start { self.new.start ≡ self.old.start }
        ensures align { self.new.align ≡ self.old.align }
    {
        self.part.fill(value);
    }

    /// Writes `value` to each byte from index `from` on. Then none is raw. Nothing else changes.
    ///
    /// None of the bytes before `from` may be raw, and `from` may be at most the length.
    ///
    /// Takes time proportional to the number of written bytes. No word access is counted.
    pub fn fill_from(&mut self, from: usize, value: u8)
        requires place { from ≤ length self.old.bytes }
        requires kept { AreBytesHere self.old.out 0 from }
        ensures bytes { self.new.bytes ≡ take from self.old.bytes ++ replicate (length self.old.bytes - from) value }
        ensures written { IsWritten self.new }
        ensures identity { self.new.identity ≡ self.old.identity }
        ensures start { self.new.start ≡ self.old.start }
        ensures align { self.new.align ≡ self.old.align }
    {
        self.part.fill_from(from, value);
    }
}

// Takes only values that are `Send`.
fn crosses<T: Send>(value: T) -> T
    ensures { result ≡ value }
{
    value
}

// That this call is proved shows that a payload is `Send`.
fn crossed(payload: Payload) -> Payload
    ensures { result ≡ payload }
{
    crosses(payload)
}
