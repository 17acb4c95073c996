//! Payloads leave the memory of a heap with a ticket, and come back.
ghost use Rattle.std.specs.Prelude.{◌≡◌, ◌≢◌, ◌++◌, ◌∷◌, [], length, true};
ghost use Rattle.rlsf_base.specs.Ledger.{entry_of, extent};
ghost use Rattle.rlsf_base.specs.OpenSpace.{home_of, IsOwned};
ghost use Rattle.rlsf_base.specs.Range.{LiesIn};
ghost use Rattle.rlsf_heap.specs.Handover.{IsHandedOver, IsTakenBack};
ghost use Rattle.rlsf_heap.specs.Heap.{IsWritten, payload_view};
ghost use Rattle.rlsf_heap.specs.Renewed.{IsRedeemed};

use crate::payload::Payload;
use rlsf_base::memory::ledger::Ledger;
use rlsf_base::memory::{OpenMemory, Part, Range};

impl Payload {
    // Takes the bytes of `range` out of the memory, and issues a ticket for them. No byte of it may be out.
    #[inline(always)]
    pub(crate) fn hand_over(
        memory: &mut OpenMemory,
        ledger: &mut Ledger,
        range: Range,
        align: usize,
    ) -> Payload
        requires place { LiesIn range memory.old.start (length memory.old.bytes) }
        requires own { IsOwned memory.old range }
        ensures over { IsHandedOver memory.old memory.new range align ledger.old.name ledger.old.entries ledger.new.entries result }
        ensures name { ledger.new.name ≡ ledger.old.name }
    {
        // By this call it is known that no address of the memory is 0.
        let _ = memory.start();
        let part = memory.take_out(range);
        Payload::issued(part, align, ledger)
    }

    // Puts the bytes of the payload, which must be here, back into its memory, and redeems its ticket.
    #[inline(always)]
    pub(crate) fn take_back(self, memory: &mut OpenMemory, ledger: &mut Ledger)
        requires home { self.identity.home ≡ home_of memory.old }
        requires issuer { self.identity.ledger ≡ ledger.old.name }
        requires written { IsWritten self }
        ensures back { IsTakenBack memory.old memory.new ledger.old.entries ledger.new.entries self }
        ensures name { ledger.new.name ≡ ledger.old.name }
    {
        let (part, _) = self.redeemed(ledger);
        memory.put_back(part);
    }

    // Redeems the payload's ticket. Returns its bytes and its alignment.
    #[inline(always)]
    pub(crate) fn redeemed(self, ledger: &mut Ledger) -> (Part, usize)
        requires { self.identity.ledger ≡ ledger.old.name }
        ensures parts { payload_view result.0 result.1 self.identity.ledger ≡ self }
        ensures some { result.0.start ≢ 0 }
        ensures name { ledger.new.name ≡ ledger.old.name }
        ensures entries { IsRedeemed self ledger.old.entries ledger.new.entries }
    {
        let align = self.align();
        let (part, ticket) = self.into_parts();
        ledger.redeem(ticket);
        (part, align)
    }

    // Makes a payload of bytes that have no ticket. Their address isn't 0.
    #[inline(always)]
    pub(crate) fn issued(part: Part, align: usize, ledger: &mut Ledger) -> Payload
        requires { part.start ≢ 0 }
        ensures payload { result ≡ payload_view part align ledger.old.name }
        ensures name { ledger.new.name ≡ ledger.old.name }
        ensures entries { ledger.new.entries ≡ ledger.old.entries ++ entry_of (extent part.start (length part.bytes) align) true ∷ [] }
    {
        let ticket = ledger.issue(part.start(), part.len(), align);
        Payload {
            part,
            align,
            ticket,
        }
    }
}
