//! What is true of any two payloads that are out at the same time.
ghost use Rattle.std.specs.Prelude.{◌≡◌, ◌≢◌};
ghost use Rattle.rlsf_base.specs.Range.{AreApart};
ghost use Rattle.rlsf_heap.specs.Heap.{payload_range};
ghost use Rattle.rlsf_heap.specs.Replies.{IsOut};

use crate::heap::Heap;
use crate::payload::Payload;
use rlsf_int::BitPattern;

impl<FLBitmap: BitPattern, SLBitmap: BitPattern, const FLLEN: usize, const SLLEN: usize> Heap<
    FLBitmap,
    SLBitmap,
    FLLEN,
    SLLEN,
> {
    /// Returns two payloads unchanged, and does nothing. Its contract states the laws of payloads that are out at the same
    /// time, so that a check proves them:
    ///
    /// - Their addresses differ, and they have no byte in common.
    /// - Each is live, with its alignment, and as long as the state says.
    /// - The address of each is a multiple of its alignment.
    /// - The bytes of each lie in one chunk, behind 16 or more bytes of it and before its sentinel.
    ///
    /// Both must be payloads of this heap.
    pub fn apart(&mut self, first: Payload, second: Payload) -> (Payload, Payload)
        requires first { first.identity ≡ self.old.identity }
        requires second { second.identity ≡ self.old.identity }
        ensures heap { self.new ≡ self.old }
        ensures payloads { (result.0 ≡ first) × (result.1 ≡ second) }
        ensures differ { first.start ≢ second.start }
        ensures apart { AreApart (payload_range first) (payload_range second) }
        ensures first { IsOut self.old.state first }
        ensures second { IsOut self.old.state second }
    {
        let (part, align) = first.redeemed(&mut self.ledger);
        let (other, wide) = second.redeemed(&mut self.ledger);
        let first = Payload::issued(part, align, &mut self.ledger);
        let second = Payload::issued(other, wide, &mut self.ledger);
        (first, second)
    }
}
