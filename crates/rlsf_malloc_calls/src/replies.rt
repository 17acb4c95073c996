//! What the calls return: a payload, which is the caller's from now on, and a number.

ghost use Rattle.std.specs.Borrow.{sem};
ghost use Rattle.std.specs.Prelude.{◌≡◌};
ghost use Rattle.rlsf_heap.specs.Loans.{owns_loan};
ghost use Rattle.rlsf_heap.specs.Thin.{owns_reply};
ghost use Rattle.rlsf_malloc_calls.specs.Replies.{reply_number};

use rlsf_heap::{Loan, ThinPayload};

/// A payload, or none, and a number: its length, or its address if its size was changed, else 0.
pub struct Reply {
    /// The number.
    pub number: usize,
    /// The payload, or none.
    pub payload: ThinPayload,
}

impl Reply {
    /// Returns a payload whose size was changed, with its address.
    pub(crate) fn changed(payload: ThinPayload) -> Reply
        ensures { (reply_number result ≡ payload.addr) × (result.payload.of ≡ payload.of) }
    {
        let (number, payload) = payload.with_addr();
        Reply { number, payload }
    }

    /// Passes the payload to the caller, and returns the number.
    pub fn into_raw(self) -> usize
        ensures* handed { sem 𝓛 (owns_reply self.payload.of) }
        ensures number { result ≡ reply_number self }
    {
        let Reply { number, payload } = self;
        let _ = payload.into_raw();
        number
    }
}

/// Bytes that are the caller's again, or none, and a number.
pub struct Lending {
    /// The number.
    pub number: usize,
    /// The bytes.
    pub loan: Loan,
}

impl Lending {
    /// Passes the bytes to the caller, and returns the number.
    pub fn into_raw(self) -> usize
        ensures* handed { sem 𝓛 (owns_loan self.loan.of) }
        ensures number { result ≡ self.number }
    {
        let Lending { number, loan } = self;
        let _ = loan.into_raw();
        number
    }
}
