//! The receipts of one caller.

ghost use Rattle.std.specs.Prelude.{◌≡◌};

use crate::entry::Receipt;
use std::marker::Model;

/// A caller's number, and a receipt of each of its calls. It can't be copied, so no two callers of a `Journaled` have the same number.
#[derive(Drop)]
pub struct Pass {
    pub(crate) caller: usize,
    pub(crate) receipts: Vec<Receipt>,
}

impl Model for Pass {
    ghost use Rattle.rlsf_global.specs.Journal.Passes.{PassContents};

    ghost Value = { PassContents };

    ghost view = { λ p. record { caller = p.caller; receipts = p.receipts.items } };
}

impl Pass {
    /// Returns the caller's number.
    ///
    /// Completes in constant time.
    pub fn caller(&self) -> usize
        ensures { result ≡ self.now.caller }
    {
        self.caller
    }

    /// Returns a receipt of each call that has an entry, in the order of the calls. A call for which the system is out of memory has none.
    ///
    /// Completes in constant time.
    pub fn receipts(&self) -> &[Receipt]
        ensures { result.now ≡ self.now.receipts }
    {
        &self.receipts
    }
}
