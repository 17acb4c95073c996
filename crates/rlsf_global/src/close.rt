//! The results of closing a book.

use crate::entry::Entry;
use rlsf_base::memory::{Addr, Layout};

/// The result of closing a book: its journal, and the live addresses at its end.
#[derive(Drop)]
pub struct Closed {
    /// The entries, in the order of their calls.
    pub journal: Vec<Entry>,
    /// The live addresses with their last layouts, in the order of the addresses.
    pub live: Vec<(Addr, Layout)>,
}

/// Why a book wasn't closed. Each error has a number. `StrangePass` is tested first, then `MissingPass`, then `Mismatch`.
#[derive(Clone, Copy, Debug, PartialEq, Eq)]
pub enum CloseError {
    /// A number below the bound has no pass.
    MissingPass = 1,
    /// A pass has a number that isn't below the bound, or the number of another pass.
    StrangePass = 2,
    /// The entries of some caller aren't exactly the receipts of its pass in their order, or the caller of an entry isn't below the bound.
    Mismatch = 3,
}
