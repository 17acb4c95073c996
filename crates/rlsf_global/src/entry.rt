//! Placement calls, their replies, and the entries and receipts that record them.

use rlsf_base::memory::{Addr, Layout};

/// A placement call.
#[derive(Clone, Copy, Debug, PartialEq, Eq)]
pub enum Call {
    /// Allocates a payload for a layout.
    Allocate(Layout),
    /// Deallocates the payload at the address.
    Deallocate(Addr),
    /// Gives the payload at the address another layout.
    Reallocate(Addr, Layout),
}

/// The reply to a placement call.
#[derive(Clone, Copy, Debug, PartialEq, Eq)]
pub enum Reply {
    /// The payload is at the address.
    Placed(Addr),
    /// The payload was deallocated.
    Freed,
    /// There is no room, and no memory came. Nothing changed.
    NoRoom,
    /// The address isn't live. Nothing changed.
    UnknownAddress,
    /// The system is out of memory for the codes of the table of live addresses, or for the list of these that closing returns. Nothing
    /// changed, and no entry of the journal was made.
    TableMemory,
    /// The system is out of memory for an entry or a receipt. Nothing changed, and no entry was made.
    JournalMemory,
}

/// An entry of the journal: a caller, its call and the reply.
#[derive(Clone, Copy, Debug, PartialEq, Eq)]
pub struct Entry {
    /// The caller's number.
    pub caller: usize,
    /// The call.
    pub call: Call,
    /// The reply to the call.
    pub reply: Reply,
}

/// A caller's record of one of its calls.
#[derive(Clone, Copy, Debug, PartialEq, Eq)]
pub struct Receipt {
    /// The entry's place in the journal, from 0.
    pub number: usize,
    /// The call.
    pub call: Call,
    /// The reply to the call.
    pub reply: Reply,
}
