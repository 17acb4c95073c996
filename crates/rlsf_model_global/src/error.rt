//! Refusals.

/// The reason why a call of the allocator behind the lock was refused. Each error has a number. If more than one holds, a call returns
/// `JournalMemory` first, then `UnknownAddress`, `WrongLayout`, `OutOfRange`, `TableMemory` and `NoRoom`.
#[derive(Clone, Copy, Debug, PartialEq, Eq)]
pub enum GlobalError {
    /// There is no room, and no memory came.
    NoRoom = 1,
    /// The address isn't live.
    UnknownAddress = 2,
    /// The layout isn't the one that was last requested for the address.
    WrongLayout = 3,
    /// The system is out of memory for the table of live addresses or, with a journal, for the list that `close` returns.
    TableMemory = 4,
    /// The bytes go past the usable ones.
    OutOfRange = 5,
    /// The system is out of memory for the journal, a receipt or the passes.
    JournalMemory = 6,
}
