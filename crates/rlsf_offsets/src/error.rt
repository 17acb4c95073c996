//! The errors of the checked form.

/// Why a call was refused. If more than one applies, the call returns the first of them in this order.
#[derive(Clone, Copy, Debug, PartialEq, Eq)]
pub enum OffsetError {
    /// The unit isn't a power of two.
    BadUnit,
    /// The alignment isn't a power of two.
    BadAlign,
    /// No range is live at the offset.
    UnknownOffset,
    /// The space has fewer bytes or, where it grows, can't have as many.
    TooLong,
    /// The space has more units.
    TooShort,
    /// There is no room.
    NoRoom,
    /// The system is out of memory.
    OutOfMemory,
}
