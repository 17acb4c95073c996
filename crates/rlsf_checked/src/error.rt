//! The errors of the checked allocator.

/// Why a call was refused. Each error has a number. If more than one applies, the call returns the first of them in this order, but
/// `OutOfMemory` of `insert` comes after `NotBehind`.
#[derive(Clone, Copy, Debug, PartialEq, Eq)]
pub enum CheckedError {
    /// The numbers of first-level rows and of classes in a row are not valid for the bitmaps.
    InvalidClasses = 1,
    /// The system is out of memory for the marks or for the list of pools.
    OutOfMemory = 2,
    /// No payload is live at the address.
    UnknownAddress = 3,
    /// The bytes go past the usable ones.
    OutOfRange = 4,
    /// The range doesn't lie in the memory.
    OutsideMemory = 5,
    /// The range begins before the end of the last pool.
    NotBehind = 6,
    /// The range doesn't begin at the end of the last pool.
    NotNext = 7,
    /// No chunk can be made of the range.
    TooShort = 8,
    /// No layout has this size and the alignment of the payload.
    NoLayout = 9,
    /// There is no room.
    NoRoom = 10,
    /// A block of the range is used. The numbers between are those of the library for C.
    InUse = 15,
    /// The range isn't a pool.
    NotChunks = 16,
}
