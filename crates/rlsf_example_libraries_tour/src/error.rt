//! What ends the tour early.

use rlsf::{LayoutError, MemoryError};
use rlsf_example_libraries::LongestError;
use std::alloc::AllocError;
use std::error::Error;
use std::{fmt, io};

/// Why the tour ended early.
#[derive(Debug, Drop)]
pub(crate) enum TourError {
    /// No memory has such addresses, or the system is out of memory.
    Memory(MemoryError),
    /// No layout has such a size and such an alignment.
    Layout,
    /// Out of memory.
    OutOfMemory,
    /// The pool has no room.
    NoRoom,
    /// The memory isn't sure to have room for so many messages of that length.
    MemoryTooShort,
    /// The output could not be written.
    Io(io::Error),
}

impl fmt::Display for TourError {
    fn fmt<W: fmt::Write>(&self, f: &mut fmt::Formatter<W>) -> fmt::Result {
        match self {
            TourError::Memory(error) => write!(f, "no memory: {error:?}"),
            TourError::Layout => f.write_str("no such layout"),
            TourError::OutOfMemory => f.write_str("the system refused memory"),
            TourError::NoRoom => f.write_str("the pool has no room"),
            TourError::MemoryTooShort => f.write_str("the memory of a queue is too short"),
            TourError::Io(error) => fmt::Display::fmt(error, f),
        }
    }
}

impl Error for TourError {}

impl From<MemoryError> for TourError {
    fn from(error: MemoryError) -> TourError {
        TourError::Memory(error)
    }
}

impl From<LayoutError> for TourError {
    fn from(_error: LayoutError) -> TourError {
        TourError::Layout
    }
}

impl From<AllocError> for TourError {
    fn from(_refused: AllocError) -> TourError {
        TourError::OutOfMemory
    }
}

impl From<LongestError> for TourError {
    fn from(error: LongestError) -> TourError {
        match error {
            LongestError::MemoryTooShort => TourError::MemoryTooShort,
            LongestError::OutOfMemory => TourError::OutOfMemory,
        }
    }
}

impl From<io::Error> for TourError {
    fn from(error: io::Error) -> TourError {
        TourError::Io(error)
    }
}
