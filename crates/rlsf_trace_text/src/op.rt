//! The ops of a trace and their answers.

use rlsf_base::memory::{Addr, Layout, Range};
use std::fmt;
use std::num::NonZeroUsize;

/// One op of a trace. The names of payloads are numbers of 64 bits.
#[derive(Clone, Copy, Debug, PartialEq, Eq)]
pub enum Op {
    /// Gives the allocator the range as a pool.
    Insert(Range),
    /// Gives the allocator the range, which begins where a pool ends, to lengthen that pool.
    Append(Range),
    /// Allocates a payload with the layout, and names it.
    Alloc(usize, Layout),
    /// Gives the payload of this name back. The name is free again.
    Free(usize),
    /// Gives the payload of this name back without telling its alignment. The name is free again.
    FreeUnknown(usize),
    /// Gives the payload of this name another size, with the alignment that it was allocated with.
    Realloc(usize, usize),
    /// Resizes the payload of this name in place, with the alignment of its allocation.
    ReallocNoMove(usize, usize),
    /// Sets every usable byte of the payload to the byte.
    Fill(usize, u8),
    /// Sets the byte at an offset of the payload.
    Put(usize, usize, u8),
    /// Reads the byte at an offset of the payload.
    Get(usize, usize),
    /// Asks how many bytes of the payload of this name are usable.
    Usable(usize),
    /// Asks for the block at an index, from 0, of the pool that is the range.
    Block(Range, usize),
    /// Returns the newest ranges without a payload to the source. The text of traces has no line for it.
    Trim,
}

/// What an op of a trace answers.
#[derive(Clone, Copy, Debug, PartialEq, Eq)]
pub enum Answer {
    /// The number of bytes from the range's start to the end of its pool, with those that were skipped in front. None if the range
    /// is too short for a pool.
    Inserted(Option<NonZeroUsize>),
    /// How many bytes of the range the pool took.
    Appended(usize),
    /// The address of the payload, or that there was no room for it.
    Placed(Option<Addr>),
    /// The op was done, and has no other answer.
    Done,
    /// The byte that was read.
    Byte(u8),
    /// How many bytes of the payload are usable.
    Usable(usize),
    /// The block's range with its header, and whether it is used; none past the last one.
    Block(Option<(Range, bool)>),
    /// How many ranges returned to the source.
    Trimmed(usize),
    /// The op was refused, and changed nothing.
    Refused(TraceError),
}

/// Why an op of a trace is refused. Each error has a number, which printed answers show.
#[derive(Clone, Copy, Debug, PartialEq, Eq)]
pub enum TraceError {
    /// No live payload has the name.
    UnknownName = 1,
    /// The name of a new payload is that of a live one.
    NameTaken = 2,
    /// The range doesn't lie in the memory. An op that inserts or appends it is also refused if it overlaps a pool. An append is
    /// also refused if no pool ends where the range begins. A `block` is also refused if the range isn't one pool: from its start
    /// rounded up to 32, to its end.
    BadRange = 3,
    /// The offset isn't below the usable size of the payload.
    BadOffset = 4,
    /// No layout has the new size and the alignment of the payload.
    BadLayout = 5,
    /// An op inserts, appends or iterates over a range in a run over a source, whose ranges are the pools.
    NotForFlex = 6,
    /// A trim in a run without a source, to which no range can return.
    NotForTlsf = 7,
}

impl TraceError {
    ghost use Rattle.std.specs.Prelude.{◌≡◌};
    ghost use Rattle.rlsf_trace_text.specs.Printing.{error_number};

    /// The error's number.
    pub fn number(self) -> u8
        ensures { result ≡ error_number self }
    {
        self as u8
    }
}

/// The error's word.
impl fmt::Display for TraceError {
    ghost use Rattle.std.specs.Prelude.{Some};
    ghost use Rattle.rlsf_trace_text.specs.Printing.{error_word};

    ghost output = { λ error. Some (error_word error) };

    fn fmt<W: fmt::Write>(&self, f: &mut fmt::Formatter<W>) -> fmt::Result {
        f.write_str(match self {
            TraceError::UnknownName => "UnknownName",
            TraceError::NameTaken => "NameTaken",
            TraceError::BadRange => "BadRange",
            TraceError::BadOffset => "BadOffset",
            TraceError::BadLayout => "BadLayout",
            TraceError::NotForFlex => "NotForFlex",
            TraceError::NotForTlsf => "NotForTlsf",
        })
    }
}
