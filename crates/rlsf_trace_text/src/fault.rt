//! What can be wrong with a replay.

ghost use Rattle.std.specs.Prelude.{◌≡◌, MatchResult};
ghost use Rattle.rlsf_trace_text.specs.Faults.{out_of_memory};

use std::alloc::{AllocError, AllocFailed};
use std::error::Error;
use std::fmt;

/// What can be wrong with a replay.
#[derive(Clone, Copy, Debug, PartialEq, Eq)]
pub enum Fault {
    /// The line has more or fewer words than its command wants; the first line wants three.
    FieldCount,
    /// No configuration has the name on the first line.
    Config,
    /// No command has the name that a line begins with.
    UnknownOp,
    /// A word isn't the number that it has to be: one to twenty decimal digits, at most `2^64 - 1`. A byte is at most 255.
    BadNumber,
    /// The memory is to start at address 0.
    ZeroStart,
    /// The memory is to end past `2^64 - 1`.
    TooLong,
    /// No layout has the size and the alignment of an allocation.
    BadLayout,
    /// Out of memory.
    OutOfMemory,
    /// The input could not be read.
    Read,
    /// The output could not be written.
    Write,
}

impl Fault {
    /// The fault, found on the line of this number.
    pub fn at_line(self, line: usize) -> ReplayFault
        ensures { (result.line ≡ line) × (result.fault ≡ self) }
    {
        ReplayFault { line, fault: self }
    }
}

/// A fault, and the number of the line that has it. Lines are numbered from 1; a fault of no line has 0.
#[derive(Clone, Copy, Debug, PartialEq, Eq)]
pub struct ReplayFault {
    /// The number of the line, or 0.
    pub line: usize,
    /// What is wrong.
    pub fault: Fault,
}

/// The status that a program ends with after a replay: 0 after success, else 1.
pub fn status(outcome: &Result<(), ReplayFault>) -> u8
    ensures { MatchResult outcome.now (λ _. result ≡ 0) (λ _. result ≡ 1) }
{
    match outcome {
        Ok(()) => 0,
        Err(_) => 1,
    }
}

/// The fault's word.
impl fmt::Display for Fault {
    ghost use Rattle.std.specs.Prelude.{Some};
    ghost use Rattle.rlsf_trace_text.specs.Faults.{fault_word};

    ghost output = { λ fault. Some (fault_word fault) };

    fn fmt<W: fmt::Write>(&self, f: &mut fmt::Formatter<W>) -> fmt::Result {
        f.write_str(match self {
            Fault::FieldCount => "FieldCount",
            Fault::Config => "Config",
            Fault::UnknownOp => "UnknownOp",
            Fault::BadNumber => "BadNumber",
            Fault::ZeroStart => "ZeroStart",
            Fault::TooLong => "TooLong",
            Fault::BadLayout => "BadLayout",
            Fault::OutOfMemory => "OutOfMemory",
            Fault::Read => "Read",
            Fault::Write => "Write",
        })
    }
}

/// `line N: WORD`, with the number of the line and the fault's word.
impl fmt::Display for ReplayFault {
    ghost use Rattle.std.specs.Prelude.{Some};
    ghost use Rattle.rlsf_trace_text.specs.Faults.{fault_text};

    ghost output = { λ fault. Some (fault_text fault) };

    fn fmt<W: fmt::Write>(&self, f: &mut fmt::Formatter<W>) -> fmt::Result {
        let ReplayFault { line, fault } = *self;
        write!(f, "line {line}: {fault}")
    }
}

impl Error for ReplayFault {}

impl From<AllocError> for ReplayFault {
    ghost from_gives = { λ _ fault. fault ≡ out_of_memory };

    fn from(_refused: AllocError) -> ReplayFault {
        out_of_memory()
    }
}

impl<T: Drop> From<AllocFailed<T>> for ReplayFault {
    ghost from_gives = { λ _ fault. fault ≡ out_of_memory };

    fn from(_refused: AllocFailed<T>) -> ReplayFault {
        out_of_memory()
    }
}

fn out_of_memory() -> ReplayFault
    ensures { result ≡ out_of_memory }
{
    Fault::OutOfMemory.at_line(0)
}
