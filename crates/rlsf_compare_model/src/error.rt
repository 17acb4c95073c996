//! What ends the program early.

use rlsf_base::memory::{LayoutError, MemoryError};
use rlsf_trace_runs::RunError;
use rlsf_trace_text::ReplayFault;
use std::alloc::{AllocError, AllocFailed};
use std::error::Error;
use std::{fmt, io};

/// Why a run wasn't replayed, or a line of a script not done.
#[derive(Debug, Drop)]
pub(crate) enum Failure {
    /// A run doesn't begin with capabilities and an alignment.
    Head,
    /// An answer of a source is no range, no length and not `none`.
    Answer,
    /// A trace has a fault.
    Trace(ReplayFault),
    /// A line is no head of a script and no call, or a call where no script has begun.
    Line,
    /// Out of memory.
    OutOfMemory,
    /// The input could not be read, or the output not be written.
    Io(io::Error),
}

/// Where a failure is.
#[derive(Debug, Clone, Copy)]
pub(crate) enum Place {
    /// In no run and no line.
    Input,
    /// In the run with this number.
    Run(usize),
    /// In the line of the scripts with this number.
    Line(usize),
}

/// A failure, and where it is.
#[derive(Debug, Drop)]
pub(crate) struct CompareError {
    /// Where it is.
    pub(crate) place: Place,
    /// What is wrong.
    pub(crate) failure: Failure,
}

impl fmt::Display for Failure {
    fn fmt<W: fmt::Write>(&self, f: &mut fmt::Formatter<W>) -> fmt::Result {
        match self {
            Failure::Head => f.write_str("no line `run CAPABILITIES MIN_ALIGN`"),
            Failure::Answer => f.write_str("a bad answer"),
            Failure::Trace(fault) => write!(f, "trace: {fault}"),
            Failure::Line => f.write_str("a bad line"),
            Failure::OutOfMemory => f.write_str("the system refused memory"),
            Failure::Io(error) => write!(f, "{error}"),
        }
    }
}

impl fmt::Display for CompareError {
    fn fmt<W: fmt::Write>(&self, f: &mut fmt::Formatter<W>) -> fmt::Result {
        match self.place {
            Place::Input => write!(f, "{}", self.failure),
            Place::Run(number) => write!(f, "run {number}: {}", self.failure),
            Place::Line(number) => write!(f, "line {number}: {}", self.failure),
        }
    }
}

impl Error for CompareError {}

impl From<ReplayFault> for Failure {
    fn from(fault: ReplayFault) -> Failure {
        Failure::Trace(fault)
    }
}

impl From<LayoutError> for Failure {
    fn from(_error: LayoutError) -> Failure {
        Failure::Line
    }
}

impl From<MemoryError> for Failure {
    fn from(error: MemoryError) -> Failure {
        match error {
            MemoryError::OutOfMemory => Failure::OutOfMemory,
            _ => Failure::Line,
        }
    }
}

impl From<RunError> for Failure {
    fn from(_error: RunError) -> Failure {
        Failure::OutOfMemory
    }
}

impl From<AllocError> for Failure {
    fn from(_refused: AllocError) -> Failure {
        Failure::OutOfMemory
    }
}

impl<T: Drop> From<AllocFailed<T>> for Failure {
    fn from(_refused: AllocFailed<T>) -> Failure {
        Failure::OutOfMemory
    }
}

impl From<io::Error> for Failure {
    fn from(error: io::Error) -> Failure {
        Failure::Io(error)
    }
}
