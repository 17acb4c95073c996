//! Why a benchmark did nothing.

ghost use Rattle.std.specs.Prelude.{◌≡◌};

use rlsf_base::memory::MemoryError;
use std::alloc::AllocError;
use std::error::Error;
use std::{fmt, io};

/// Why nothing was done.
#[derive(Debug, Drop)]
pub enum BenchError {
    /// The arguments aren't those that the program takes. The text says which these are.
    Usage(&'static str),
    /// Out of memory.
    OutOfMemory,
    /// The command line could not be read, or the output could not be written.
    Io(io::Error),
}

impl fmt::Display for BenchError {
    fn fmt<W: fmt::Write>(&self, f: &mut fmt::Formatter<W>) -> fmt::Result {
        match self {
            BenchError::Usage(usage) => write!(f, "{usage}"),
            BenchError::OutOfMemory => f.write_str("the system refused memory"),
            BenchError::Io(error) => write!(f, "{error}"),
        }
    }
}

impl Error for BenchError {}

impl From<AllocError> for BenchError {
    ghost use Rattle.rlsf_bench_common.specs.declared.error.BenchError.TheVariants.{OutOfMemory};

    ghost from_gives = { λ _ error. error ≡ OutOfMemory };

    fn from(_refused: AllocError) -> BenchError {
        BenchError::OutOfMemory
    }
}

impl From<MemoryError> for BenchError {
    fn from(_refused: MemoryError) -> BenchError {
        BenchError::OutOfMemory
    }
}

impl From<io::Error> for BenchError {
    fn from(error: io::Error) -> BenchError {
        BenchError::Io(error)
    }
}
