//! What a call replies, and how it is printed.

use rlsf_base::memory::Addr;
use rlsf_global::GlobalError;
use std::alloc::AllocError;

/// A reply.
#[derive(Drop)]
pub(crate) enum Reply {
    /// The call placed a payload.
    At(Addr),
    /// The call was done.
    Done,
    /// So many bytes are usable.
    Size(usize),
    /// These bytes were read.
    Bytes(Vec<u8>),
    /// The call was refused.
    Refused(GlobalError),
}

impl Reply {
    /// The reply of a call that places a payload.
    pub(crate) fn at(answer: Result<Addr, GlobalError>) -> Reply {
        match answer {
            Ok(addr) => Reply::At(addr),
            Err(error) => Reply::Refused(error),
        }
    }

    /// The reply of a call that returns nothing.
    pub(crate) fn done(answer: Result<(), GlobalError>) -> Reply {
        match answer {
            Ok(()) => Reply::Done,
            Err(error) => Reply::Refused(error),
        }
    }

    /// The reply of a call that returns a size.
    pub(crate) fn size(answer: Result<usize, GlobalError>) -> Reply {
        match answer {
            Ok(size) => Reply::Size(size),
            Err(error) => Reply::Refused(error),
        }
    }

    /// Prints it on a line.
    pub(crate) fn print(&self, text: &mut String) -> Result<(), AllocError> {
        match self {
            Reply::At(addr) => writeln!(text, "at {addr}"),
            Reply::Done => writeln!(text, "done"),
            Reply::Size(size) => writeln!(text, "size {size}"),
            Reply::Bytes(bytes) => print_bytes(text, bytes),
            Reply::Refused(error) => writeln!(text, "{error:?}"),
        }
    }
}

fn print_bytes(text: &mut String, bytes: &[u8]) -> Result<(), AllocError> {
    text.push_str("bytes ")?;
    let mut separator = "";
    for byte in bytes {
        write!(text, "{separator}{byte}")?;
        separator = ",";
    }
    text.push('\n')
}
