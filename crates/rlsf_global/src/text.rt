//! The text of a journal, with one line for each entry.

use crate::close::Closed;
use crate::entry::{Call, Entry, Reply};
use std::fmt;

/// Writes `allocate 8 align 16`, `deallocate 65552` or `reallocate 65552 to 8 align 16`, for example. Numbers are in bytes.
impl fmt::Display for Call {
    fn fmt<W: fmt::Write>(&self, f: &mut fmt::Formatter<W>) -> fmt::Result {
        match *self {
            Call::Allocate(layout) => {
                let (size, align) = (layout.size(), layout.align());
                write!(f, "allocate {size} align {align}")
            }
            Call::Deallocate(addr) => {
                let addr = addr.get();
                write!(f, "deallocate {addr}")
            }
            Call::Reallocate(addr, layout) => {
                let (addr, size, align) = (addr.get(), layout.size(), layout.align());
                write!(f, "reallocate {addr} to {size} align {align}")
            }
        }
    }
}

/// Writes `placed at 65552`, `freed`, `no room` or `unknown address`, for example.
impl fmt::Display for Reply {
    fn fmt<W: fmt::Write>(&self, f: &mut fmt::Formatter<W>) -> fmt::Result {
        match *self {
            Reply::Placed(addr) => {
                let addr = addr.get();
                write!(f, "placed at {addr}")
            }
            Reply::Freed => f.write_str("freed"),
            Reply::NoRoom => f.write_str("no room"),
            Reply::UnknownAddress => f.write_str("unknown address"),
            Reply::TableMemory => f.write_str("no memory for the table"),
            Reply::JournalMemory => f.write_str("no memory for the journal"),
        }
    }
}

/// Writes the caller, the call and the reply, for example `caller 0: allocate 8 align 16: placed at 65552`.
impl fmt::Display for Entry {
    fn fmt<W: fmt::Write>(&self, f: &mut fmt::Formatter<W>) -> fmt::Result {
        let Entry {
            caller,
            call,
            reply,
        } = *self;
        write!(f, "caller {caller}: {call}: {reply}")
    }
}

/// Writes a line for each entry with its number, for example `0 caller 0: deallocate 7: unknown address`. Then writes a line for each live
/// address, for example `live 65552: 8 align 16`.
impl fmt::Display for Closed {
    fn fmt<W: fmt::Write>(&self, f: &mut fmt::Formatter<W>) -> fmt::Result {
        for number in 0..self.journal.len() {
            let entry = self.journal[number];
            writeln!(f, "{number} {entry}")?;
        }
        for i in 0..self.live.len() {
            let (addr, layout) = self.live[i];
            let (addr, size, align) = (addr.get(), layout.size(), layout.align());
            writeln!(f, "live {addr}: {size} align {align}")?;
        }
        Ok(())
    }
}
