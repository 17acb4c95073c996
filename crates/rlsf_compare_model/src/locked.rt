//! Calls of the value behind the lock.

use crate::call::{Call, rising};
use crate::error::Failure;
use crate::reply::Reply;
use rlsf_base::memory::{Addr, Layout};
use rlsf_global::{GlobalTlsfOptions, Locked};
use std::alloc::Global;

/// Makes a call.
pub(crate) fn make<Options: GlobalTlsfOptions>(
    alloc: Global,
    locked: &mut Locked<Options>,
    call: Call,
) -> Result<Reply, Failure> {
    match call {
        Call::Alloc(layout) => Ok(Reply::at(locked.alloc(layout))),
        Call::Allocate(layout) => Ok(Reply::at(locked.allocate(layout))),
        Call::Dealloc(addr, layout) => Ok(Reply::done(locked.dealloc(addr, layout))),
        Call::Deallocate(addr) => Ok(Reply::done(locked.deallocate(addr))),
        Call::Realloc(addr, layout, size) => {
            let _ = Layout::from_size_align(size, layout.align())?;
            Ok(Reply::at(locked.realloc(addr, layout, size)))
        }
        Call::Reallocate(addr, layout) => Ok(Reply::at(locked.reallocate(addr, layout))),
        Call::ReallocateNoMove(addr, layout, size) => {
            let _ = Layout::from_size_align(size, layout.align())?;
            Ok(Reply::at(locked.reallocate_no_move(addr, layout, size)))
        }
        Call::Usable(addr) => Ok(Reply::size(locked.allocation_usable_size(addr))),
        Call::Write(addr, offset, len, first) => {
            let bytes = rising(alloc, len, first)?;
            Ok(Reply::done(locked.write_payload(addr, offset, &bytes)))
        }
        Call::Read(addr, offset, len) => read(alloc, locked, addr, offset, len),
    }
}

/// Reads so many bytes of a payload, from an offset on.
fn read<Options: GlobalTlsfOptions>(
    alloc: Global,
    locked: &mut Locked<Options>,
    addr: Addr,
    offset: usize,
    len: usize,
) -> Result<Reply, Failure> {
    let mut bytes = vec![in alloc; 0; len]?;
    match locked.read_payload(addr, offset, &mut bytes) {
        Ok(()) => Ok(Reply::Bytes(bytes)),
        Err(error) => Ok(Reply::Refused(error)),
    }
}
