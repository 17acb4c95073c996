//! Calls through the lock.

use crate::call::{Call, rising};
use crate::error::Failure;
use crate::reply::Reply;
use rlsf_base::memory::{Addr, Layout};
use rlsf_global::{CAlloc, GlobalTlsf, GlobalTlsfOptions};
use std::alloc::Global;
use std::sync::Wait;

/// Makes a call.
pub(crate) fn make<R: Wait, Options: GlobalTlsfOptions>(
    rt: &R,
    alloc: Global,
    shared: &GlobalTlsf<Options>,
    call: Call,
) -> Result<Reply, Failure> {
    match call {
        Call::Alloc(layout) => Ok(Reply::at(shared.alloc(rt, layout))),
        Call::Allocate(layout) => Ok(Reply::at(shared.allocate(rt, layout))),
        Call::Dealloc(addr, layout) => Ok(Reply::done(shared.dealloc(rt, addr, layout))),
        Call::Deallocate(addr) => Ok(Reply::done(shared.deallocate(rt, addr))),
        Call::Realloc(addr, layout, size) => {
            let _ = Layout::from_size_align(size, layout.align())?;
            Ok(Reply::at(shared.realloc(rt, addr, layout, size)))
        }
        Call::Reallocate(addr, layout) => Ok(Reply::at(shared.reallocate(rt, addr, layout))),
        Call::ReallocateNoMove(addr, layout, size) => {
            let _ = Layout::from_size_align(size, layout.align())?;
            Ok(Reply::at(shared.reallocate_no_move(rt, addr, layout, size)))
        }
        Call::Usable(addr) => Ok(Reply::size(shared.allocation_usable_size(rt, addr))),
        Call::Write(addr, offset, len, first) => {
            let bytes = rising(alloc, len, first)?;
            Ok(Reply::done(shared.write_payload(rt, addr, offset, &bytes)))
        }
        Call::Read(addr, offset, len) => read(rt, alloc, shared, addr, offset, len),
    }
}

/// Reads so many bytes of a payload, from an offset on.
fn read<R: Wait, Options: GlobalTlsfOptions>(
    rt: &R,
    alloc: Global,
    shared: &GlobalTlsf<Options>,
    addr: Addr,
    offset: usize,
    len: usize,
) -> Result<Reply, Failure> {
    let mut bytes = vec![in alloc; 0; len]?;
    match shared.read_payload(rt, addr, offset, &mut bytes) {
        Ok(()) => Ok(Reply::Bytes(bytes)),
        Err(error) => Ok(Reply::Refused(error)),
    }
}
