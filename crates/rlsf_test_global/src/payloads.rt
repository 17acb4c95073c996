//! Reads and writes through the locks, at offsets. What is refused changes nothing, and none of them has an entry in a journal.

use crate::answers::{all, memory};
use crate::journal::{agreed, over};
use crate::steps::{done, placed};
use rlsf_base::memory::{Addr, Layout};
use rlsf_global::{
    GlobalError, GlobalTlsf, GlobalTlsfOptions, Journaled, Pass, SmallGlobalTlsfOptions,
};
use std::alloc::Global;
use std::num::NonZeroUsize;
use std::process::Abort;
use std::sync::Wait;

/// An allocator behind a lock.
pub trait Shared {
    fn read<R: Wait>(
        &self,
        rt: &R,
        addr: Addr,
        offset: usize,
        bytes: &mut [u8],
    ) -> Result<(), GlobalError>;

    fn write<R: Wait>(
        &self,
        rt: &R,
        addr: Addr,
        offset: usize,
        bytes: &[u8],
    ) -> Result<(), GlobalError>;
}

impl<Options: GlobalTlsfOptions> Shared for GlobalTlsf<Options> {
    fn read<R: Wait>(
        &self,
        rt: &R,
        addr: Addr,
        offset: usize,
        bytes: &mut [u8],
    ) -> Result<(), GlobalError> {
        self.read_payload(rt, addr, offset, bytes)
    }

    fn write<R: Wait>(
        &self,
        rt: &R,
        addr: Addr,
        offset: usize,
        bytes: &[u8],
    ) -> Result<(), GlobalError> {
        self.write_payload(rt, addr, offset, bytes)
    }
}

impl Shared for Journaled {
    fn read<R: Wait>(
        &self,
        rt: &R,
        addr: Addr,
        offset: usize,
        bytes: &mut [u8],
    ) -> Result<(), GlobalError> {
        self.read_payload(rt, addr, offset, bytes)
    }

    fn write<R: Wait>(
        &self,
        rt: &R,
        addr: Addr,
        offset: usize,
        bytes: &[u8],
    ) -> Result<(), GlobalError> {
        self.write_payload(rt, addr, offset, bytes)
    }
}

/// Addresses, offsets and bytes that are written there, each with 0, or the number of the error. A payload of 48 usable bytes is at 65552.
static WRITES: [(usize, usize, &[u8], usize); 9] = [
    (65552, 0, &[1, 2, 3, 4, 5, 6, 7, 8], 0),
    (65552, 3, &[20, 21], 0),
    (65552, 44, &[30, 31, 32, 33], 0),
    (65552, 45, &[40, 41, 42, 43], 5),
    (65552, 48, &[], 0),
    (65552, 49, &[], 5),
    (65552, usize::MAX, &[44], 5),
    (65560, 0, &[45], 2),
    (7, usize::MAX, &[46], 2),
];

/// The address and the offset of a read into four bytes of 7, or into none: 0 or the number of the error, and the bytes that are there
/// afterwards.
static READS: [(usize, usize, usize, &[u8]); 14] = [
    (65552, 0, 0, &[1, 2, 3, 20]),
    (65552, 2, 0, &[3, 20, 21, 6]),
    (65552, 4, 0, &[21, 6, 7, 8]),
    (65552, 44, 0, &[30, 31, 32, 33]),
    (65552, 45, 5, &[7; 4]),
    (65552, usize::MAX, 5, &[7; 4]),
    (65560, 0, 2, &[7; 4]),
    (7, usize::MAX, 2, &[7; 4]),
    (65552, 0, 0, &[]),
    (65552, 48, 0, &[]),
    (65552, 49, 5, &[]),
    (65560, 0, 2, &[]),
    (7, 0, 2, &[]),
    (usize::MAX, usize::MAX, 2, &[]),
];

/// What a write answers: 0, or the number of the error. Nothing where there is no such address.
fn written(
    rt: &impl Wait,
    shared: &impl Shared,
    addr: usize,
    offset: usize,
    bytes: &[u8],
) -> Option<usize> {
    let addr = NonZeroUsize::new(addr)?;
    Some(done(shared.write(rt, addr, offset, bytes)))
}

/// Whether a read of as many bytes as these returns this, and leaves these bytes where four sevens were.
fn is_read(
    rt: &impl Wait,
    shared: &impl Shared,
    addr: Addr,
    offset: usize,
    wanted: usize,
    bytes: &[u8],
) -> bool {
    let mut found = [7; 4];
    let Some(read) = found.get_mut(..bytes.len()) else {
        return false;
    };
    done(shared.read(rt, addr, offset, read)) == wanted && found.get(..bytes.len()) == Some(bytes)
}

/// The place of the first write with a wrong result.
fn first_wrong_write(rt: &impl Wait, shared: &impl Shared) -> Option<usize> {
    for (place, (addr, offset, bytes, wanted)) in WRITES.iter().enumerate() {
        if written(rt, shared, *addr, *offset, bytes) != Some(*wanted) {
            return Some(place);
        }
    }
    None
}

/// The place of the first read with a wrong result or other bytes.
fn first_wrong_read(rt: &impl Wait, shared: &impl Shared) -> Option<usize> {
    for (place, (addr, offset, wanted, bytes)) in READS.iter().enumerate() {
        match NonZeroUsize::new(*addr) {
            Some(addr) if is_read(rt, shared, addr, *offset, *wanted, bytes) => {}
            _ => return Some(place),
        }
    }
    None
}

/// Passes if all writes, and then all reads, have their expected results.
fn are_right(rt: &(impl Wait + Abort), shared: &impl Shared) {
    let answers = [
        first_wrong_write(rt, shared).is_none(),
        first_wrong_read(rt, shared).is_none(),
    ];
    all(rt, &answers);
}

/// A payload of 48 usable bytes.
fn layout() -> Layout {
    Layout::from_size_align_unchecked(40, 8)
}

/// Passes if they are of an allocator of this kind.
fn are_right_of<Options: GlobalTlsfOptions>(rt: &(impl Wait + Abort), alloc: Global) {
    let shared = GlobalTlsf::<Options>::new(alloc, memory(rt, alloc, 65536));
    all(rt, &[placed(shared.alloc(rt, layout())) == 65552]);
    are_right(rt, &shared);
}

#[test]
fn of_shared_allocators(rt: HostRuntime) {
    are_right_of::<()>(&rt, rt.alloc());
    are_right_of::<SmallGlobalTlsfOptions>(&rt, rt.alloc());
}

/// The payload that the first caller allocates; nothing without a caller, or if it is refused.
pub fn allocated(
    rt: &impl Wait,
    journaled: &Journaled,
    passes: &mut [Pass],
    layout: Layout,
) -> Option<Addr> {
    let pass = passes.first_mut()?;
    if pass.caller() >= journaled.callers() {
        return None;
    }
    journaled.allocate(rt, pass, layout).ok()
}

#[test]
fn of_one_with_a_journal(rt: HostRuntime) {
    let (journaled, mut passes) = over(&rt, rt.alloc(), 65536, 1);
    let addr = allocated(&rt, &journaled, &mut passes, layout());
    all(&rt, &[addr == NonZeroUsize::new(65552)]);
    are_right(&rt, &journaled);
    agreed(&rt, journaled, passes, (1, 1));
}
