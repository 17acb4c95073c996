//! The example of a `CheckedTlsf` in docs/C.md, and its result.

use crate::pools::all;
use rlsf_base::memory::{Layout, Memory, Range};
use rlsf_checked::{CheckedError, CheckedTlsf};
use std::process::Abort;

type Pool = CheckedTlsf<u16, u16, 12, 16>;

fn kept(pool: &mut Pool, bytes: &[u8], layout: Layout) -> Result<(), CheckedError> {
    let addr = pool.allocate(layout)?;
    pool.write(addr, 0, bytes)?;
    pool.deallocate(addr)
}

/// An allocator over 1,024 bytes, without a pool.
fn over_memory(rt: &(impl Abort + AllocGlobal)) -> Pool {
    let memory = Memory::new(rt.alloc(), 4096, 1024).expect(rt, "memory");
    Pool::new(rt.alloc(), memory).expect(rt, "an allocator")
}

#[test]
fn bytes_are_kept_where_they_fit(rt: HostRuntime) {
    let mut pool = over_memory(&rt);
    let layout = Layout::from_size_align_unchecked(4, 1);
    let before = kept(&mut pool, &[1, 2, 3, 4], layout);
    let range = Range {
        start: 4096,
        len: 1024,
    };
    let inserted = pool.insert(range);
    let fitting = kept(&mut pool, &[1, 2, 3, 4], layout);
    // A payload of 4 bytes has 16, since blocks are multiples of 32 with 16 bytes before the payload.
    let long = kept(&mut pool, &[7; 17], layout);
    let answers = [
        before == Err(CheckedError::NoRoom),
        inserted == Ok(1024),
        fitting == Ok(()),
        long == Err(CheckedError::OutOfRange),
    ];
    all(&rt, &answers);
}
