//! Payloads that are allocated with zeros.

use super::pools::START;
use crate::bytes::is_all;
use crate::loans::ZEROED;
use crate::pools::{layout_of, passes, zeros};
use rlsf_base::memory::{Layout, Range};
use rlsf_checked::{CheckedError, CheckedTlsf};

/// Chunks of any length.
type Long = CheckedTlsf<u64, u64, 59, 8>;

/// Leaves other bytes than zeros in the pool: a payload that has nearly all of it is filled and deallocated.
fn dirty(pool: &mut Long, layout: Layout) -> Result<(), CheckedError> {
    let addr = pool.allocate(layout)?;
    pool.fill(addr, 255)?;
    pool.deallocate(addr)
}

/// Where a payload lies that is allocated with zeros, and its number of usable bytes; or 1 if one of them isn't 0. It is deallocated.
fn zeroed(pool: &mut Long, layout: Layout) -> Result<[usize; 2], CheckedError> {
    let addr = pool.allocate_zeroed(layout)?;
    let bytes = pool.payload(addr)?;
    let place = if is_all(bytes, 0) { addr.get() } else { 1 };
    let answers = [place, bytes.len()];
    pool.deallocate(addr)?;
    Ok(answers)
}

#[test]
fn payloads_are_allocated_with_zeros(rt: HostRuntime) {
    let pool = Long::new(rt.alloc(), zeros(&rt, START, 131072));
    let mut pool = pool.expect(&rt, "an allocator");
    let range = Range {
        start: START,
        len: 131072,
    };
    passes(&rt, pool.insert(range) == Ok(131072), START);
    let most = layout_of(&rt, 100000, 1);
    for [size, align, addr, usable] in ZEROED {
        passes(&rt, dirty(&mut pool, most) == Ok(()), most.size());
        let layout = layout_of(&rt, size, align);
        passes(&rt, zeroed(&mut pool, layout) == Ok([addr, usable]), addr);
    }
    let refused = pool.allocate_zeroed(layout_of(&rt, 131072, 1));
    passes(&rt, refused == Err(CheckedError::NoRoom), 0);
}
