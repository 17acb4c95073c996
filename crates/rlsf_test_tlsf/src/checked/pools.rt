//! What the tests share.

use crate::pools::zeros;
use rlsf_base::memory::Addr;
use rlsf_checked::{CheckedError, CheckedTlsf};
use std::num::NonZeroUsize;
use std::process::Abort;

/// Where every memory of these tests begins.
pub(crate) const START: usize = 4096;

/// 12 first-level rows of 16 classes.
pub(crate) type Small = CheckedTlsf<u16, u16, 12, 16>;

/// An allocator over so many bytes, without a pool.
pub(crate) fn small(rt: &(impl Abort + AllocGlobal), len: usize) -> Small {
    Small::new(rt.alloc(), zeros(rt, START, len)).expect(rt, "an allocator")
}

/// The address of a number that isn't 0.
pub(crate) fn at(rt: &impl Abort, number: usize) -> Addr {
    NonZeroUsize::new(number).expect(rt, "an address")
}

/// The number of a returned address.
pub(crate) fn number(answer: Result<Addr, CheckedError>) -> Result<usize, CheckedError> {
    answer.map(NonZeroUsize::get)
}
