//! The parts of an allocator over a source.

use crate::pool::Pool;
use crate::ranges::GhostRanges;
use crate::source::FlexSource;
use rlsf_tlsf::Tlsf;

/// The parts of an allocator over a source: the allocator over pools, the newest range with its chunks if it is kept, the source, and
/// the ranges that are outstanding there.
pub(crate) struct Parts<S: FlexSource, const FLLEN: usize, const SLLEN: usize> {
    // No call here returns one of its bitmaps, so it has the widest ones: what works on it knows the lengths alone.
    pub(crate) tlsf: Tlsf<u128, u128, FLLEN, SLLEN>,
    pub(crate) kept: Option<Pool>,
    pub(crate) source: S,
    pub(crate) owed: GhostRanges,
}
