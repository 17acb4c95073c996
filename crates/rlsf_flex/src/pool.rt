//! The newest range of a source.

use rlsf_base::memory::Range;

/// The newest range of the source, and the number of bytes from its start to the end of its last chunk.
#[derive(Clone, Copy)]
pub struct Pool {
    pub range: Range,
    pub len: usize,
}
