//! What a run knows of a live payload.

use rlsf_base::memory::Addr;

/// A live payload: its address, and the alignment that was asked for.
#[derive(Clone, Copy, Drop)]
pub struct Payload {
    pub addr: Addr,
    pub align: usize,
}
