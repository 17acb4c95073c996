//! A real-time memory allocator: two-level segregated fit over memory that the caller provides.
//!
//! This crate has no code of its own. It re-exports what a user of `Tlsf` or `FlexTlsf` needs, so that a caller's crate depends on it
//! alone. `specs/` and `proofs/` re-export the definitions and the lemmas that callers cite.
//!
//! The allocator behind a lock and the journal of its calls are in `rlsf_global`.
#![tactic(auto)]

pub use rlsf_base::memory::{Addr, Layout, LayoutError, Memory, MemoryError, Range};
pub use rlsf_flex::{
    BumpSource, FlexSource, FlexTlsf, GlobalAlloc, GlobalAllocAsFlexSource, GlobalTlsfOptions,
    SmallGlobalTlsfOptions, Source, SourceChange,
};
pub use rlsf_tlsf::{BlockInfo, Blocks, GRANULARITY, Tlsf, laws};

/// The size classes, and the pool lengths that are computed from them.
pub mod classes {
    pub use rlsf_base::classes::{
        laws, map_ceil, map_ceil_and_unmap, map_floor, max_pool_size, pool_size_for_budget,
        pool_size_for_objects, pool_size_for_payloads, pool_size_to_contain_allocation,
        request_size,
    };
}

/// The laws of an allocator over a source.
pub mod flex {
    pub use rlsf_flex::laws;
}

/// The integers that serve as bitmaps.
pub mod int {
    pub use rlsf_int::{BinInteger, BitPattern, Bitmap};
}
