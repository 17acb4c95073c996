//! Blocks: the in-band layout of the pools of a memory, and the calls that make blocks used or free.
//!
//! A call takes a memory and its class table. Its contract says what it does to the state of the reference model. Read `specs/InBand` (the
//! words of a block), `specs/StandsFor` (the represented state) and `specs/Spare` first. Then `src/pool` and `src/extend` (chunks),
//! `src/placement` and `src/free` (blocks), `src/payload`, `src/walks` (iteration), `src/listing`, `src/totals` and `src/removal`. A payload
//! gets another size in `src/reallocation`, and `src/consistency_check` reads all words again.
//! `specs/Laws` is proved in `rlsf_tlsf`.
#![tactic(auto)]

pub mod consistency_check;
mod extend;
mod free;
mod listing;
mod payload;
mod placement;
mod pool;
pub mod reallocation;
mod removal;
mod totals;
mod walks;

pub use extend::append_chunks;
pub use free::{deallocate_block, take_if_free, take_previous, used_block};
pub use listing::list;
pub use payload::{load_block_of, load_usable_bytes, usable_bytes};
pub use placement::{allocate_block, allocate_range, leave_rest};
pub use pool::insert_chunks;
pub use removal::remove_chunks;
pub use totals::{NO_TOTALS, Totals, totals_of};
pub use walks::{BlockInfo, Blocks, chunk_end, walk_blocks};

/// The unit of sizes and addresses of blocks, in bytes.
pub const GRANULARITY: usize = 32;

// The words in memory, and the definitions that contracts cite, have this unit.
const _: () = prove!(GRANULARITY == 32);

/// The bytes of a used block before its payload, at the least.
pub const HEADER: usize = GRANULARITY / 2;
