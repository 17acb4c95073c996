//! `Heap`, an allocator whose payloads leave its memory: a `Payload` owns its bytes, and can be kept, moved and written while
//! other payloads are.
//!
//! Read `payload.rt`, `handover.rt` and `heap.rt` first, then `deallocation.rt`, `reallocation.rt`, `pools.rt` and `reading.rt`. `apart.rt`
//! states the laws of payloads that are out together. `thin.rt` has `ThinPayload`, a payload known by its address, with its calls in
//! `thin_calls.rt`, `thin_reallocation.rt` and `thin_unknown_align.rt`. `resizing.rt` resizes either kind in place.
//! `units.rt` has the payloads that `rlsf_local_heap` uses.
//! `consistency.rt` reads the words of a pool again; `words.rt` does so where these words may have any values.
//! `specs/Heap.antt` defines what contracts see.
//!
//! To read the contract of a call, open `Heap`, and these files of `specs/` and of the model (`rlsf_model/specs/`). The calls with `thin` in
//! their names also need `ThinReplies`:
//!
//! - `allocate`, `allocate_zeroed`, `allocate_thin`, `allocate_thin_zeroed`: `Replies`, `Frame`; model `Allocate`
//! - `deallocate`, `deallocate_written`, `deallocate_thin`, `deallocate_thin_written`: `Replies`, `Frame`; model `Release`
//! - `reallocate`, `reallocate_thin`: `Replies`, `Frame`; model `Reallocate`
//! - `reallocate_no_move`, `reallocate_thin_no_move`: `Replies`, `Frame`; model `NoMove`
//! - `move_thin`: `ThinReplies`, `Frame`
//! - `resize_thin_unknown_align`, `reallocate_thin_unknown_align`: `ThinUnknownAlign`, `Frame`
//! - `allocate_units`, `deallocate_units`, `resize_units`: `Units`, `Frame`
//! - `unit_payload_len`: `Units`
//! - `as_mut_slice` of a payload: `Lends`
//! - `insert_free_block`, `insert_free_block_ptr`: `Lending`, `Frame`; model `Insert`
//! - `append_free_block_ptr`: `Frame`; model `Insert`
//! - `remove_pool`: `Frame`; model `Remove`, `ChunkRows`
//! - `try_remove_pool`: `Frame`, `Pools`; model `ChunkRows`
//! - `lend`, `reclaim`, `reclaim_pool`: `Lending`; model `Insert`
//! - `apart`: `Replies`
#![tactic(auto)]

mod apart;
mod consistency;
mod deallocation;
mod handover;
mod heap;
mod lending;
mod loan;
mod payload;
mod pools;
mod reading;
mod reallocation;
mod resizing;
mod thin;
mod thin_calls;
mod thin_reallocation;
mod thin_unknown_align;
mod units;
mod words;

pub use heap::Heap;
pub use loan::Loan;
pub use payload::Payload;
pub use thin::ThinPayload;
pub use units::unit_payload_len;
pub use words::HeapWords;
