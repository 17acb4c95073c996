//! Functions over the allocator as its users write them: this crate uses `rlsf` alone.
//!
//! Read them in this order. `note.rt` has a payload with its pool, and `buffer.rt` a buffer that grows. `pools.rt` has pools that never
//! refuse within their bounds, `budget.rt` one for a budget of bytes, and `cache.rt` a cache of the latest messages over such a pool. `many.rt` has loops over the addresses
//! of many payloads, and `across.rt` two pools with a copy between them. `paged.rt` and `source.rt` have allocators over sources.
//! `bytes.rt` copies bytes into a payload.
#![tactic(auto)]

mod across;
mod budget;
mod buffer;
mod bytes;
mod cache;
mod many;
mod note;
mod paged;
mod pools;
mod source;

pub use across::copy_across;
pub use budget::{replace_message, with_budget};
pub use buffer::Buffer;
pub use bytes::write_front;
pub use cache::Cache;
pub use many::{allocate_all, fill_all, free_all, read_back};
pub use note::Note;
pub use paged::{filled, over_one_range, over_pages, over_rations};
pub use pools::{Pool, allocate_again, allocate_larger, allocate_many, allocate_three, with_pool};
pub use source::RationedSource;
