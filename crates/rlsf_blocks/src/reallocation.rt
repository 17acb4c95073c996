//! Reallocations: a payload gets another size, over a memory and its class table.
//!
//! A caller tries `resize`, which stays in place, and then `cases`, which tries two more cases in turn. `previous` moves into the free block
//! before the payload's own, and `elsewhere` moves into a newly allocated block. `copying` copies the bytes. All definitions are in `specs/Steps`: the contracts
//! of the allocator cite the reference model instead.
mod cases;
mod copying;
mod elsewhere;
mod previous;
mod resize;

pub use cases::move_block;
pub use elsewhere::move_elsewhere;
pub use resize::resize_kept_block;
