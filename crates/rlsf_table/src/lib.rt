//! The class table of two-level segregated fit, and the lists of free blocks that begin in it.
//!
//! The length of a free block determines its class: a first-level row of the table and a place in it. The table keeps the newest block of
//! each class. The words at +16 and +24 of a free block link it to the others of its class. Functions take the table and the memory of
//! the blocks. `IsFreeTable` (`specs/FreeTable`) says that both encode a list of free blocks; it need not hold while blocks are rewritten.
//! Read `specs/Table`, `specs/FreeList` and `specs/FreeTable` first, then `src/block_words`, `rows`, `table`, `fit`, `list`.
#![tactic(auto)]

mod block_words;
mod fit;
mod list;
mod rows;
mod table;

pub use block_words::{
    NEXT_FREE, PAD, PREVIOUS_BLOCK, PREVIOUS_FREE, SIZE_SENTINEL, SIZE_USED, is_free, len_of_used,
    used_end, used_size_word,
};
pub use fit::{FoundBlock, first_fit};
pub use list::{link_free_block, link_joined_block, unlink_free_block, unlink_newest_block};
pub use table::{ClassIndex, ClassTable};
