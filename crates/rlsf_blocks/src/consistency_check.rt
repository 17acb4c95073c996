//! A check of the pools of a memory: whether the words there, and a class table, are those of a well-formed allocator.
//!
//! It is for a caller who may have overwritten words that belong to the allocator. The words may have any values: nothing is read outside
//! of the memory, and nothing is written. In `specs/Consistency`, read `Pools`, `Linked`, `Layout`, `Heads` and `Consistent` first. Then `check`
//! (the call), `heads` (the class table), `chunks` (chunks and blocks), `links` (free blocks) and `words`.
mod check;
mod chunks;
mod heads;
mod links;
mod words;

pub use check::{are_consistent, is_consistent, laws};
