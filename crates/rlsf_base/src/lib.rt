//! The base of the allocators: the memory that they divide up, and size classes.
//!
//! Read `specs/Range`, `specs/Layout` and `specs/Space` (a memory as contracts see it) first, then `src/memory`. It has one file for each
//! subject: `range`, `layout`, `open_memory` (bytes can leave), `part` and `ledger` (bytes that left), `block` (the pointer). `specs/Out` and
//! `specs/OpenSpace` belong to these. Then `src/rounding` and `src/classes`, with `Rounding`, `SizeClass` and `Sizes` of
//! `rlsf_model_sizes`. `specs/Steps` is for private functions.
#![tactic(auto)]

pub mod classes;
pub mod memory;
pub mod rounding;
