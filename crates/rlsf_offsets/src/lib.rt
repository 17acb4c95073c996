//! Allocation of ranges of a space that the processor can't reach: the memory of a GPU, a file, device addresses, identifiers.
//!
//! Read `specs/Offsets` (live ranges as callers see them) first, then `src/offsets`. `src/units` has the allocator below it, which counts in
//! units, with definitions in `specs/Units`. `src/pieces` lists used and free ranges (`specs/Iteration`), and `src/stats` has their totals
//! (`specs/Blocks`). `src/checked` has the form with errors in place of conditions (`specs/Checked`); `src/marks` has the marks of its live
//! ranges (`specs/Marks`).
#![tactic(auto)]

mod checked;
mod error;
mod marks;
mod offsets;
mod pieces;
mod stats;
mod units;

pub use checked::CheckedOffsets;
pub use error::OffsetError;
pub use offsets::OffsetTlsf;
pub use pieces::{Piece, Pieces};
pub use stats::Stats;
