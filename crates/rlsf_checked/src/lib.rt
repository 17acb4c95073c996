//! An allocator that refuses each call that its caller may not make, in place of preconditions.
//!
//! Read `specs/Checked` (the allocator as contracts see it) and `specs/Answers` (when each error is returned) first, then `src/checked`, which
//! has most calls. `src/removal` removes pools, and `src/bytes` copies and fills the bytes of payloads. `src/error` has the errors.
//! `src/marks` makes marks, which are codes of `rlsf_codes`, and `src/pools` keeps the list of pools. `src/all_blocks` has the calls over
//! the blocks of all pools. `src/classes` and `src/lengths` test parameters and lengths. `specs/Steps` is for private functions.
#![tactic(auto)]

mod all_blocks;
mod bytes;
mod checked;
mod classes;
mod error;
mod lengths;
mod marks;
mod pools;
mod removal;

pub use checked::CheckedTlsf;
pub use error::CheckedError;
