//! A code for each multiple of 16 in a memory, of a type that the user chooses: the tables of live addresses of `rlsf_checked` and
//! `rlsf_global`.
//!
//! Read `specs/Codes` first, then `src/codes`. `src/looks` counts the codes that calls read or write.
#![tactic(auto)]

mod codes;
mod looks;

pub use codes::Codes;
