//! The numbers of the reference model: powers of two, rounding, size classes, and what is computed of sizes and layouts. This crate has
//! definitions only, in `specs/`, and no code.
//!
//! `rlsf_base` has the functions that compute them, and `rlsf_model` the steps that cite them. Read `PowerOfTwo` and `Rounding` first, then
//! `SizeClass` and `Sizes`.
#![tactic(auto)]
