//! The allocator for C, in place: calls over a handle that holds a heap, whose addresses are pointers. A payload is its caller's: a call owns
//! no byte of the payloads that are out. `include/rlsf.h` declares the calls.
//!
//! There are four kinds of heaps. Read `large_exports.rt` first; the exports of the other kinds are the same, and `tools/kinds` writes them. They
//! make the calls of `rlsf_malloc_calls`.
#![tactic(auto)]

mod large_32_exports;
mod large_8_exports;
mod large_exports;
mod ranges;
mod small_exports;
