//! Calls of the libraries of `rlsf_example_libraries`, on small memories, with values worked out by hand.
//!
//! A memory from the address 4096 on loses 32 bytes to the word behind its last block. A list of up to 16 bytes takes 32 of the
//! others.

mod drawing;
mod longest;
mod objects;
mod owned;
mod queues;
mod strings;
