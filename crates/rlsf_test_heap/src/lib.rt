//! Tests of `rlsf_heap`, `rlsf_local_heap` and `rlsf_partitions`. This crate has no other code, so that these are proved once.
//!
//! In reading order: `answers` has the assertions; `pair` and `growing` are programs without a proof file; `rows` and `resized_rows`
//! compare the addresses of payloads with worked examples, as tables of steps; `ends` shows that dropped heaps deallocate their memory;
//! `lent` lends ranges, and gets them back; `local` has collections in a heap, `in_place` vectors that grow and shrink there, `sizes`
//! blocks of each size, and `printed` what is printed of one; `pools` fills new heaps and tenants; `partitions` has pools by size; `raw` takes a payload apart; `thin` has
//! payloads by their address, in `unknown_align` also of any alignment.
#![tactic(auto)]

#[cfg(test)]
mod answers;
#[cfg(test)]
mod ends;
#[cfg(test)]
mod growing;
#[cfg(test)]
mod in_place;
#[cfg(test)]
mod lent;
#[cfg(test)]
mod local;
#[cfg(test)]
mod pair;
#[cfg(test)]
mod partitions;
#[cfg(test)]
mod pools;
#[cfg(test)]
mod printed;
#[cfg(test)]
mod raw;
#[cfg(test)]
mod resized_rows;
#[cfg(test)]
mod rows;
#[cfg(test)]
mod sizes;
#[cfg(test)]
mod thin;
#[cfg(test)]
mod unknown_align;
