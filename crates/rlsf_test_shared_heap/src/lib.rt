//! Tests of `rlsf_shared_heap`, and of queues between threads. This crate has no other code, so that these are proved once.
//!
//! In reading order: `answers` has the assertions; `shared` and `returned` share a heap between threads, and take it apart again;
//! `shared_rows` has the addresses of its payloads, and `payloads` of those that know their heap; `sets` has several heaps; `sent` sends
//! payloads between threads, and `queue` numbers; `owners` has a heap whose thread never waits, and `givers` threads that
//! return its payloads; `drops` shows that dropped heaps deallocate their memory, and that raw payloads aren't written.
#![tactic(auto)]

#[cfg(test)]
mod answers;
#[cfg(test)]
mod drops;
#[cfg(test)]
mod givers;
#[cfg(test)]
mod owners;
#[cfg(test)]
mod payloads;
#[cfg(test)]
mod queue;
#[cfg(test)]
mod returned;
#[cfg(test)]
mod sent;
#[cfg(test)]
mod sets;
#[cfg(test)]
mod shared;
#[cfg(test)]
mod shared_rows;
