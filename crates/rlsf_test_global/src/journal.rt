//! Calls of a `Journaled`, and of eight threads that share one.

mod calls;
mod threads;

pub use calls::{agreed, over};
