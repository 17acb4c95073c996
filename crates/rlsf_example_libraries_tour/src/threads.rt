//! Payloads that go from threads to threads through a `MessageQueue`.
//!
//! `messages.rt` makes and reads a message. In `queue.rt` four threads send and one receives, and in `leaving.rt` the receiver leaves
//! early.

mod leaving;
mod messages;
mod queue;

use crate::error::TourError;
use leaving::received_first;
use queue::four_to_one;
use std::sync::Wait;
use std::thread::Threads;

/// Prints what both exchanges leave.
pub(crate) fn show<R: Print + AllocGlobal + Threads + Wait + Sync>(
    rt: &R,
) -> Result<(), TourError> {
    print_four_to_one(rt)?;
    print_received(rt)
}

/// Prints what threads leave that send messages through a queue.
fn print_four_to_one<R: Print + AllocGlobal + Threads + Wait + Sync>(
    rt: &R,
) -> Result<(), TourError> {
    let Some(seen) = four_to_one(rt, rt.alloc()) else {
        return Ok(println!(rt; "out of memory")?);
    };
    println!(rt;
        "through a queue: {} refused, {} received, their sum {}, {} live",
        seen.refused, seen.received.messages, seen.received.sum, seen.live
    )?;
    Ok(())
}

/// Prints what a receiver leaves that leaves early.
fn print_received<R: Print + AllocGlobal + Threads + Wait + Sync>(rt: &R) -> Result<(), TourError> {
    let Some((received, live)) = received_first(rt, rt.alloc()) else {
        return Ok(println!(rt; "out of memory")?);
    };
    println!(rt;
        "by one that leaves early: {} received, their sum {}, {live} live",
        received.messages, received.sum
    )?;
    Ok(())
}
