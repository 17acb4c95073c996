//! A tour: first calls of an allocator, then the small libraries of `rlsf_example_libraries`, and last lengths of pools. Of the libraries
//! it prints a fixed script, and a picture of the pool after each step.
//!
//! `sources.rt` is a complete program, which can be the `main.rt` of a crate of its own. `first.rt` has the first calls. `messages.rt`,
//! `latest.rt`, `objects.rt`, `strings.rt` and `threads.rt` have the parts of the script, in this order. `lengths.rt` has the tables of
//! lengths, and `rows.rt` their lines. `answer.rt` and `error.rt` print answers and errors.
#![tactic(auto)]

mod answer;
mod error;
mod first;
mod latest;
mod lengths;
mod messages;
mod objects;
mod rows;
mod sources;
mod strings;
mod threads;

use error::TourError;
use rlsf::Blocks;
use rlsf_example_libraries::picture;
use std::fmt::Display;
use std::process::ExitCode;
use std::sync::Wait;
use std::thread::Threads;

/// The number of marks for a complete pool.
const WIDTH: usize = 40;

fn main(rt: HostRuntime) -> ExitCode {
    if sources::main(rt).is_err() {
        return ExitCode::FAILURE;
    }
    match tour(&rt) {
        Ok(()) => ExitCode::SUCCESS,
        Err(error) => {
            // If standard error fails too, only the status reports the error.
            let _ = eprintln!(rt; "{error}");
            ExitCode::FAILURE
        }
    }
}

fn tour<R: Print + AllocGlobal + Threads + Wait + Sync>(rt: &R) -> Result<(), TourError> {
    first::show(rt)?;
    messages::show(rt)?;
    latest::show(rt)?;
    objects::show(rt)?;
    strings::show(rt)?;
    threads::show(rt)?;
    lengths::show(rt)
}

/// Prints what was done, and the blocks of the pool behind it.
fn draw(
    rt: &(impl Print + AllocGlobal),
    done: impl Display + Drop,
    blocks: Blocks<'_>,
) -> Result<(), TourError> {
    rt.println(done)?;
    let picture = picture(rt.alloc(), blocks, WIDTH)?;
    Ok(rt.println(picture)?)
}
