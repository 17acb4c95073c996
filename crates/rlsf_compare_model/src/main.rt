//! Runs what the reference model in Python ran, to compare the two: traces with allocators over sources that follow lists of answers, and
//! scripts with the allocator behind the lock. It reads both from standard input, and writes what they reply to standard output.
//!
//! Read `replays.rt` first, for the traces: `reading.rt` reads their runs, and `output.rt` prints them. `scripts.rt` runs the calls of
//! `call.rt`, by `locked.rt` and by `shared.rt`, and `reply.rt` prints their replies. `error.rt` has the errors.
//!
//! The runs come first, and behind a line `scripts` the scripts; either may be left out. A text of another form ends the program with
//! status 1.
//!
//! # Runs
//!
//! A run begins with a line `run CAPABILITIES MIN_ALIGN`. CAPABILITIES is what its source can do: some of `dealloc`, `grow` and
//! `contiguous`, with `+` between them, or `-` for none. MIN_ALIGN is a power of two, of which the starts of its ranges are
//! multiples.
//!
//! Then come the source's answers to its questions, each in a line. `answer START LEN` provides a range, `answer LEN` grows one, and
//! `answer none` refuses. An answer that the source may not give counts as none, and so does each one past the last.
//!
//! Then comes the text of a trace, whose memory is the source's space. Behind the trace's first line there may be lines `trim`. They
//! are no lines of the trace, and aren't counted in the line number of a fault.
//!
//! The output of a run begins with a line `run NUMBER`, counted from 1. Then it has a line for each op, as in the replay of a
//! trace. A trim has a line `trim COUNT`, with the number of ranges that returned. At the end it has a line for each question:
//!
//! - `asked 96 got 4097 96` for a range, or `got none`;
//! - `asked 4097 96 to grow to 159 got 159` for growth, or `got none`;
//! - `given back 4097 159` for a range that returns to the source.
//!
//! The script `random_runs.py` writes the runs and the model's output for them. The first ones are random. The last ones are those of
//! the original's tests of this allocator, which interpret fixed lists of random bytes as calls.
//!
//! # Scripts
//!
//! All scripts are run with `Locked`, the value in the lock, and then once more with `GlobalTlsf`, which makes the same calls through
//! the lock. The output of both follows a line `scripts`.
//!
//! A script begins with a line `KIND START LEN`: KIND is `coalescing` or `small`, and START and LEN are the memory's. Each other line is
//! a call. What a line has from ` = ` on is left out.
//!
//! | Line | Makes the call |
//! |---|---|
//! | `alloc SIZE ALIGN`, `callocate SIZE ALIGN` | `alloc`, `allocate` |
//! | `dealloc ADDR SIZE ALIGN`, `cdeallocate ADDR` | `dealloc`, `deallocate` |
//! | `realloc ADDR SIZE ALIGN NEW`, `creallocate ADDR SIZE ALIGN` | `realloc`, `reallocate` |
//! | `norealloc ADDR SIZE ALIGN NEW` | `reallocate_no_move` |
//! | `usable ADDR` | `allocation_usable_size` |
//! | `write ADDR OFFSET LEN BYTE` | `write_payload` of LEN bytes, from BYTE on, each one more than the one before it, modulo 256 |
//! | `read ADDR OFFSET LEN` | `read_payload` |
//!
//! A reply is `at ADDR`, `done`, `size N`, `bytes B,B,..` or the name of the error.
//!
//! The script `random_scripts.py` makes random scripts and compares the replies with the model's.
#![tactic(auto)]

mod call;
mod error;
mod locked;
mod output;
mod reading;
mod replays;
mod reply;
mod scripts;
mod shared;

use error::{CompareError, Failure, Place};
use std::io;
use std::process::ExitCode;
use std::sync::Wait;

fn main(rt: HostRuntime) -> ExitCode {
    match compare(&rt) {
        Ok(()) => ExitCode::SUCCESS,
        Err(error) => {
            // If standard error fails too, only the status shows the error.
            let _ = eprintln!(rt; "{error}");
            ExitCode::FAILURE
        }
    }
}

/// Replays the runs, and then runs the scripts.
fn compare(rt: &(impl Input + Print + AllocGlobal + Wait)) -> Result<(), CompareError> {
    let input = io::read_to_string(rt.alloc(), rt.reader()).map_err(|error| at(
        Place::Input,
        error.into(),
    ))?;
    let (runs, scripts) = parts_of(&input);
    if !runs.is_empty() {
        replay(rt, runs)?;
    }
    if scripts.is_empty() {
        return Ok(());
    }
    run_scripts(rt, scripts)
}

/// The text of the runs and that of the scripts. Each is empty if there are none.
fn parts_of(input: &str) -> (&str, &str) {
    match input.strip_prefix("scripts\n") {
        Some(scripts) => ("", scripts),
        None => input.split_once("\nscripts\n").unwrap_or((input, "")),
    }
}

/// Replays all runs, and prints each before the next is begun.
fn replay(rt: &(impl Print + AllocGlobal), text: &str) -> Result<(), CompareError> {
    let runs = text
        .strip_prefix("run ")
        .ok_or(at(Place::Input, Failure::Head))?;
    let mut number: usize = 0;
    for text in runs.split("\nrun ") {
        number = number.saturating_add(1);
        replay_run(rt, number, text).map_err(|failure| at(Place::Run(number), failure))?;
    }
    Ok(())
}

fn replay_run(rt: &(impl Print + AllocGlobal), number: usize, text: &str) -> Result<(), Failure> {
    let output = replays::output_of(rt.alloc(), text)?;
    Ok(print!(rt; "run {number}\n{output}")?)
}

/// Runs all scripts without locks and with them, and then prints the replies.
fn run_scripts(rt: &(impl Print + AllocGlobal + Wait), text: &str) -> Result<(), CompareError> {
    let locked = scripts::output_of(rt, rt.alloc(), text, false)?;
    let shared = scripts::output_of(rt, rt.alloc(), text, true)?;
    print!(rt; "scripts\n{locked}{shared}").map_err(|error| at(Place::Input, error.into()))
}

fn at(place: Place, failure: Failure) -> CompareError {
    CompareError { place, failure }
}
