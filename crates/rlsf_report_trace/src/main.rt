//! Counts what a trace of allocator calls does: reads it from standard input, and writes a table to standard output. With `--csv` it
//! writes a line for each call instead.
//!
//! Read `report.rt` first. `kinds.rt` and `counts.rt` count the calls, `refusals.rt` lists those that are refused, `summary.rt` and
//! `sizes.rt` count payloads and bytes, and `advice.rt` computes lengths of pools. `table.rt` and `csv.rt` print.
#![tactic(auto)]

mod advice;
mod counts;
mod csv;
mod kinds;
mod refusals;
mod report;
mod sizes;
mod summary;
mod table;

use report::{Form, report};
use rlsf_trace_runs::status;
use std::env;
use std::process::ExitCode;
use std::rt::Env;

fn main(rt: HostRuntime) -> ExitCode {
    let Some(form) = asked_form(&rt) else {
        let _ = eprintln!(rt; "usage: rlsf_report_trace [--csv] < TRACE");
        return ExitCode::from(2);
    };
    let mut word = None;
    let outcome = report(
        rt.alloc(),
        &mut rt.stdin(),
        &mut rt.stdout(),
        form,
        &mut word,
    );
    if let Err(fault) = &outcome {
        // If standard error fails too, only the status shows the fault.
        let _ = eprintln!(rt; "{fault}");
        if let Some(word) = &word {
            let _ = eprintln!(rt; "the word is {word:?}");
        }
    }
    ExitCode::from(status(&outcome))
}

/// What the command line asks for, if it is one that the program knows.
fn asked_form(rt: &(impl Env + AllocGlobal)) -> Option<Form> {
    let words: Vec<String> = env::args(rt).ok()?.collect(rt.alloc()).ok()?;
    match words.as_slice() {
        [] | [_] => Some(Form::Table),
        [_, word] if word.as_str() == "--csv" => Some(Form::Csv),
        _ => None,
    }
}
