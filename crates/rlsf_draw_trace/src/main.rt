//! Draws a trace of allocator calls: reads it from standard input, and writes one SVG to standard output. Calls go from left to
//! right, addresses upwards. `rlsf_draw_trace FIRST LAST` draws the calls of these lines of the trace.
//!
//! Read `map.rt` first: it reads and runs the trace. `window.rt` selects calls, `pools.rt` and `boxes.rt` find what is drawn, and
//! `draw.rt` draws it. `scale.rt` and `colour.rt` have places and colours, `legend.rt` and `swatches.rt` what is beside the drawing.
#![tactic(auto)]

mod boxes;
mod colour;
mod draw;
mod legend;
mod map;
mod pools;
mod scale;
mod swatches;
mod window;

use map::map;
use rlsf_trace_runs::status;
use std::env;
use std::process::ExitCode;
use std::rt::Env;
use window::Lines;

fn main(rt: HostRuntime) -> ExitCode {
    let Some(lines) = asked_lines(&rt) else {
        let _ = eprintln!(rt; "usage: rlsf_draw_trace [FIRST LAST] < TRACE");
        return ExitCode::from(2);
    };
    let mut word = None;
    let outcome = map(
        rt.alloc(),
        &mut rt.stdin(),
        &mut rt.stdout(),
        lines,
        &mut word,
    );
    if let Err(fault) = &outcome {
        // If standard error fails too, only the status shows the fault.
        let _ = eprintln!(rt; "{fault}");
        if let Some(word) = &word {
            let _ = eprintln!(rt; "the word is {word:?}");
        }
    }
    ExitCode::from(status(&outcome))
}

/// The lines that the command line asks for, if it is one that the program knows.
fn asked_lines(rt: &(impl Env + AllocGlobal)) -> Option<Lines> {
    let words: Vec<String> = env::args(rt).ok()?.collect(rt.alloc()).ok()?;
    lines_of(words.as_slice())
}

/// The lines that the words of a command line ask for. The first one is the program's name.
fn lines_of(words: &[String]) -> Option<Lines> {
    match words {
        [] | [_] => Some(Lines::ALL),
        [_, first, last] => Some(Lines {
            first: first.parse().ok()?,
            last: last.parse().ok()?,
        }),
        _ => None,
    }
}
