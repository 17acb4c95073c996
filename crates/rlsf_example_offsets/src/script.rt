//! Calls of a `CheckedOffsets` that standard input has, and what they return.
//!
//! The text has scripts. A script begins with a line `space UNIT LEN LIMIT`, whose unit is 1, 256, 4096 or 65536. Each other line is a call:
//! `allocate LEN ALIGN`, `deallocate OFFSET`, `resize OFFSET LEN`, `grow LEN`, `len OFFSET` or `pieces`. The reply is a number, `done`, the name
//! of an error, or for each piece its offset, its length and a star if it is free.

use rlsf_offsets::{CheckedOffsets, OffsetError, Piece};
use std::alloc::Global;
use std::io;

/// Runs the scripts of standard input, and prints what their calls return. A line that is no call ends a script.
pub(crate) fn run_input(rt: &HostRuntime) -> io::Result<()> {
    let text = io::read_to_string(rt.alloc(), rt.stdin())?;
    print_scripts(rt, &text)
}

fn print_scripts(rt: &HostRuntime, text: &str) -> io::Result<()> {
    for script in text.split("space ") {
        print_script(rt, script)?;
    }
    Ok(())
}

fn print_script(rt: &HostRuntime, script: &str) -> io::Result<()> {
    let mut output = String::new(rt.alloc());
    let end = match run_script(rt.alloc(), script, &mut output) {
        Some(()) => "",
        None => "no such line\n",
    };
    print!(rt; "{output}{end}")
}

/// Runs a script. An empty one does nothing.
fn run_script(alloc: Global, script: &str, output: &mut String) -> Option<()> {
    let Some((first, calls)) = script.split_once('\n') else {
        return Some(());
    };
    let Some((unit, lengths)) = first.split_once(' ') else {
        return None;
    };
    let Some((len, limit)) = two_numbers(lengths) else {
        return None;
    };
    run_unit(alloc, unit, len, limit, calls, output)
}

/// Makes the calls in a new space of that unit.
fn run_unit(
    alloc: Global,
    unit: &str,
    len: usize,
    limit: usize,
    calls: &str,
    output: &mut String,
) -> Option<()> {
    match unit {
        "1" => run_calls::<1>(alloc, len, limit, calls, output),
        "256" => run_calls::<256>(alloc, len, limit, calls, output),
        "4096" => run_calls::<4096>(alloc, len, limit, calls, output),
        "65536" => run_calls::<65536>(alloc, len, limit, calls, output),
        _ => None,
    }
}

/// Makes a space, and the calls in it.
fn run_calls<const UNIT: usize>(
    alloc: Global,
    len: usize,
    limit: usize,
    calls: &str,
    output: &mut String,
) -> Option<()> {
    match CheckedOffsets::<UNIT>::new(alloc, len, limit) {
        Ok(mut space) => run_lines(&mut space, calls, output),
        Err(_) => None,
    }
}

fn run_lines<const UNIT: usize>(
    space: &mut CheckedOffsets<UNIT>,
    calls: &str,
    output: &mut String,
) -> Option<()> {
    for line in calls.lines() {
        run_line(space, line, output)?;
    }
    Some(())
}

/// Makes the call of a line.
fn run_line<const UNIT: usize>(
    space: &mut CheckedOffsets<UNIT>,
    line: &str,
    output: &mut String,
) -> Option<()> {
    if line == "pieces" {
        return print_pieces(space, output);
    }
    let Some((word, rest)) = line.split_once(' ') else {
        return None;
    };
    match two_numbers(rest) {
        Some((first, second)) => call_with_two(space, word, first, second, output),
        None => call_with_one(space, word, rest, output),
    }
}

/// Makes a call that has two arguments.
fn call_with_two<const UNIT: usize>(
    space: &mut CheckedOffsets<UNIT>,
    word: &str,
    first: usize,
    second: usize,
    output: &mut String,
) -> Option<()> {
    match word {
        "allocate" => print_number(space.allocate(first, second), output),
        "resize" => print_done(space.reallocate_in_place(first, second), output),
        _ => None,
    }
}

/// Makes a call that has one argument.
fn call_with_one<const UNIT: usize>(
    space: &mut CheckedOffsets<UNIT>,
    word: &str,
    rest: &str,
    output: &mut String,
) -> Option<()> {
    let argument = number(rest)?;
    match word {
        "deallocate" => print_done(space.deallocate(argument), output),
        "grow" => print_done(space.grow(argument), output),
        "len" => print_number(space.len(argument), output),
        _ => None,
    }
}

/// Reads two numbers with a space between them.
fn two_numbers(text: &str) -> Option<(usize, usize)> {
    let Some((first, second)) = text.split_once(' ') else {
        return None;
    };
    number(first).zip(number(second))
}

/// Reads a number.
fn number(text: &str) -> Option<usize> {
    text.parse().ok()
}

fn print_number(reply: Result<usize, OffsetError>, output: &mut String) -> Option<()> {
    match reply {
        Ok(number) => writeln!(output, "{number}").ok(),
        Err(error) => print_error(error, output),
    }
}

fn print_done(reply: Result<(), OffsetError>, output: &mut String) -> Option<()> {
    match reply {
        Ok(()) => writeln!(output, "done").ok(),
        Err(error) => print_error(error, output),
    }
}

fn print_error(error: OffsetError, output: &mut String) -> Option<()> {
    writeln!(output, "{error:?}").ok()
}

fn print_pieces<const UNIT: usize>(
    space: &CheckedOffsets<UNIT>,
    output: &mut String,
) -> Option<()> {
    for piece in space.pieces() {
        print_piece(piece, output)?;
    }
    writeln!(output, "").ok()
}

fn print_piece(piece: Piece, output: &mut String) -> Option<()> {
    let Piece {
        offset,
        len,
        is_free,
    } = piece;
    let star = if is_free { "*" } else { "" };
    write!(output, "{offset} {len}{star} ").ok()
}
