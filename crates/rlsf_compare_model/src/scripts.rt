//! Scripts are run.

use crate::call::{Call, read_call, read_numbers};
use crate::error::{CompareError, Failure, Place};
use crate::reply::Reply;
use crate::{locked, shared};
use rlsf_base::memory::Memory;
use rlsf_global::{GlobalTlsf, Locked, SmallGlobalTlsf, SmallGlobalTlsfOptions};
use std::alloc::Global;
use std::sync::Wait;

/// The allocator of a script.
#[derive(Drop)]
enum Allocator {
    Coalescing(Locked<()>),
    Small(Locked<SmallGlobalTlsfOptions>),
    SharedCoalescing(GlobalTlsf),
    SharedSmall(SmallGlobalTlsf),
}

impl Allocator {
    /// Creates the allocator that a line asks for which begins a script, with its lock or without. Returns `None` for another line.
    fn asked_by(alloc: Global, line: &str, is_shared: bool) -> Result<Option<Allocator>, Failure> {
        if let Some(numbers) = line.strip_prefix("coalescing ") {
            let memory = memory_of(alloc, numbers)?;
            return Ok(Some(Allocator::coalescing(alloc, memory, is_shared)));
        }
        if let Some(numbers) = line.strip_prefix("small ") {
            let memory = memory_of(alloc, numbers)?;
            return Ok(Some(Allocator::small(alloc, memory, is_shared)));
        }
        Ok(None)
    }

    fn coalescing(alloc: Global, memory: Memory, is_shared: bool) -> Allocator {
        if is_shared {
            Allocator::SharedCoalescing(GlobalTlsf::new(alloc, memory))
        } else {
            Allocator::Coalescing(Locked::new(alloc, memory))
        }
    }

    fn small(alloc: Global, memory: Memory, is_shared: bool) -> Allocator {
        if is_shared {
            Allocator::SharedSmall(GlobalTlsf::new(alloc, memory))
        } else {
            Allocator::Small(Locked::new(alloc, memory))
        }
    }

    /// Makes a call.
    fn call<R: Wait>(&mut self, rt: &R, alloc: Global, call: Call) -> Result<Reply, Failure> {
        match self {
            Allocator::Coalescing(allocator) => locked::make(alloc, allocator, call),
            Allocator::Small(allocator) => locked::make(alloc, allocator, call),
            Allocator::SharedCoalescing(allocator) => shared::make(rt, alloc, allocator, call),
            Allocator::SharedSmall(allocator) => shared::make(rt, alloc, allocator, call),
        }
    }
}

/// The memory with the start and the length that the words are.
fn memory_of(alloc: Global, words: &str) -> Result<Memory, Failure> {
    let numbers = read_numbers(alloc, words)?;
    match *numbers.as_slice() {
        [start, len] => Ok(Memory::new(alloc, start, len)?),
        _ => Err(Failure::Line),
    }
}

/// Runs scripts, with locks or without, and returns what they print.
pub(crate) fn output_of<R: Wait>(
    rt: &R,
    alloc: Global,
    text: &str,
    is_shared: bool,
) -> Result<String, CompareError> {
    let mut output = String::new(alloc);
    let mut allocator = None;
    let mut number: usize = 0;
    for line in text.lines() {
        number = number.saturating_add(1);
        let done = run_line(rt, alloc, &mut allocator, line, is_shared, &mut output);
        if let Err(failure) = done {
            return Err(CompareError {
                place: Place::Line(number),
                failure,
            });
        }
    }
    Ok(output)
}

/// Begins a script, or makes a call and prints its reply.
fn run_line<R: Wait>(
    rt: &R,
    alloc: Global,
    allocator: &mut Option<Allocator>,
    line: &str,
    is_shared: bool,
    output: &mut String,
) -> Result<(), Failure> {
    if let Some(new) = Allocator::asked_by(alloc, line, is_shared)? {
        *allocator = Some(new);
        return Ok(());
    }
    let Some(allocator) = allocator else {
        return Err(Failure::Line);
    };
    run_call(rt, alloc, allocator, line, output)
}

/// Makes the call of a line, and prints its reply.
fn run_call<R: Wait>(
    rt: &R,
    alloc: Global,
    allocator: &mut Allocator,
    line: &str,
    output: &mut String,
) -> Result<(), Failure> {
    let call = line.split_once(" = ").map_or(line, |parts| parts.0);
    let reply = allocator.call(rt, alloc, read_call(alloc, call)?)?;
    reply.print(output)?;
    Ok(())
}
