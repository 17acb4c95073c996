//! The calls of a script, and how they are read.

use crate::error::Failure;
use rlsf_base::memory::{Addr, Layout};
use std::alloc::Global;

/// A call.
#[derive(Clone, Copy)]
pub(crate) enum Call {
    /// `alloc`
    Alloc(Layout),
    /// `allocate`
    Allocate(Layout),
    /// `dealloc`
    Dealloc(Addr, Layout),
    /// `deallocate`
    Deallocate(Addr),
    /// `realloc`, with the new size.
    Realloc(Addr, Layout, usize),
    /// `reallocate`
    Reallocate(Addr, Layout),
    /// `reallocate_no_move`, with the new size.
    ReallocateNoMove(Addr, Layout, usize),
    /// `allocation_usable_size`
    Usable(Addr),
    /// `write_payload`: the offset, how many bytes, and the first one.
    Write(Addr, usize, usize, u8),
    /// `read_payload`: the offset, and how many bytes.
    Read(Addr, usize, usize),
}

/// Reads a call from its line.
pub(crate) fn read_call(alloc: Global, line: &str) -> Result<Call, Failure> {
    let Some((word, rest)) = line.split_once(' ') else {
        return Err(Failure::Line);
    };
    let numbers = read_numbers(alloc, rest)?;
    let call = match *numbers.as_slice() {
        [addr] => with_one(word, addr),
        [size, align] => with_two(word, size, align),
        [addr, second, third] => with_three(word, addr, second, third),
        [addr, second, third, fourth] => with_four(word, addr, [second, third, fourth]),
        _ => None,
    };
    call.ok_or(Failure::Line)
}

fn with_one(word: &str, addr: usize) -> Option<Call> {
    let addr = Addr::new(addr)?;
    match word {
        "cdeallocate" => Some(Call::Deallocate(addr)),
        "usable" => Some(Call::Usable(addr)),
        _ => None,
    }
}

fn with_two(word: &str, size: usize, align: usize) -> Option<Call> {
    let layout = Layout::from_size_align(size, align).ok()?;
    match word {
        "alloc" => Some(Call::Alloc(layout)),
        "callocate" => Some(Call::Allocate(layout)),
        _ => None,
    }
}

fn with_three(word: &str, addr: usize, second: usize, third: usize) -> Option<Call> {
    let addr = Addr::new(addr)?;
    if word == "read" {
        return Some(Call::Read(addr, second, third));
    }
    let layout = Layout::from_size_align(second, third).ok()?;
    match word {
        "dealloc" => Some(Call::Dealloc(addr, layout)),
        "creallocate" => Some(Call::Reallocate(addr, layout)),
        _ => None,
    }
}

fn with_four(word: &str, addr: usize, rest: [usize; 3]) -> Option<Call> {
    let addr = Addr::new(addr)?;
    let [second, third, fourth] = rest;
    if word == "write" {
        let byte = u8::try_from(fourth).ok()?;
        return Some(Call::Write(addr, second, third, byte));
    }
    let layout = Layout::from_size_align(second, third).ok()?;
    match word {
        "realloc" => Some(Call::Realloc(addr, layout, fourth)),
        "norealloc" => Some(Call::ReallocateNoMove(addr, layout, fourth)),
        _ => None,
    }
}

/// Reads numbers, with a space between them.
pub(crate) fn read_numbers(alloc: Global, text: &str) -> Result<Vec<usize>, Failure> {
    let mut numbers = Vec::new(alloc);
    for word in text.split(' ') {
        let Ok(number) = word.parse() else {
            return Err(Failure::Line);
        };
        numbers.push(number)?;
    }
    Ok(numbers)
}

/// So many bytes from a first one on, each one more than the one before it, modulo 256.
pub(crate) fn rising(alloc: Global, len: usize, first: u8) -> Result<Vec<u8>, Failure> {
    let mut bytes = Vec::new(alloc);
    let mut byte = first;
    for _ in 0..len {
        bytes.push(byte)?;
        byte = byte.wrapping_add(1);
    }
    Ok(bytes)
}
