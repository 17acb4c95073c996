//! The memory of a GPU: buffers and textures are allocated and freed in another order. Lines and a map show where those lie that are left.
//! Then a file of pages that grows: a record that finds no room makes the file longer. Last the calls that standard input has (`script`).
#![tactic(auto)]

mod pages;
mod script;

use rlsf_offsets::{OffsetTlsf, Piece, Stats};
use std::io;

const MIB: usize = 1 << 20;

/// A buffer or a texture: the letter that shows it, its offset and its length.
#[derive(Clone, Copy)]
struct Resource {
    letter: char,
    offset: usize,
    len: usize,
}

/// Allocates resources of 256 MiB, frees two of them, and halves one in place.
fn resources(memory: &mut OffsetTlsf<256>) -> Option<[Resource; 3]> {
    let vertices = memory.allocate(40 * MIB, 256)?;
    let texture = memory.allocate(64 * MIB, 65536)?;
    let indices = memory.allocate(10000000, 16)?;
    let shadows = memory.allocate(32 * MIB, 65536)?;
    memory.reallocate_in_place(shadows, 16 * MIB);
    let indices_len = memory.len(indices);
    let shadows_len = memory.len(shadows);
    memory.deallocate(texture);
    memory.deallocate(vertices);
    let frame = memory.allocate(100 * MIB, 65536)?;
    let frame_len = memory.len(frame);
    Some([
        Resource {
            letter: 'i',
            offset: indices,
            len: indices_len,
        },
        Resource {
            letter: 's',
            offset: shadows,
            len: shadows_len,
        },
        Resource {
            letter: 'f',
            offset: frame,
            len: frame_len,
        },
    ])
}

/// Returns the letter of the resource that has the byte at an offset, or a dot if none has.
fn letter_at(resources: &[Resource; 3], at: usize) -> char {
    for resource in resources.iter() {
        // A difference below 0 wraps to more than any length.
        if at.wrapping_sub(resource.offset) < resource.len {
            return resource.letter;
        }
    }
    '.'
}

/// Prints each piece of the memory.
fn print_pieces(rt: &HostRuntime, memory: &OffsetTlsf<256>) -> io::Result<()> {
    for piece in memory.pieces() {
        let Piece {
            offset,
            len,
            is_free,
        } = piece;
        let state = if is_free { "free" } else { "used" };
        println!(rt; "{offset}: {len} bytes {state}")?;
    }
    Ok(())
}

/// Prints the totals of the memory.
fn print_stats(rt: &HostRuntime, memory: &OffsetTlsf<256>) -> io::Result<()> {
    let Stats {
        ranges,
        used,
        free,
        longest,
    } = memory.stats();
    println!(rt; "{ranges} ranges: {used} bytes used, {free} free, {longest} side by side")
}

/// Prints where each resource lies.
fn print_resources(rt: &HostRuntime, resources: &[Resource; 3]) -> io::Result<()> {
    for resource in resources.iter() {
        let Resource {
            letter,
            offset,
            len,
        } = *resource;
        println!(rt; "{letter}: {len} bytes at {offset}")?;
    }
    Ok(())
}

/// Prints a map: a letter shows what lies at the first byte of each 4 MiB.
fn print_map(rt: &HostRuntime, resources: &[Resource; 3]) -> io::Result<()> {
    for cell in 0..64usize {
        let letter = letter_at(resources, cell * 4 * MIB);
        print!(rt; "{letter}")?;
    }
    println!(rt; "")
}

/// Allocates the resources, and prints what the memory has.
fn print_memory(rt: &HostRuntime, memory: &mut OffsetTlsf<256>) -> io::Result<()> {
    let Some(resources) = resources(memory) else {
        return println!(rt; "no room");
    };
    print_resources(rt, &resources)?;
    print_pieces(rt, memory)?;
    print_stats(rt, memory)?;
    print_map(rt, &resources)
}

/// Divides the memory of a GPU.
fn divide_memory(rt: &HostRuntime) -> io::Result<()> {
    let Ok(mut memory) = OffsetTlsf::<256>::new(rt.alloc(), 256 * MIB) else {
        return println!(rt; "out of memory");
    };
    print_memory(rt, &mut memory)
}

fn main(rt: HostRuntime) -> io::Result<()> {
    divide_memory(&rt)?;
    pages::print_pages(&rt)?;
    script::run_input(&rt)
}
