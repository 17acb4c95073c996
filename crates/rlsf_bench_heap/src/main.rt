//! Times a heap: `rlsf_bench_heap SLOTS STEPS` does to a `Heap` what `rlsf_bench_aligned 64x64 SLOTS STEPS free` does to a `Tlsf`, and
//! prints the same line. `rlsf_bench_heap SLOTS STEPS addresses` prints a line for each allocation: what a `Heap` returns, and what a
//! `Tlsf` returns for the same calls.
//!
//! `slots.rt` has the steps, `tally.rt` the checksum, and `addresses.rt` the lines of addresses.
#![tactic(auto)]

mod addresses;
mod slots;
mod tally;

use addresses::write_addresses;
use rlsf_base::memory::Range;
use rlsf_bench_common::{BenchError, exit_of};
use std::env;
use std::io::{BufWriter, Write};
use std::num::NonZeroUsize;
use std::process::ExitCode;
use tally::tally_of;

/// The arguments that the program takes.
const USAGE: &str =
    "usage: rlsf_bench_heap SLOTS STEPS, with SLOTS from 1 on, or rlsf_bench_heap SLOTS STEPS addresses";

/// The addresses of the pool.
const POOL: Range = Range {
    start: 4096,
    len: 1 << 25,
};

/// The addresses of the memory, as those of `rlsf_bench`.
const MEMORY: Range = Range {
    start: 4096 - 48,
    len: (1 << 25) + 48,
};

/// What the command line asks for.
#[derive(Clone, Copy)]
struct Load {
    /// How many payloads can be live at once.
    slots: NonZeroUsize,
    /// How often a payload is allocated or deallocated.
    steps: usize,
    /// Whether the addresses are printed.
    addresses: bool,
}

fn main(rt: HostRuntime) -> ExitCode {
    exit_of(&rt, bench(&rt))
}

/// Reads the command line, does what it asks for, and prints the result.
fn bench(rt: &HostRuntime) -> Result<(), BenchError> {
    let words: Vec<String> = env::args(rt)?.collect(rt.alloc())?;
    let load = load_of(&words).ok_or(BenchError::Usage(USAGE))?;
    if load.addresses {
        let mut out = BufWriter::new(rt.alloc(), rt.stdout())?;
        write_addresses(rt.alloc(), &mut out, load.slots, load.steps)?;
        out.flush()?;
    } else {
        let tally = tally_of(rt.alloc(), load.slots, load.steps)?;
        println!(rt; "{tally}")?;
    }
    Ok(())
}

/// What the words of a command line ask for. `None` if a word is missing, wrong or too many.
fn load_of(words: &[String]) -> Option<Load> {
    let (slots, steps, addresses) = match words {
        [_, slots, steps] => (slots, steps, false),
        [_, slots, steps, word] if word.as_str() == "addresses" => (slots, steps, true),
        _ => return None,
    };
    Some(Load {
        slots: slots.parse().ok()?,
        steps: steps.parse().ok()?,
        addresses,
    })
}
