//! The steps of the benchmarks: payloads are allocated into slots, and freed or reallocated. Their order seems random, and is the
//! same in each run.
//! A program says whether each call has a function of its own, and how many alignments there are. It makes no other calls: in a
//! program with more calls, LLVM doesn't inline the same ones.
//!
//! Read `steps.rt` first: the run and its step. `calls.rt` calls the allocator, `random.rt` draws the numbers, `tally.rt` has the
//! checksum, and `arguments.rt` reads the command line. `exit_of` ends a benchmark, and `error.rt` has what ends it early.
#![tactic(auto)]

ghost use Rattle.std.specs.Prelude.{◌≡◌, ◌<◌, IfOk, IfErr};
ghost use Rattle.rlsf_bench_common.specs.Runs.{IsAsked};

mod arguments;
mod calls;
mod error;
mod random;
mod steps;
mod tally;

use arguments::{Arguments, Configuration};
pub use error::BenchError;
pub use random::Xorshift;
use rlsf_base::memory::Range;
use rlsf_tlsf::Tlsf;
use std::alloc::Global;
use std::env;
use std::process::ExitCode;
use std::rt::Env;
use steps::{memory_of, run};
use tally::Tally;

/// The arguments that a program takes.
const USAGE: &str =
    "the arguments are 12x16|59x8|64x64 SLOTS SIZES STEPS free|realloc, with SLOTS from 1 on, and SIZES from 1 to 65535";

/// The addresses of the pool.
const POOL: Range = Range {
    start: 4096,
    len: 1 << 25,
};

/// The addresses of the memory. The system returns a block of this length 16 bytes past the beginning of a page. With 48 bytes more
/// before the pool, no block's links lie across two of its cache lines, as in the original.
const MEMORY: Range = Range {
    start: 4096 - 48,
    len: (1 << 25) + 48,
};

/// Reads the command line, does what it asks for on slots of so many alignments, and prints the tally. An error is printed to
/// standard error.
///
/// Returns the exit status of the program: a failure exactly for an error.
pub fn main_of<R: Env + Print + Eprint + AllocGlobal, const CALLED: bool, const ALIGNS: usize>(
    rt: &R,
) -> ExitCode
    requires { (0 < ALIGNS) × (ALIGNS < 64) }
{
    exit_of(rt, bench::<R, CALLED, ALIGNS>(rt))
}

/// The exit status of a program that ended so: a failure exactly for an error. The error is printed to standard error.
pub fn exit_of<R: Eprint>(rt: &R, ended: Result<(), BenchError>) -> ExitCode {
    match ended {
        Ok(()) => ExitCode::SUCCESS,
        Err(error) => {
            // If standard error fails too, only the status shows the error.
            let _ = eprintln!(rt; "{error}");
            ExitCode::FAILURE
        }
    }
}

/// Reads the command line, does what it asks for on slots of so many alignments, and prints the tally.
fn bench<R: Env + Print + AllocGlobal, const CALLED: bool, const ALIGNS: usize>(
    rt: &R,
) -> Result<(), BenchError>
    requires { (0 < ALIGNS) × (ALIGNS < 64) }
{
    let arguments = arguments_of(rt)?;
    let tally = tally_of::<CALLED, ALIGNS>(rt.alloc(), arguments)?;
    println!(rt; "{tally}").map_err(BenchError::Io)
}

/// What the command line asks for.
fn arguments_of<R: Env + AllocGlobal>(rt: &R) -> Result<Arguments, BenchError> {
    let words: Vec<String> = env::args(rt)?.collect(rt.alloc())?;
    Arguments::read(&words).ok_or(BenchError::Usage(USAGE))
}

/// Does the steps that are asked for, with the configuration's allocator.
fn tally_of<const CALLED: bool, const ALIGNS: usize>(
    alloc: Global,
    arguments: Arguments,
) -> Result<Tally, BenchError>
    requires { (0 < ALIGNS) × (ALIGNS < 64) }
    ensures ok { IfOk result (IsAsked arguments ALIGNS) }
    ensures err { IfErr result (λ error. error ≡ BenchError.OutOfMemory) }
{
    let Arguments {
        configuration,
        slots,
        sizes,
        steps,
        mode,
    } = arguments;
    let memory = memory_of(alloc, MEMORY)?;
    match configuration {
        Configuration::TwelveBySixteen => {
            run::<u16, u16, 12, 16, CALLED, ALIGNS>(
                alloc,
                Tlsf::<u16, u16, 12, 16>::new(memory),
                POOL,
                slots,
                sizes,
                steps,
                mode,
            )
        }
        Configuration::FiftyNineByEight => {
            run::<u64, u64, 59, 8, CALLED, ALIGNS>(
                alloc,
                Tlsf::<u64, u64, 59, 8>::new(memory),
                POOL,
                slots,
                sizes,
                steps,
                mode,
            )
        }
        Configuration::SixtyFourBySixtyFour => {
            run::<usize, usize, 64, 64, CALLED, ALIGNS>(
                alloc,
                Tlsf::<usize, usize, 64, 64>::new(memory),
                POOL,
                slots,
                sizes,
                steps,
                mode,
            )
        }
    }
}
