//! Times the allocator: `rlsf_bench CONFIG SLOTS SIZES STEPS MODE` allocates payloads into slots, and frees or reallocates them. Their
//! order and sizes, below `SIZES`, seem random, and are the same in each run.
//!
//! The body is `main_of` of `rlsf_bench_common`, with these parameters. `tools/measure bench` also builds the program with others of them.
#![tactic(auto)]

use rlsf_bench_common::main_of;
use std::process::ExitCode;

/// Whether each call has a function of its own.
const CALLED: bool = false;

/// How many alignments the slots have.
const ALIGNS: usize = 1;

fn main(rt: HostRuntime) -> ExitCode {
    main_of::<_, CALLED, ALIGNS>(&rt)
}
