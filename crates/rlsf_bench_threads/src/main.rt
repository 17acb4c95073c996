//! Times threads over one allocator: `rlsf_bench_threads ALLOCATOR SLOTS STEPS THREADS [LEN]`. `global` is a `GlobalTlsf`, `shared` a
//! `SharedHeap`, and `both` is one after the other. `one` is a `SharedHeaps` of one heap, and `set` one of a heap for each thread. Each has
//! `LEN` bytes of memory, or 32 MiB. Each thread has its part of the slots, and makes so many steps. A step draws a slot. If the slot has
//! a payload, the step frees it, and else it allocates one of up to 511 bytes.
//!
//! With `lent` one thread allocates so many payloads of an `OwnerHeap`, and as many others as there are threads free them. At most as many
//! payloads are live as there are slots. Each has its number at both ends. `lent_shared` does that with a `SharedHeap`, and `lent_malloc`
//! with the system's allocator. With `heap` one thread allocates a payload of a `Heap` and frees it, so many times, and with `owner` one of
//! an `OwnerHeap` that has lent nothing.
//!
//! `load.rt` reads the command line. `global.rt`, `shared.rt` and `sets.rt` create the allocators and start the threads. `global_steps.rt`
//! and `shared_steps.rt` have the steps of a thread. `flex.rt` has both. `sent.rt` has the payloads that one thread allocates and others
//! free, `lent.rt` the allocators that they are of, and `pairs.rt` the steps of one thread.
#![tactic(auto)]

mod flex;
mod global;
mod global_steps;
mod lent;
mod load;
mod pairs;
mod sent;
mod sets;
mod shared;
mod shared_steps;

use load::{Allocators, Load, load_of};
use rlsf_bench_common::{BenchError, exit_of};
use std::num::NonZeroUsize;
use std::process::ExitCode;
use std::rt::Env;
use std::sync::Wait;
use std::thread::Threads;

/// Whether `global` is the allocator in a `GlobalTlsf` alone, in one thread, without lock and table. It is a constant, since in a program with
/// both LLVM doesn't inline the same calls.
const ALONE: bool = false;

fn main(rt: HostRuntime) -> ExitCode {
    exit_of(&rt, bench(&rt))
}

/// Reads the command line, and does what it asks for.
fn bench<R: Env + Print + AllocGlobal + Threads + Wait + Sync>(rt: &R) -> Result<(), BenchError> {
    let load = load_of(rt)?;
    match load.allocators {
        Allocators::Global => time_global(rt, load),
        Allocators::Shared => shared::time(rt, load),
        Allocators::Both => time_both(rt, load),
        Allocators::One => sets::time(rt, load, NonZeroUsize::MIN),
        Allocators::Set => sets::time(rt, load, load.threads),
        Allocators::Lent => lent::time(rt, load),
        Allocators::LentShared => lent::time_shared(rt, load),
        Allocators::LentMalloc => lent::time_malloc(rt, load),
        Allocators::Heap => pairs::time_heap(rt, load),
        Allocators::Owner => pairs::time_owner(rt, load),
        Allocators::All => time_all(rt, load),
    }
}

/// Times a `GlobalTlsf`, or the allocator in it.
fn time_global<R: Print + AllocGlobal + Threads + Wait + Sync>(
    rt: &R,
    load: Load,
) -> Result<(), BenchError> {
    if ALONE {
        flex::time(rt, load)
    } else {
        global::time(rt, load)
    }
}

/// Times a `GlobalTlsf` and a `SharedHeap`.
fn time_both<R: Print + AllocGlobal + Threads + Wait + Sync>(
    rt: &R,
    load: Load,
) -> Result<(), BenchError> {
    global::time(rt, load)?;
    shared::time(rt, load)
}

/// Times each allocator.
fn time_all<R: Print + AllocGlobal + Threads + Wait + Sync>(
    rt: &R,
    load: Load,
) -> Result<(), BenchError> {
    time_both(rt, load)?;
    sets::time(rt, load, NonZeroUsize::MIN)?;
    sets::time(rt, load, load.threads)?;
    lent::time(rt, load)?;
    lent::time_shared(rt, load)?;
    lent::time_malloc(rt, load)?;
    pairs::time_heap(rt, load)?;
    pairs::time_owner(rt, load)
}
