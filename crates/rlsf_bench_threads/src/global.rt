//! Threads over a `GlobalTlsf`. They do to it what `rlsf_bench 64x64 SLOTS STEPS free` does to a `Tlsf`.

use crate::global_steps::{Tally, run};
use crate::load::Load;
use rlsf_base::memory::Memory;
use rlsf_bench_common::BenchError;
use rlsf_global::GlobalTlsf;
use std::alloc::{AllocError, Global};
use std::num::NonZeroUsize;
use std::sync::Wait;
use std::thread;
use std::thread::Threads;

/// Does the steps that are asked for, and prints their tally.
pub(crate) fn time<R: Print + AllocGlobal + Threads + Wait + Sync>(
    rt: &R,
    load: Load,
) -> Result<(), BenchError> {
    let shared = GlobalTlsf::new(rt.alloc(), Memory::new(rt.alloc(), 65536, load.len)?);
    let tally = tally_of(rt, rt.alloc(), &shared, load)?;
    println!(rt;
        "GlobalTlsf: {} placed, {} refused, {} live",
        tally.placed, tally.refused, tally.live
    )?;
    Ok(())
}

/// Lets the threads make their steps. Adds up their tallies.
fn tally_of<R: Threads + Wait + Sync>(
    rt: &R,
    alloc: Global,
    shared: &GlobalTlsf,
    load: Load,
) -> Result<Tally, AllocError> {
    let slots = NonZeroUsize::new(load.slots.get() / load.threads.get()).unwrap_or(
        NonZeroUsize::MIN,
    );
    let tallies = thread::map_indices(
        rt,
        alloc,
        load.threads.get(),
        &|_| { run(rt, alloc, shared, slots, load.steps).ok() },
    )?;
    let mut sum = Tally::new();
    for tally in &tallies {
        sum.add(tally.ok_or(AllocError)?);
    }
    Ok(sum)
}
