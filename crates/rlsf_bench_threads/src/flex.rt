//! The steps over the allocator of a `GlobalTlsf` alone, without its lock and its table. They are those of `global_steps.rt` in one thread.

ghost use Rattle.std.specs.Prelude.{◌≡◌, IfOk, None, replicate};
ghost use Rattle.rlsf_bench_threads.specs.Slots.{AreSlotsLive};

use crate::global_steps::{Payload, Tally, layout_of};
use crate::load::Load;
use rlsf_base::memory::{Memory, Range};
use rlsf_bench_common::{BenchError, Xorshift};
use rlsf_flex::{FlexTlsf, Source};
use std::alloc::{AllocError, Global};

/// The allocator in a `GlobalTlsf`.
type Paged = FlexTlsf<Source<()>, usize, usize, 64, 64>;

/// Does the steps that are asked for, and prints their tally.
pub(crate) fn time<R: Print + AllocGlobal>(rt: &R, load: Load) -> Result<(), BenchError> {
    let memory = Memory::new(rt.alloc(), 65536, load.len)?;
    let tally = run(rt.alloc(), memory, load)?;
    println!(rt;
        "FlexTlsf: {} placed, {} refused, {} live",
        tally.placed, tally.refused, tally.live
    )?;
    Ok(())
}

/// Deallocates the payload of a slot; a slot without a payload gets one.
fn step(flex: &mut Paged, slots: &mut [Option<Payload>], index: usize, tally: &mut Tally, draw: u64)
    requires live { AreSlotsLive flex.old.state.machine slots.old }
    ensures live { AreSlotsLive flex.new.state.machine slots.new }
{
    if index >= slots.len() {
        return;
    }
    if let Some(payload) = slots[index].take() {
        flex.deallocate(payload.addr, payload.layout.align());
        tally.live = tally.live.wrapping_sub(1);
        return;
    }
    let layout = layout_of(draw);
    match flex.allocate(layout) {
        Some(addr) => {
            slots[index] = Some(Payload { addr, layout });
            tally.placed = tally.placed.wrapping_add(1);
            tally.live = tally.live.wrapping_add(1);
        }
        None => tally.refused = tally.refused.wrapping_add(1),
    }
}

/// So many slots, without a payload.
fn empty_slots(alloc: Global, slots: usize) -> Result<Vec<Option<Payload>>, AllocError>
    ensures { IfOk result (λ v. v.items ≡ replicate slots None) }
{
    Ok(vec![in alloc; None; slots]?)
}

/// Does the steps that are asked for. Returns their tally.
fn run(alloc: Global, memory: Memory, load: Load) -> Result<Tally, AllocError> {
    let space = Range {
        start: memory.start(),
        len: memory.len(),
    };
    let mut slots = empty_slots(alloc, load.slots.get())?;
    let mut flex: Paged = FlexTlsf::new(memory, Source::new(space));
    let mut draws = Xorshift::new();
    let mut tally = Tally::new();
    for _ in 0..load.steps {
        let draw = draws.next();
        let index = (draw >> 32) as usize % load.slots.get();
        step(&mut flex, &mut slots, index, &mut tally, draw);
    }
    Ok(tally)
}
