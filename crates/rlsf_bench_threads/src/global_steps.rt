//! The steps of a thread: payloads of the `GlobalTlsf` are allocated into slots, and freed.

use rlsf_base::memory::{Addr, Layout};
use rlsf_bench_common::Xorshift;
use rlsf_global::GlobalTlsf;
use std::alloc::{AllocError, Global};
use std::num::NonZeroUsize;
use std::sync::Wait;

/// The tally of the steps so far.
#[derive(Clone, Copy)]
pub(crate) struct Tally {
    /// How many allocations found room.
    pub(crate) placed: u64,
    /// How many calls were refused.
    pub(crate) refused: u64,
    /// How many payloads are live.
    pub(crate) live: u64,
}

impl Tally {
    /// Before the first step.
    pub(crate) fn new() -> Tally {
        Tally {
            placed: 0,
            refused: 0,
            live: 0,
        }
    }

    /// Adds the tally of other steps.
    pub(crate) fn add(&mut self, other: Tally) {
        self.placed = self.placed.wrapping_add(other.placed);
        self.refused = self.refused.wrapping_add(other.refused);
        self.live = self.live.wrapping_add(other.live);
    }
}

/// A payload, and the layout that was asked for it.
#[derive(Clone, Copy)]
pub(crate) struct Payload {
    pub(crate) addr: Addr,
    pub(crate) layout: Layout,
}

/// The layout that a drawn number asks for: up to 511 bytes, anywhere.
pub(crate) fn layout_of(draw: u64) -> Layout {
    Layout::from_size_align_unchecked((draw % 512) as usize, 1)
}

/// Frees the payload of a slot; a slot without a payload gets one.
fn step<R: Wait>(
    rt: &R,
    shared: &GlobalTlsf,
    slot: &mut Option<Payload>,
    tally: &mut Tally,
    draw: u64,
) {
    if let Some(payload) = slot.take() {
        match shared.dealloc(rt, payload.addr, payload.layout) {
            Ok(()) => tally.live = tally.live.wrapping_sub(1),
            Err(_) => tally.refused = tally.refused.wrapping_add(1),
        }
        return;
    }
    let layout = layout_of(draw);
    match shared.alloc(rt, layout) {
        Ok(addr) => {
            *slot = Some(Payload { addr, layout });
            tally.placed = tally.placed.wrapping_add(1);
            tally.live = tally.live.wrapping_add(1);
        }
        Err(_) => tally.refused = tally.refused.wrapping_add(1),
    }
}

/// Does so many steps on so many slots. Returns their tally.
pub(crate) fn run<R: Wait>(
    rt: &R,
    alloc: Global,
    shared: &GlobalTlsf,
    slots: NonZeroUsize,
    steps: u64,
) -> Result<Tally, AllocError> {
    let mut live: Vec<Option<Payload>> = vec![in alloc; None; slots.get()]?;
    let mut draws = Xorshift::new();
    let mut tally = Tally::new();
    for _ in 0..steps {
        let draw = draws.next();
        let slot = (draw >> 32) as usize % slots.get();
        if let Some(slot) = live.get_mut(slot) {
            step(rt, shared, slot, &mut tally, draw);
        }
    }
    Ok(tally)
}
