//! Runs of steps on new allocators, with or without a lock.

use crate::answers::passes;
use crate::steps::{Arguments, NO_STEP, Run, Step, arguments_of};
use rlsf_base::memory::Memory;
use std::alloc::Global;
use std::process::Abort;
use std::sync::Wait;

/// An allocator that makes the calls of steps.
pub trait Tested: Drop {
    /// A new allocator over a memory.
    fn over(alloc: Global, memory: Memory) -> Self;

    /// Makes the call of a step. Returns a number as tables have it beside the step.
    fn answer<R: Wait>(&mut self, rt: &R, step: Step, to: Arguments) -> usize;
}

/// The place of the first step with another result than the one beside it.
pub fn first_wrong<R: Wait, T: Tested>(
    rt: &R,
    tested: &mut T,
    steps: &[(Step, usize)],
) -> Option<usize> {
    for (place, (step, wanted)) in steps.iter().enumerate() {
        let answered = match arguments_of(*step) {
            Some(arguments) => tested.answer(rt, *step, arguments),
            None => NO_STEP,
        };
        if answered != *wanted {
            return Some(place);
        }
    }
    None
}

/// The place of the first wrong step of a run on a new allocator, or 0 if the system is out of memory.
fn wrong_step<R: Wait, T: Tested>(rt: &R, alloc: Global, run: Run) -> Option<usize> {
    let (len, steps) = run;
    let Ok(memory) = Memory::new(alloc, 65536, len) else {
        return Some(0);
    };
    first_wrong(rt, &mut T::over(alloc, memory), steps)
}

/// Passes if each step of each run has its expected result. Otherwise the failure shows the step.
pub fn all_go_so<R: Abort + Wait, T: Tested>(rt: &R, alloc: Global, runs: &[Run]) {
    for run in runs {
        if let Some(step) = wrong_step::<R, T>(rt, alloc, *run) {
            passes(rt, false, step);
        }
    }
}
