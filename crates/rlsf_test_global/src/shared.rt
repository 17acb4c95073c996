//! Calls through the lock, with what they answer.

use crate::runs::{Tested, all_go_so};
use crate::steps::{
    ALIKE, Arguments, NO_ROOM, NO_STEP, PAGES, Run, SMALL_PAGES, Step, UNREAD, WRONG_LAYOUT,
    counted, done, placed, rising, told,
};
use rlsf_base::memory::{Addr, Memory};
use rlsf_global::{CAlloc, GlobalTlsf, GlobalTlsfOptions, SmallGlobalTlsfOptions};
use std::alloc::Global;
use std::sync::Wait;

impl<Options: GlobalTlsfOptions> Tested for GlobalTlsf<Options> {
    fn over(alloc: Global, memory: Memory) -> Self {
        GlobalTlsf::new(alloc, memory)
    }

    fn answer<R: Wait>(&mut self, rt: &R, step: Step, to: Arguments) -> usize {
        match step {
            Step::Alloc(_, _) => placed(self.alloc(rt, to.layout)),
            Step::Allocate(_, _) => placed(self.allocate(rt, to.layout)),
            Step::Dealloc(_, _, _) => done(self.dealloc(rt, to.addr, to.layout)),
            Step::Deallocate(_) => done(self.deallocate(rt, to.addr)),
            Step::Realloc(_, _, _, _) => placed(self.realloc(rt, to.addr, to.layout, to.new_size)),
            Step::Reallocate(_, _, _) => placed(self.reallocate(rt, to.addr, to.layout)),
            Step::NoMove(_, _, _, _) => {
                placed(self.reallocate_no_move(rt, to.addr, to.layout, to.new_size))
            }
            Step::Usable(_) => counted(self.allocation_usable_size(rt, to.addr)),
            Step::Write(_, offset, len) => match rising(len) {
                Some(bytes) => done(self.write_payload(rt, to.addr, offset, bytes)),
                None => NO_STEP,
            },
            Step::Read(_, offset, len) => read(rt, self, to.addr, offset, len),
        }
    }
}

fn read<R: Wait, Options: GlobalTlsfOptions>(
    rt: &R,
    shared: &GlobalTlsf<Options>,
    addr: Addr,
    offset: usize,
    len: usize,
) -> usize {
    let mut all = UNREAD;
    let Some(bytes) = all.get_mut(..len) else {
        return NO_STEP;
    };
    let answer = shared.read_payload(rt, addr, offset, bytes);
    told(answer, &all, len)
}

#[test]
fn pages_are_taken_as_they_are_needed(rt: HostRuntime) {
    all_go_so::<_, GlobalTlsf<()>>(&rt, rt.alloc(), &PAGES);
    all_go_so::<_, GlobalTlsf<SmallGlobalTlsfOptions>>(&rt, rt.alloc(), &SMALL_PAGES);
}

#[test]
fn addresses_layouts_and_offsets_are_tested(rt: HostRuntime) {
    all_go_so::<_, GlobalTlsf<()>>(&rt, rt.alloc(), &ALIKE);
    all_go_so::<_, GlobalTlsf<SmallGlobalTlsfOptions>>(&rt, rt.alloc(), &ALIKE);
}

/// A payload that gets shorter, and stays at its address.
static STAYS: [Run; 1] = [(
    131072,
    &[
        (Step::Alloc(40, 8), 65552),
        (Step::Write(65552, 0, 40), 0),
        (Step::Realloc(65552, 40, 8, 20), 65552),
        (Step::Read(65552, 0, 20), 0),
        (Step::Realloc(65552, 40, 8, 20), WRONG_LAYOUT),
        (Step::Realloc(65552, 20, 8, 200000), NO_ROOM),
        (Step::Dealloc(65552, 20, 8), 0),
    ],
)];

/// A payload that gets shorter, and moves.
static MOVES: [Run; 1] = [(
    131072,
    &[
        (Step::Alloc(40, 8), 65552),
        (Step::Write(65552, 0, 40), 0),
        (Step::Realloc(65552, 40, 8, 20), 65616),
        (Step::Read(65616, 0, 20), 0),
        (Step::Realloc(65616, 40, 8, 20), WRONG_LAYOUT),
        (Step::Realloc(65616, 20, 8, 200000), NO_ROOM),
        (Step::Dealloc(65616, 20, 8), 0),
    ],
)];

#[test]
fn a_shorter_payload_stays_if_that_is_enabled(rt: HostRuntime) {
    all_go_so::<_, GlobalTlsf<()>>(&rt, rt.alloc(), &STAYS);
    all_go_so::<_, GlobalTlsf<SmallGlobalTlsfOptions>>(&rt, rt.alloc(), &MOVES);
}
