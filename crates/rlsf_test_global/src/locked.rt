//! Calls of the value under the lock, with what they answer.

ghost use Rattle.std.specs.Prelude.{◌≡◌, false};

use crate::answers::{memory, passes};
use crate::runs::{Tested, all_go_so};
use crate::steps::{
    ALIKE, Arguments, NO_STEP, PAGES, SMALL_PAGES, Step, UNREAD, counted, done, placed, rising,
    told,
};
use rlsf_base::memory::{Addr, Layout, Memory};
use rlsf_global::{GlobalError, GlobalTlsfOptions, Locked, SmallGlobalTlsfOptions};
use std::alloc::Global;
use std::process::Abort;
use std::sync::Wait;

impl<Options: GlobalTlsfOptions> Tested for Locked<Options> {
    fn over(alloc: Global, memory: Memory) -> Self {
        Locked::new(alloc, memory)
    }

    fn answer<R: Wait>(&mut self, _rt: &R, step: Step, to: Arguments) -> usize {
        match step {
            Step::Alloc(_, _) => placed(self.alloc(to.layout)),
            Step::Allocate(_, _) => placed(self.allocate(to.layout)),
            Step::Dealloc(_, _, _) => done(self.dealloc(to.addr, to.layout)),
            Step::Deallocate(_) => done(self.deallocate(to.addr)),
            Step::Realloc(_, _, _, _) => placed(self.realloc(to.addr, to.layout, to.new_size)),
            Step::Reallocate(_, _, _) => placed(self.reallocate(to.addr, to.layout)),
            Step::NoMove(_, _, _, _) => {
                placed(self.reallocate_no_move(to.addr, to.layout, to.new_size))
            }
            Step::Usable(_) => counted(self.allocation_usable_size(to.addr)),
            Step::Write(_, offset, len) => match rising(len) {
                Some(bytes) => done(self.write_payload(to.addr, offset, bytes)),
                None => NO_STEP,
            },
            Step::Read(_, offset, len) => read(self, to.addr, offset, len),
        }
    }
}

fn read<Options: GlobalTlsfOptions>(
    locked: &Locked<Options>,
    addr: Addr,
    offset: usize,
    len: usize,
) -> usize {
    let mut all = UNREAD;
    let Some(bytes) = all.get_mut(..len) else {
        return NO_STEP;
    };
    let answer = locked.read_payload(addr, offset, bytes);
    told(answer, &all, len)
}

#[test]
fn pages_are_taken_as_they_are_needed(rt: HostRuntime) {
    all_go_so::<_, Locked<()>>(&rt, rt.alloc(), &PAGES);
    all_go_so::<_, Locked<SmallGlobalTlsfOptions>>(&rt, rt.alloc(), &SMALL_PAGES);
}

#[test]
fn addresses_layouts_and_offsets_are_tested(rt: HostRuntime) {
    all_go_so::<_, Locked<()>>(&rt, rt.alloc(), &ALIKE);
    all_go_so::<_, Locked<SmallGlobalTlsfOptions>>(&rt, rt.alloc(), &ALIKE);
}

/// Allocates twice, if the first call finds room. Returns whether the second one lacks memory for the table, which the codes exclude.
fn lacks_table_memory_later(locked: &mut Locked<()>, layout: Layout) -> bool
    ensures { result ≡ false }
{
    match locked.allocate(layout) {
        Ok(addr) => {
            let _freed = locked.deallocate(addr);
            matches!(locked.alloc(layout), Err(GlobalError::TableMemory))
        }
        Err(_) => false,
    }
}

/// The lengths of the lists of three live payloads, in lists with room for two and for three.
fn listed(rt: &impl Abort, alloc: Global, room: usize) -> Option<usize> {
    let rows = Vec::with_capacity(alloc, room).expect(rt, "room for rows");
    let mut locked = Locked::<()>::new(alloc, memory(rt, alloc, 65536));
    let layout = Layout::from_size_align_unchecked(1, 1);
    let later = lacks_table_memory_later(&mut locked, layout);
    let _second = locked.alloc(layout);
    let _third = locked.alloc(layout);
    if later || locked.live() != 3 {
        return None;
    }
    Some(locked.into_rows(rows).map_or(0, |rows| rows.len()))
}

#[test]
fn live_payloads_are_listed_if_there_is_room(rt: HostRuntime) {
    passes(&rt, listed(&rt, rt.alloc(), 2) == Some(0), 2);
    passes(&rt, listed(&rt, rt.alloc(), 3) == Some(3), 3);
}
