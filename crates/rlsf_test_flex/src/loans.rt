//! Payloads that are written, grow into other memory and are read; and a change of the source.

ghost use Rattle.std.specs.Prelude.{◌≡◌, ◌<◌, Some, IfSome, IsSome};
ghost use Rattle.rlsf_base.specs.Addr.{at};
ghost use Rattle.rlsf_model.specs.Callers.{align_at};

use crate::cursor::{Habits, Question, Questions};
use crate::heaps::{Small, all, bytes, is_right, small};
use rlsf_base::memory::{Addr, Layout, Range};
use rlsf_flex::{FlexSource, SourceChange};
use std::cell::Cell;

/// Leaves the source as it is, and returns a number.
#[derive(Drop)]
struct Look(usize);

impl<S: FlexSource> SourceChange<S> for Look {
    type Out = usize;

    ghost use Rattle.std.specs.Prelude.{◌≡◌};

    ghost changes = { λ c x r y. (r ≡ c.0) × (y ≡ x) };

    fn change(self, source: &mut S) -> usize {
        let _ = source;
        self.0
    }
}

/// A source that grows its ranges and takes them back.
const HABITS: Habits = Habits {
    dealloc: true,
    grow: true,
    contiguous: false,
    min_align: 32,
    extra: 0,
    refuses: false,
};

/// All addresses of the memory.
const ALL: Range = Range {
    start: 4096,
    len: 4096,
};

/// Allocates a payload and fills it.
fn filled(flex: &mut Small, layout: Layout, byte: u8) -> Option<Addr>
    ensures { IfSome result (λ addr. align_at flex.new.state.machine (at addr) ≡ Some layout.align) }
{
    let addr = flex.allocate(layout)?;
    flex.payload_mut(addr).fill(byte);
    Some(addr)
}

/// Whether a payload has so many usable bytes, of which the first and the sixteenth are `byte`.
fn reads(flex: &Small, addr: Addr, usable: usize, byte: u8) -> bool
    requires { IsSome (align_at flex.now.state.machine (at addr)) }
{
    let bytes = flex.payload(addr);
    let ends = (bytes.first().copied(), bytes.get(15).copied());
    flex.allocation_usable_size(addr) == usable && ends == (Some(byte), Some(byte))
}

/// Allocates a payload and fills it with 7, allocates another, which may need more memory, and fills that with 9. Reads the first
/// byte of each, and deallocates both.
fn two(flex: &mut Small, first: Layout, second: Layout) -> Option<(u8, u8)>
    requires { (0 < first.size) × (0 < second.size) }
    ensures { IfSome result (λ reads. (reads.0 ≡ 7) × (reads.1 ≡ 9)) }
{
    let one = flex.allocate(first)?;
    flex.payload_mut(one).fill(7);
    let Some(other) = flex.allocate(second) else {
        flex.deallocate(one, first.align());
        return None;
    };
    flex.payload_mut(other).fill(9);
    let reads = (flex.payload(one)[0], flex.payload(other)[0]);
    flex.deallocate(other, second.align());
    flex.deallocate(one, first.align());
    Some(reads)
}

/// Fills a payload of 16 bytes, moves it into one of 500, and deallocates that. Returns the two addresses, and whether the bytes
/// were right at each.
fn moved(flex: &mut Small) -> Option<([usize; 2], [bool; 2])> {
    let addr = filled(flex, bytes(16), 7)?;
    let before = reads(flex, addr, 16, 7);
    let to = flex.reallocate(addr, bytes(500))?;
    let after = reads(flex, to, 528, 7);
    flex.deallocate_unknown_align(to);
    Some(([addr.get(), to.get()], [before, after]))
}

static GROWN_AND_GIVEN_BACK: [Question; 3] = [
    Question::Alloc(64),
    Question::Grow(4096, 64, 672),
    Question::Dealloc(4096, 672),
];

#[test]
fn a_payload_moves_into_growth(rt: HostRuntime) {
    let seen = Cell::new(Questions::new());
    let mut flex = small(&rt, ALL, HABITS, &seen);
    let moved = moved(&mut flex);
    let (_, source) = flex.into_parts();
    all(&rt, &[moved == Some(([4112, 4176], [true, true]))]);
    is_right(&rt, (None, source.asked()), &GROWN_AND_GIVEN_BACK);
}

static GROWN: [Question; 2] = [Question::Alloc(64), Question::Grow(4096, 64, 672)];

#[test]
fn two_payloads_with_a_growth_between(rt: HostRuntime) {
    let second = Layout::from_size_align_unchecked(500, 8);
    let seen = Cell::new(Questions::new());
    let mut flex = small(&rt, ALL, HABITS, &seen);
    let read = two(&mut flex, bytes(16), second);
    all(&rt, &[read == Some((7, 9))]);
    is_right(&rt, (None, flex.source_ref().asked()), &GROWN);
}

#[test]
fn a_copy_asks_nothing(rt: HostRuntime) {
    let seen = Cell::new(Questions::new());
    let mut flex = small(&rt, ALL, HABITS, &seen);
    if let Some(addr) = filled(&mut flex, bytes(16), 7) {
        flex.copy_payload(addr, addr, 0);
    }
    let asked = flex.source_ref().asked();
    is_right(&rt, (None, asked), &[Question::Alloc(64)]);
}

#[test]
fn a_change_of_the_source(rt: HostRuntime) {
    let seen = Cell::new(Questions::new());
    let mut flex = small(&rt, ALL, HABITS, &seen);
    let looked = flex.source_mut_unchecked(Look(7));
    all(&rt, &[looked == 7]);
    is_right(&rt, (None, flex.source_ref().asked()), &[]);
}
