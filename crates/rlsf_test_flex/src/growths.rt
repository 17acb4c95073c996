//! What a source is asked, and which addresses are allocated in what came.

ghost use Rattle.std.specs.Prelude.{◌≡◌, [], length};
ghost use Rattle.rlsf_base.specs.Range.{LiesIn};
ghost use Rattle.rlsf_test_flex.specs.Cursor.{CursorMayOwe};

use crate::cursor::{CursorSource, Habits, Question, Questions};
use crate::heaps::{Case, Outcome, Step, are_right, is_right, number, parts};
use rlsf_base::memory::{Layout, Memory, Range};
use rlsf_flex::FlexTlsf;
use rlsf_int::BitPattern;
use std::cell::Cell;
use std::process::Abort;

/// All but the last byte of the addresses from 4097 on.
const ODD: Range = Range {
    start: 4097,
    len: 4095,
};

/// A source that is one range that grows, from an odd address on.
const GROWING: Habits = Habits {
    dealloc: false,
    grow: true,
    contiguous: true,
    min_align: 1,
    extra: 0,
    refuses: false,
};

/// A source that returns nothing.
const REFUSING: Habits = Habits {
    refuses: true,
    ..GROWING
};

/// The types of an allocator.
#[derive(Clone, Copy)]
enum Shape {
    /// For chunks up to 131,072 bytes.
    Wide,
    /// For chunks of any length.
    Long,
    /// Of 59 first-level rows that have one class each.
    Few,
    /// Of 64 such first-level rows.
    All,
}

/// Allocations by an allocator over a source from an odd address on.
#[derive(Clone, Copy)]
struct Growth {
    shape: Shape,
    habits: Habits,
    /// How many bytes each is for.
    size: usize,
    /// The address that each answers, 0 for none.
    addresses: &'static [usize],
    /// What the source is asked.
    asked: &'static [Question],
}

/// The index of the first allocation for a layout that has another address.
fn first_other<FLBitmap: BitPattern, SLBitmap: BitPattern, const FLLEN: usize, const SLLEN: usize>(
    flex: &mut FlexTlsf<CursorSource, FLBitmap, SLBitmap, FLLEN, SLLEN>,
    layout: Layout,
    addresses: &[usize],
) -> Option<usize> {
    for (index, addr) in addresses.iter().enumerate() {
        if number(flex.allocate(layout)) != *addr {
            return Some(index);
        }
    }
    None
}

/// The index of the first allocation with another address, by an allocator of a shape over these parts.
fn first_wrong(
    shape: Shape,
    parts: (Memory, CursorSource),
    layout: Layout,
    addresses: &[usize],
) -> Option<usize>
    requires { (parts.0.start ≡ 4096) × (length parts.0.bytes ≡ 4096) × LiesIn parts.1.terms.space 4096 4096 × CursorMayOwe parts.1 [] }
{
    let (memory, source) = parts;
    match shape {
        Shape::Wide => {
            let mut flex = FlexTlsf::<_, u16, u16, 12, 16>::new(memory, source);
            first_other(&mut flex, layout, addresses)
        }
        Shape::Long => {
            let mut flex = FlexTlsf::<_, u64, u64, 59, 8>::new(memory, source);
            first_other(&mut flex, layout, addresses)
        }
        Shape::Few => {
            let mut flex = FlexTlsf::<_, u64, u8, 59, 1>::new(memory, source);
            first_other(&mut flex, layout, addresses)
        }
        Shape::All => {
            let mut flex = FlexTlsf::<_, u64, u8, 64, 1>::new(memory, source);
            first_other(&mut flex, layout, addresses)
        }
    }
}

/// The outcome of the allocations, with what the source is asked up to the end.
fn outcome(rt: &(impl Abort + AllocGlobal), growth: Growth) -> Outcome {
    let layout = Layout::from_size_align(growth.size, 1).expect(rt, "a layout");
    let seen = Cell::new(Questions::new());
    let parts = parts(rt.alloc(), ODD, growth.habits, &seen).expect(rt, "a memory and a source");
    let wrong = first_wrong(growth.shape, parts, layout, growth.addresses);
    (wrong, seen.get().asked())
}

/// Passes if each has its expected outcome.
fn go_so(rt: &(impl Abort + AllocGlobal), growths: &[Growth]) {
    for growth in growths {
        is_right(rt, outcome(rt, *growth), growth.asked);
    }
}

const IN_PLACE: Growth = Growth {
    shape: Shape::Wide,
    habits: GROWING,
    size: 1,
    addresses: &[4144, 4208],
    asked: &[Question::Alloc(96), Question::Grow(4097, 96, 159)],
};

static GROWN_IN_PLACE: [Growth; 2] = [
    IN_PLACE,
    Growth {
        shape: Shape::Long,
        addresses: &[4144, 4176],
        ..IN_PLACE
    },
];

#[test]
fn grows_in_place(rt: HostRuntime) {
    go_so(&rt, &GROWN_IN_PLACE);
}

const MORE_THAN_ASKED: Growth = Growth {
    shape: Shape::Wide,
    habits: Habits {
        extra: 50,
        ..GROWING
    },
    size: 1,
    addresses: &[4144, 4176, 4240],
    asked: &[Question::Alloc(96), Question::Grow(4097, 146, 191)],
};

static WITH_MORE_THAN_ASKED: [Growth; 2] = [
    MORE_THAN_ASKED,
    Growth {
        shape: Shape::Long,
        addresses: &[4144, 4176, 4208],
        ..MORE_THAN_ASKED
    },
];

#[test]
fn more_than_asked(rt: HostRuntime) {
    go_so(&rt, &WITH_MORE_THAN_ASKED);
}

const THE_GREATEST_LAYOUT: Growth = Growth {
    shape: Shape::Long,
    habits: Habits {
        min_align: 32,
        ..REFUSING
    },
    size: 9223372036854775807,
    addresses: &[0],
    asked: &[Question::Alloc(10376293541461622816)],
};

static GREATEST_LAYOUTS: [Growth; 3] = [
    THE_GREATEST_LAYOUT,
    Growth {
        shape: Shape::Few,
        asked: &[],
        ..THE_GREATEST_LAYOUT
    },
    Growth {
        shape: Shape::All,
        asked: &[],
        ..THE_GREATEST_LAYOUT
    },
];

#[test]
fn the_greatest_layout(rt: HostRuntime) {
    go_so(&rt, &GREATEST_LAYOUTS);
}

/// A source of one range of 64 bytes.
const SHORT: Range = Range {
    start: 4096,
    len: 64,
};

static REFUSALS: [Case; 4] = [
    // Growth of the one range is refused.
    Case {
        space: SHORT,
        habits: Habits {
            min_align: 32,
            ..GROWING
        },
        steps: &[Step::Allocate(1, 4112), Step::Allocate(1, 0)],
        asked: &[Question::Alloc(64), Question::Grow(4096, 64, 128)],
        left: None,
    },
    // Growth and a range are refused.
    Case {
        space: SHORT,
        habits: Habits {
            contiguous: false,
            min_align: 32,
            ..GROWING
        },
        steps: &[Step::Allocate(1, 4112), Step::Allocate(1, 0)],
        asked: &[
            Question::Alloc(64),
            Question::Grow(4096, 64, 128),
            Question::Alloc(64),
        ],
        left: None,
    },
    // Nothing is asked where no pool would do.
    Case {
        space: ODD,
        habits: GROWING,
        steps: &[Step::Allocate(8000, 0)],
        asked: &[],
        left: None,
    },
    // A range is refused.
    Case {
        space: ODD,
        habits: REFUSING,
        steps: &[Step::Allocate(1, 0)],
        asked: &[Question::Alloc(96)],
        left: None,
    },
];

#[test]
fn refusals(rt: HostRuntime) {
    are_right(&rt, &REFUSALS);
}
