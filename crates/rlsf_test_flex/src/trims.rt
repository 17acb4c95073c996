//! Trims: which ranges return to a source while payloads live, what follows, and what is left for the end.

use crate::cursor::{Habits, NEITHER, Question, Questions};
use crate::heap_source::over_allocator;
use crate::heaps::{
    Case, NO_STEPS, Shaped, Step, all, are_right_with_each_capability, bytes, first_wrong, footer,
    is_right, small,
};
use crate::sources::parts_of;
use rlsf_base::memory::Range;
use rlsf_flex::{FlexSource, FlexTlsf};
use rlsf_trace_flex_runs::{Capabilities, ListedSource, Question as Asked, SourceAnswer};
use std::cell::Cell;
use std::process::Abort;

/// Trims with nothing outstanding. Allocates for one byte, allocates for 100 and deallocates them, trims twice, and allocates for
/// 100 again.
const USED: &[Step] = &[
    Step::Trim(0),
    Step::Allocate(1, 4112),
    Step::GiveBack(100, 4176),
    Step::Trim(0),
    Step::Trim(0),
    Step::Allocate(100, 4176),
];

/// Sources that take ranges back and don't grow them.
static TAKING: [Case; 2] = [
    // The second range returns to the source, and another is asked for.
    Case {
        habits: Habits {
            dealloc: true,
            ..NEITHER
        },
        steps: &[
            Step::Trim(0),
            Step::Allocate(1, 4112),
            Step::GiveBack(100, 4176),
            Step::Trim(1),
            Step::Trim(0),
            Step::Allocate(100, 4336),
            Step::Footer(4464, (4096, 64)),
        ],
        asked: &[
            Question::Alloc(64),
            Question::Alloc(160),
            Question::Dealloc(4160, 160),
            Question::Alloc(160),
            Question::Dealloc(4320, 160),
            Question::Dealloc(4096, 64),
        ],
        ..NO_STEPS
    },
    // The only range holds a payload.
    Case {
        habits: Habits {
            dealloc: true,
            contiguous: true,
            ..NEITHER
        },
        steps: &[
            Step::Allocate(1, 4112),
            Step::GiveBack(100, 0),
            Step::Trim(0),
            Step::Allocate(100, 0),
        ],
        asked: &[Question::Alloc(64), Question::Dealloc(4096, 64)],
        ..NO_STEPS
    },
];

/// The addresses of two payloads, and how many ranges returned to the source with each of three trims.
type Shrunk = ([usize; 2], [usize; 3]);

/// Allocates two payloads of so many bytes and trims. Deallocates the newer one and trims, then the older one and trims. Returns
/// the addresses, and how many ranges returned to the source each time.
fn shrinks<S: FlexSource>(flex: &mut Shaped<S>, first: u32, second: u32) -> Option<Shrunk> {
    let older = flex.allocate(bytes(first))?;
    let newer = flex.allocate(bytes(second))?;
    let held = flex.trim();
    flex.deallocate(newer, 1);
    let one_left = flex.trim();
    flex.deallocate(older, 1);
    let none_left = flex.trim();
    Some(([older.get(), newer.get()], [held, one_left, none_left]))
}

/// Passes if so many ranges returned to the source.
fn went(rt: &impl Abort, shrunk: Option<Shrunk>, expected: Shrunk) {
    all(rt, &[shrunk == Some(expected)]);
}

#[test]
fn trims_with_each_capability(rt: HostRuntime) {
    are_right_with_each_capability(&rt, USED, &TAKING);
}

static TWO_RANGES_WENT: [Question; 4] = [
    Question::AllocLayout(1024, 1024),
    Question::AllocLayout(3072, 1024),
    Question::DeallocLayout(5120, 3072, 1024),
    Question::DeallocLayout(4096, 1024, 1024),
];

#[test]
fn two_ranges_go_back_one_after_the_other(rt: HostRuntime) {
    let mut flex = over_allocator(&rt);
    let shrunk = shrinks(&mut flex, 1, 2000);
    let (_, source) = flex.into_parts();
    went(&rt, shrunk, ([4112, 5136], [0, 1, 1]));
    is_right(&rt, (None, source.0.asked()), &TWO_RANGES_WENT);
}

/// All addresses of the memory but the first.
const ODD: Range = Range {
    start: 4097,
    len: 4095,
};

/// A source that grows its ranges, takes them back, and provides them from any address on.
const GROWING: Habits = Habits {
    dealloc: true,
    grow: true,
    min_align: 1,
    ..NEITHER
};

static A_GROWN_RANGE_WENT: [Question; 3] = [
    Question::Alloc(96),
    Question::Grow(4097, 96, 159),
    Question::Dealloc(4097, 159),
];

#[test]
fn a_range_that_grew_goes_back_once(rt: HostRuntime) {
    let seen = Cell::new(Questions::new());
    let mut flex = small(&rt, ODD, GROWING, &seen);
    let shrunk = shrinks(&mut flex, 1, 1);
    let (_, source) = flex.into_parts();
    went(&rt, shrunk, ([4144, 4208], [0, 0, 1]));
    is_right(&rt, (None, source.asked()), &A_GROWN_RANGE_WENT);
}

/// The two ranges of a source that provides one, doesn't grow it at first, and provides another.
const FIRST: Range = Range {
    start: 4096,
    len: 101,
};

const SECOND: Range = Range {
    start: 8192,
    len: 101,
};

/// An allocator over a source with these answers.
fn over_answers(rt: &(impl Abort + AllocGlobal), answers: &[SourceAnswer]) -> Shaped<ListedSource> {
    let space = Range {
        start: 4096,
        len: 8192,
    };
    let capabilities = Capabilities {
        dealloc: true,
        grow: true,
        contiguous: false,
        min_align: 32,
    };
    let answers = answers.to_vec(rt.alloc()).expect(rt, "memory");
    let parts = parts_of(rt.alloc(), space, capabilities, answers, 8);
    let (memory, source) = parts.expect(rt, "memory");
    FlexTlsf::new(memory, source)
}

static ANSWERS: [SourceAnswer; 4] = [
    SourceAnswer::Range(FIRST),
    SourceAnswer::None,
    SourceAnswer::Range(SECOND),
    SourceAnswer::Len(160),
];

static GROWN_AGAIN: [Step; 5] = [
    Step::Allocate(1, 4112),
    Step::Allocate(1, 4144),
    Step::GiveBack(1, 8208),
    Step::Trim(1),
    Step::Allocate(1, 4208),
];

static ASKED: [Asked; 6] = [
    Asked::Alloc(64, Some(FIRST)),
    Asked::Grow(FIRST, 160, None),
    Asked::Alloc(64, Some(SECOND)),
    Asked::Dealloc(SECOND),
    Asked::Grow(FIRST, 160, Some(160)),
    Asked::Dealloc(Range {
        start: 4096,
        len: 160,
    }),
];

#[test]
fn the_range_before_grows_after_a_trim(rt: HostRuntime) {
    let mut flex = over_answers(&rt, &ANSWERS);
    let wrong = first_wrong(&mut flex, &GROWN_AGAIN);
    let (memory, source) = flex.into_parts();
    // The footer moved there from 4176.
    let moved = footer(&memory, 4240);
    let answers = [
        wrong.is_none(),
        moved == Some((0, 0)),
        source.asked() == ASKED.as_slice(),
    ];
    all(&rt, &answers);
}
