//! Footers, and the ranges that return to a source.

use crate::cursor::{Habits, Question, Questions};
use crate::heaps::{Case, Step, are_right, first_wrong, is_right, small};
use rlsf_base::memory::Range;
use std::cell::Cell;
use std::process::Abort;

/// A source that takes ranges back, and provides what is requested at multiples of 32.
const TAKING: Habits = Habits {
    dealloc: true,
    grow: false,
    contiguous: false,
    min_align: 32,
    extra: 0,
    refuses: false,
};

/// All addresses of the memory.
const ALL: Range = Range {
    start: 4096,
    len: 4096,
};

static CASES: [Case; 3] = [
    // The footer moves with growth.
    Case {
        space: Range {
            start: 4097,
            len: 4095,
        },
        habits: Habits {
            grow: true,
            min_align: 1,
            ..TAKING
        },
        steps: &[
            Step::Allocate(1, 4144),
            Step::Footer(4176, (0, 0)),
            Step::Allocate(1, 4208),
            Step::Footer(4240, (0, 0)),
        ],
        asked: &[
            Question::Alloc(96),
            Question::Grow(4097, 96, 159),
            Question::Dealloc(4097, 159),
        ],
        left: None,
    },
    // Footers name the ranges before.
    Case {
        space: ALL,
        habits: Habits {
            extra: 37,
            ..TAKING
        },
        steps: &[
            Step::Allocate(1, 4112),
            Step::Allocate(1, 4144),
            Step::Allocate(1, 4240),
            Step::Footer(4176, (0, 0)),
            Step::Footer(4304, (4096, 101)),
        ],
        asked: &[
            Question::Alloc(64),
            Question::Alloc(64),
            Question::Dealloc(4224, 101),
            Question::Dealloc(4096, 101),
        ],
        left: Some((4304, (4096, 101))),
    },
    // Two ranges return.
    Case {
        space: ALL,
        habits: TAKING,
        steps: &[Step::Allocate(1, 4112), Step::Allocate(1, 4176)],
        asked: &[
            Question::Alloc(64),
            Question::Alloc(64),
            Question::Dealloc(4160, 64),
            Question::Dealloc(4096, 64),
        ],
        left: None,
    },
];

/// Takes the steps of a case and drops the allocator. Returns the index of the first step with another result.
fn dropped(rt: &(impl Abort + AllocGlobal), case: Case, seen: &Cell<Questions>) -> Option<usize> {
    let mut flex = small(rt, case.space, case.habits, seen);
    first_wrong(&mut flex, case.steps)
}

#[test]
fn ends(rt: HostRuntime) {
    are_right(&rt, &CASES);
    // A drop returns the ranges that `into_parts` returns.
    for case in &CASES {
        let seen = Cell::new(Questions::new());
        let wrong = dropped(&rt, *case, &seen);
        is_right(&rt, (wrong, seen.get().asked()), case.asked);
    }
}
