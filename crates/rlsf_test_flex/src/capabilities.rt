//! A source of each combination of capabilities: two allocations, a free, another allocation, and the end.

use crate::cursor::{Habits, NEITHER, Question};
use crate::heaps::{Case, NO_STEPS, Step, are_right_with_each_capability};

/// Allocates for one byte and then for 100, deallocates the 100, and allocates for them again.
const USED: &[Step] = &[
    Step::Allocate(1, 4112),
    Step::GiveBack(100, 4176),
    Step::Allocate(100, 4176),
];

/// Sources that take ranges back and don't grow them.
static TAKING: [Case; 2] = [
    Case {
        habits: Habits {
            dealloc: true,
            ..NEITHER
        },
        steps: USED,
        asked: &[
            Question::Alloc(64),
            Question::Alloc(160),
            Question::Dealloc(4160, 160),
            Question::Dealloc(4096, 64),
        ],
        ..NO_STEPS
    },
    // One range that can't grow is all there is.
    Case {
        habits: Habits {
            dealloc: true,
            contiguous: true,
            ..NEITHER
        },
        steps: &[
            Step::Allocate(1, 4112),
            Step::GiveBack(100, 0),
            Step::Allocate(100, 0),
        ],
        asked: &[Question::Alloc(64), Question::Dealloc(4096, 64)],
        ..NO_STEPS
    },
];

#[test]
fn capabilities(rt: HostRuntime) {
    are_right_with_each_capability(&rt, USED, &TAKING);
}
