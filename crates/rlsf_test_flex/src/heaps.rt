//! The allocators of the tests, the questions that they ask, and their expected results.

ghost use Rattle.std.specs.Prelude.{◌≡◌, [], length, IfSome};
ghost use Rattle.rlsf_base.specs.Range.{LiesIn};
ghost use Rattle.rlsf_test_flex.specs.Cursor.{CursorMayOwe};

use crate::cursor::{CursorSource, Habits, NEITHER, Question, Questions};
use rlsf_base::memory::{Addr, Layout, Memory, Range};
use rlsf_flex::{FlexSource, FlexTlsf};
use std::alloc::Global;
use std::cell::Cell;
use std::process::Abort;

/// The shape of most tests, over any source: chunks up to 8160 bytes.
pub type Shaped<S> = FlexTlsf<S, u8, u8, 8, 8>;

/// As above, over a source with a cursor.
pub type Small<'a> = Shaped<CursorSource<'a>>;

/// A step of a test, and what it answers.
#[derive(Clone, Copy)]
pub enum Step {
    /// Allocates for so many bytes: the payload's address, or 0.
    Allocate(u32, usize),
    /// As above, and deallocates the payload.
    GiveBack(u32, usize),
    /// Trims: how many ranges returned to the source.
    Trim(usize),
    /// Reads the footer at an address.
    Footer(usize, (u64, u64)),
}

/// An allocator over a source, and the expected results of its steps.
#[derive(Clone, Copy)]
pub struct Case {
    /// The space of the source, a part of the memory of 4096 bytes from the address 4096 on.
    pub space: Range,
    pub habits: Habits,
    pub steps: &'static [Step],
    /// What the source is asked, up to the end.
    pub asked: &'static [Question],
    /// A footer behind the end.
    pub left: Option<(usize, (u64, u64))>,
}

/// A case without steps, over a source of all addresses that neither grows ranges nor takes them back. What it is asked is for one
/// byte and then for 100.
pub const NO_STEPS: Case = Case {
    space: Range {
        start: 4096,
        len: 4096,
    },
    habits: NEITHER,
    steps: &[],
    asked: &[Question::Alloc(64), Question::Alloc(160)],
    left: None,
};

/// What a source of each combination of capabilities is asked for one byte and then for 100. These take nothing back before the end.
static KEPT: [Case; 6] = [
    // It neither grows ranges nor takes them back.
    NO_STEPS,
    Case {
        habits: Habits {
            contiguous: true,
            ..NEITHER
        },
        ..NO_STEPS
    },
    // It grows ranges.
    Case {
        habits: Habits {
            grow: true,
            ..NEITHER
        },
        asked: &[Question::Alloc(64), Question::Grow(4096, 64, 224)],
        ..NO_STEPS
    },
    Case {
        habits: Habits {
            grow: true,
            contiguous: true,
            ..NEITHER
        },
        asked: &[Question::Alloc(64), Question::Grow(4096, 64, 224)],
        ..NO_STEPS
    },
    // It grows ranges and takes them back. The part by which a range grew doesn't return alone.
    Case {
        habits: Habits {
            dealloc: true,
            grow: true,
            ..NEITHER
        },
        asked: &[
            Question::Alloc(64),
            Question::Grow(4096, 64, 224),
            Question::Dealloc(4096, 224),
        ],
        ..NO_STEPS
    },
    Case {
        habits: Habits {
            dealloc: true,
            grow: true,
            contiguous: true,
            ..NEITHER
        },
        asked: &[
            Question::Alloc(64),
            Question::Grow(4096, 64, 224),
            Question::Dealloc(4096, 224),
        ],
        ..NO_STEPS
    },
];

/// The index of the first step with a wrong result, and the questions to the source.
pub type Outcome = (Option<usize>, [Question; 8]);

/// Passes if all answers are true. Otherwise the failure shows the index of one that isn't.
pub fn all(rt: &impl Abort, answers: &[bool]) {
    for (index, answer) in answers.iter().enumerate() {
        assert!(rt; *answer, "at {index}");
    }
}

/// Passes if no step has a wrong result, and these are the questions to the source.
pub fn is_right(rt: &impl Abort, outcome: Outcome, asked: &[Question]) {
    let (wrong, found) = outcome;
    if let Some(index) = wrong {
        assert!(rt; false, "the step at {index}");
    }
    all(rt, &[found == only(asked)]);
}

/// A memory of 4096 bytes from the address 4096 on, and a source of a part of it. `None` if it is no part of the memory, or if the
/// system is out of memory.
pub fn parts<'a>(
    alloc: Global,
    space: Range,
    habits: Habits,
    seen: &'a Cell<Questions>,
) -> Option<(Memory, CursorSource<'a>)>
    ensures { IfSome result (λ r. (r.0.start ≡ 4096) × (length r.0.bytes ≡ 4096) × LiesIn r.1.terms.space 4096 4096 × CursorMayOwe r.1 []) }
{
    if space.start < 4096 || space.start > 8192 || space.len > 8192 - space.start {
        return None;
    }
    let min_align = Layout::from_size_align(1, habits.min_align).ok()?.align();
    let memory = Memory::new(alloc, 4096, 4096).ok()?;
    let habits = Habits {
        min_align,
        ..habits
    };
    Some((memory, CursorSource::new(space, habits, seen)))
}

/// An allocator over such a source.
pub fn small<'a>(
    rt: &(impl Abort + AllocGlobal),
    space: Range,
    habits: Habits,
    seen: &'a Cell<Questions>,
) -> Small<'a> {
    let (memory, source) = parts(rt.alloc(), space, habits, seen).expect(
        rt,
        "a memory and a source",
    );
    FlexTlsf::new(memory, source)
}

/// An address as a number, 0 if there is none.
pub fn number(addr: Option<Addr>) -> usize {
    match addr {
        Some(addr) => addr.get(),
        None => 0,
    }
}

/// The layout of so many bytes at any address.
pub fn bytes(size: u32) -> Layout
    ensures { (result.size ≡ size) × (result.align ≡ 1) }
{
    Layout::from_size_align_unchecked(size as usize, 1)
}

/// The address that is allocated for so many bytes, or 0. The payload is deallocated.
fn given_back<S: FlexSource>(flex: &mut Shaped<S>, size: u32) -> usize {
    match flex.allocate(bytes(size)) {
        Some(addr) => {
            flex.deallocate(addr, 1);
            addr.get()
        }
        None => 0,
    }
}

/// The two words of a footer, where the memory has them.
pub fn footer(memory: &Memory, addr: usize) -> Option<(u64, u64)> {
    let offset = addr.checked_sub(memory.start())?;
    if addr % 8 == 0 && offset < memory.len() && memory.len() - offset >= 16 {
        Some((memory.word(addr), memory.word(addr + 8)))
    } else {
        None
    }
}

/// Whether a step has its expected result.
fn goes_so<S: FlexSource>(flex: &mut Shaped<S>, step: Step) -> bool {
    match step {
        Step::Allocate(size, addr) => number(flex.allocate(bytes(size))) == addr,
        Step::GiveBack(size, addr) => given_back(flex, size) == addr,
        Step::Trim(count) => flex.trim() == count,
        Step::Footer(addr, words) => footer(flex.memory_ref(), addr) == Some(words),
    }
}

/// The index of the first step with a wrong result.
pub fn first_wrong<S: FlexSource>(flex: &mut Shaped<S>, steps: &[Step]) -> Option<usize> {
    for (index, step) in steps.iter().enumerate() {
        if !goes_so(flex, *step) {
            return Some(index);
        }
    }
    None
}

/// The outcome of a case up to its end. A source that takes nothing back must be asked nothing in the end.
pub fn outcome(rt: &(impl Abort + AllocGlobal), case: Case) -> Outcome {
    let seen = Cell::new(Questions::new());
    let mut flex = small(rt, case.space, case.habits, &seen);
    let wrong = first_wrong(&mut flex, case.steps);
    let before = flex.source_ref().asked();
    let (memory, source) = flex.into_parts();
    let asked = source.asked();
    let is_left = match case.left {
        Some((addr, words)) => footer(&memory, addr) == Some(words),
        None => true,
    };
    if is_left && (case.habits.dealloc || before == asked) {
        (wrong, asked)
    } else {
        (Some(case.steps.len()), asked)
    }
}

/// Passes if each case has its expected outcome.
pub fn are_right(rt: &(impl Abort + AllocGlobal), cases: &[Case]) {
    for case in cases {
        is_right(rt, outcome(rt, *case), case.asked);
    }
}

/// Passes if these steps have their expected results over each source that takes nothing back before the end, and if each other
/// case has its expected outcome. The steps allocate for one byte and then for 100.
pub fn are_right_with_each_capability(
    rt: &(impl Abort + AllocGlobal),
    steps: &'static [Step],
    others: &[Case],
) {
    for kept in &KEPT {
        let case = Case { steps, ..*kept };
        is_right(rt, outcome(rt, case), case.asked);
    }
    are_right(rt, others);
}

/// These questions, and no others.
fn only(asked: &[Question]) -> [Question; 8] {
    let mut all = Questions::new();
    for question in asked {
        all = all.with(*question);
    }
    all.asked()
}
