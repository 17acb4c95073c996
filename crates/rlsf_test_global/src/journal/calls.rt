//! Calls under the passes of several callers on one thread, and what closing finds.

use crate::answers::{all, memory, passes};
use crate::steps::{NO_STEP, Step, arguments_of, done, placed};
use rlsf_global::{CloseError, Closed, GlobalError, Journaled, Pass, Reply};
use std::alloc::Global;
use std::fmt::Display;
use std::process::Abort;
use std::sync::Wait;

/// Calls with the number of the caller before each, and the result behind it: an address, 0 for a deallocation, or the number of
/// the error.
type Steps = &'static [(usize, Step, usize)];

/// Calls over an allocator, and what is closed behind them.
struct Case {
    /// How many bytes the memory has, from 65536 on.
    len: usize,
    callers: usize,
    steps: Steps,
    /// For each caller the numbers of the entries that it has receipts for.
    receipts: &'static [&'static [usize]],
    /// Whether the passes are handed back the last one first.
    last_first: bool,
    /// How many entries there are, and how many payloads are live.
    counts: (usize, usize),
    /// What is closed, as text.
    text: &'static str,
}

/// Makes a call, which has to be one with an entry: the address, or 0 for a deallocation, or the number of the error.
fn answer(rt: &impl Wait, journaled: &Journaled, pass: &mut Pass, step: Step) -> usize {
    let Some(to) = arguments_of(step) else {
        return NO_STEP;
    };
    if pass.caller() >= journaled.callers() {
        return NO_STEP;
    }
    match step {
        Step::Allocate(_, _) => placed(journaled.allocate(rt, pass, to.layout)),
        Step::Deallocate(_) => done(journaled.deallocate(rt, pass, to.addr)),
        Step::Reallocate(_, _, _) => placed(journaled.reallocate(rt, pass, to.addr, to.layout)),
        _ => NO_STEP,
    }
}

/// The place of the first step with a wrong result, or that can't be done.
fn first_wrong(
    rt: &impl Wait,
    journaled: &Journaled,
    passes: &mut [Pass],
    steps: Steps,
) -> Option<usize> {
    for (place, (caller, step, wanted)) in steps.iter().enumerate() {
        let answered = match passes.get_mut(*caller) {
            Some(pass) => answer(rt, journaled, pass, *step),
            None => NO_STEP,
        };
        if answered != *wanted {
            return Some(place);
        }
    }
    None
}

/// Whether a pass has receipts for the entries of these numbers.
fn has_receipts(pass: &Pass, numbers: &[usize]) -> bool {
    let receipts = pass.receipts();
    for (receipt, number) in receipts.iter().zip(numbers) {
        if receipt.number != *number {
            return false;
        }
    }
    receipts.len() == numbers.len()
}

/// Whether each pass has the receipts at its place.
fn have_receipts(passes: &[Pass], numbers: &[&[usize]]) -> bool {
    for (pass, numbers) in passes.iter().zip(numbers) {
        if !has_receipts(pass, numbers) {
            return false;
        }
    }
    passes.len() == numbers.len()
}

/// An allocator over so many bytes from 65536 on, with the passes of its callers.
pub fn over(rt: &impl Abort, alloc: Global, len: usize, callers: usize) -> (Journaled, Vec<Pass>) {
    Journaled::new(alloc, memory(rt, alloc, len), callers).expect(rt, "passes")
}

/// The state after a case. Passes if all steps have their expected results, and the passes their receipts.
fn after_steps(rt: &(impl Wait + Abort), alloc: Global, case: &Case) -> (Journaled, Vec<Pass>) {
    let (journaled, mut passes) = over(rt, alloc, case.len, case.callers);
    let answers = [
        journaled.callers() == case.callers,
        first_wrong(rt, &journaled, &mut passes, case.steps).is_none(),
        have_receipts(&passes, case.receipts),
    ];
    all(rt, &answers);
    (journaled, passes)
}

/// The result of closing. Passes if the passes agree with the journal, and there are so many entries and so many live payloads.
pub fn agreed(
    rt: &impl Abort,
    journaled: Journaled,
    passes: Vec<Pass>,
    counts: (usize, usize),
) -> Closed {
    let closed = journaled.close(passes).ok().expect(rt, "the passes agree");
    let (entries, live) = counts;
    all(
        rt,
        &[closed.journal.len() == entries, closed.live.len() == live],
    );
    closed
}

/// Whether a value is printed as this text.
fn has_text(rt: &impl Abort, alloc: Global, shown: &impl Display, text: &str) -> bool {
    shown.to_string(alloc).expect(rt, "a text").as_str() == text
}

/// Passes if a case has its expected result.
fn is_right(rt: &(impl Wait + Abort), alloc: Global, case: &Case) {
    let (journaled, mut passes) = after_steps(rt, alloc, case);
    if case.last_first {
        passes.reverse();
    }
    let closed = agreed(rt, journaled, passes, case.counts);
    all(rt, &[has_text(rt, alloc, &closed, case.text)]);
}

static ONE_THREAD: Case = Case {
    len: 65536,
    callers: 2,
    steps: &[
        (0, Step::Allocate(0, 1), 65552),
        (1, Step::Allocate(0, 1), 65584),
        (0, Step::Allocate(65536, 1), 1),
    ],
    receipts: &[&[0, 2], &[1]],
    last_first: false,
    counts: (3, 2),
    text: "0 caller 0: allocate 0 align 1: placed at 65552\n\
           1 caller 1: allocate 0 align 1: placed at 65584\n\
           2 caller 0: allocate 65536 align 1: no room\n\
           live 65552: 0 align 1\n\
           live 65584: 0 align 1\n",
};

#[test]
fn one_thread(rt: HostRuntime) {
    is_right(&rt, rt.alloc(), &ONE_THREAD);
}

/// A payload that one of two callers allocates, and both free.
static FREED_TWICE: Case = Case {
    len: 131072,
    callers: 2,
    steps: &[
        (0, Step::Allocate(1, 1), 65552),
        (1, Step::Deallocate(65552), 0),
        (0, Step::Deallocate(65552), 2),
    ],
    receipts: &[&[0, 2], &[1]],
    last_first: true,
    counts: (3, 0),
    text: "0 caller 0: allocate 1 align 1: placed at 65552\n\
           1 caller 1: deallocate 65552: freed\n\
           2 caller 0: deallocate 65552: unknown address\n",
};

#[test]
fn another_caller_frees(rt: HostRuntime) {
    is_right(&rt, rt.alloc(), &FREED_TWICE);
}

static MOVED: Case = Case {
    len: 131072,
    callers: 1,
    steps: &[
        (0, Step::Allocate(8, 8), 65552),
        (0, Step::Reallocate(65552, 40, 16), 65584),
        (0, Step::Reallocate(65552, 40, 16), 2),
    ],
    receipts: &[&[0, 1, 2]],
    last_first: false,
    counts: (3, 1),
    text: "0 caller 0: allocate 8 align 8: placed at 65552\n\
           1 caller 0: reallocate 65552 to 40 align 16: placed at 65584\n\
           2 caller 0: reallocate 65552 to 40 align 16: unknown address\n\
           live 65584: 40 align 16\n",
};

#[test]
fn a_payload_moves(rt: HostRuntime) {
    is_right(&rt, rt.alloc(), &MOVED);
}

/// The first page doesn't suffice, and the range that is there grows.
static SECOND_PAGE: Case = Case {
    len: 196608,
    callers: 2,
    steps: &[
        (0, Step::Allocate(1, 1), 65552),
        (1, Step::Allocate(70000, 1), 65584),
        (0, Step::Reallocate(65552, 60000, 64), 135616),
    ],
    receipts: &[&[0, 2], &[1]],
    last_first: false,
    counts: (3, 2),
    text: "0 caller 0: allocate 1 align 1: placed at 65552\n\
           1 caller 1: allocate 70000 align 1: placed at 65584\n\
           2 caller 0: reallocate 65552 to 60000 align 64: placed at 135616\n\
           live 65584: 70000 align 1\n\
           live 135616: 60000 align 64\n",
};

#[test]
fn a_second_page(rt: HostRuntime) {
    is_right(&rt, rt.alloc(), &SECOND_PAGE);
}

/// The last pass, an unused one, of another allocator with so many callers.
fn stray(rt: &impl Abort, alloc: Global, callers: usize) -> Pass {
    let (_, mut passes) = over(rt, alloc, 65536, callers);
    passes.pop().expect(rt, "a pass")
}

/// The number of the error, or 0 where it was closed.
fn code(closed: Result<Closed, CloseError>) -> usize {
    match closed {
        Ok(_) => 0,
        Err(error) => error as usize,
    }
}

/// What closing answers when a payload was freed twice, and so many of the own passes are handed back, and then strays.
/// Each stray is of an allocator with so many callers.
fn closing(rt: &(impl Wait + Abort), alloc: Global, own: usize, strays: &[usize]) -> usize {
    let (journaled, mut passes) = after_steps(rt, alloc, &FREED_TWICE);
    passes.truncate(own);
    for callers in strays {
        let pass = stray(rt, alloc, *callers);
        passes.push(pass).expect(rt, "room for a pass");
    }
    code(journaled.close(passes))
}

/// How many own passes are handed back, the strays behind them, and the number of the error that closing answers.
static FAULTS: [(usize, &[usize], usize); 5] = [
    (1, &[], 1),
    (2, &[3], 2),
    (1, &[2], 3),
    // Strange, missing and a mismatch; and the last two.
    (0, &[2, 2], 2),
    (0, &[2], 1),
];

#[test]
fn faults_come_in_their_order(rt: HostRuntime) {
    for (place, (own, strays, error)) in FAULTS.iter().enumerate() {
        passes(&rt, closing(&rt, rt.alloc(), *own, strays) == *error, place);
    }
}

#[test]
fn too_many_callers(rt: HostRuntime) {
    let memory = memory(&rt, rt.alloc(), 65536);
    let refused = Journaled::new(rt.alloc(), memory, usize::MAX).err();
    all(&rt, &[refused == Some(GlobalError::JournalMemory)]);
}

static NO_CALLERS: Case = Case {
    len: 65536,
    callers: 0,
    steps: &[],
    receipts: &[],
    last_first: false,
    counts: (0, 0),
    text: "",
};

#[test]
fn no_callers(rt: HostRuntime) {
    is_right(&rt, rt.alloc(), &NO_CALLERS);
}

// The last two have no entry, so no text of a journal shows theirs.
#[test]
fn each_reply_has_its_text(rt: HostRuntime) {
    let alloc = rt.alloc();
    let answers = [
        has_text(&rt, alloc, &Reply::Freed, "freed"),
        has_text(&rt, alloc, &Reply::NoRoom, "no room"),
        has_text(&rt, alloc, &Reply::UnknownAddress, "unknown address"),
        has_text(&rt, alloc, &Reply::TableMemory, "no memory for the table"),
        has_text(
            &rt,
            alloc,
            &Reply::JournalMemory,
            "no memory for the journal",
        ),
    ];
    all(&rt, &answers);
}
