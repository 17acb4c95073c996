//! What a run over a source answers follows what was there already. What each op answers, each refusal, ranges that grow and trims
//! are stored runs of `rlsf_compare_model` (`listed_runs.py`).

ghost use Rattle.std.specs.Prelude.{◌≡◌};
ghost use Rattle.rlsf_model.specs.FlexState.{flex_empty};

use crate::heaps::all;
use crate::sources::parts;
use rlsf_base::memory::{Layout, Range};
use rlsf_flex::FlexTlsf;
use rlsf_int::BitPattern;
use rlsf_trace_flex_runs::{Capabilities, ListedSource, Question, SourceAnswer, run_flex};
use rlsf_trace_text::{Answer, Op, TraceError};
use std::alloc::Global;
use std::num::NonZeroUsize;

/// A source that is one range that grows.
const GROWING: Capabilities = Capabilities {
    dealloc: false,
    grow: true,
    contiguous: true,
    min_align: 1,
};

/// The range that it provides.
const RANGE: Range = Range {
    start: 4097,
    len: 96,
};

/// What it answers.
static GIVEN: [SourceAnswer; 2] = [SourceAnswer::Range(RANGE), SourceAnswer::Len(159)];

/// What it is asked by the ops below.
static ASKED: [Question; 2] = [
    Question::Alloc(96, Some(RANGE)),
    Question::Grow(RANGE, 159, Some(159)),
];

fn placed(addr: usize) -> Answer {
    Answer::Placed(NonZeroUsize::new(addr))
}

/// Whether a run of two allocations of one byte adds these addresses behind an answer that was there, and the source is asked what it
/// should be. `None` if the system is out of memory.
fn answers_follow<
    FLBitmap: BitPattern,
    SLBitmap: BitPattern,
    const FLLEN: usize,
    const SLLEN: usize,
>(
    alloc: Global,
    flex: &mut FlexTlsf<ListedSource, FLBitmap, SLBitmap, FLLEN, SLLEN>,
    addresses: (usize, usize),
) -> Option<bool>
    requires { flex.old.state ≡ flex_empty }
{
    let layout = Layout::from_size_align_unchecked(1, 1);
    let ops = [Op::Alloc(1, layout), Op::Alloc(2, layout)];
    let there = Answer::Refused(TraceError::UnknownName);
    let wanted = [there, placed(addresses.0), placed(addresses.1)];
    let mut answers = Vec::new(alloc);
    answers.push(there).ok()?;
    run_flex(alloc, flex, &ops, &mut answers).ok()?;
    Some(answers.as_slice() == wanted.as_slice() && flex.source_ref().asked() == ASKED.as_slice())
}

/// Whether that is so if chunks have a greatest length: what the range grows by is a chunk, which has the second payload.
fn with_a_greatest_length(alloc: Global) -> Option<bool> {
    let (memory, source) = parts(alloc, GROWING, &GIVEN)?;
    let mut flex = FlexTlsf::<_, u16, u16, 12, 16>::new(memory, source);
    answers_follow(alloc, &mut flex, (4144, 4208))
}

/// Whether that is so if chunks have any length: the chunk grows, and the second payload is behind the first.
fn with_any_length(alloc: Global) -> Option<bool> {
    let (memory, source) = parts(alloc, GROWING, &GIVEN)?;
    let mut flex = FlexTlsf::<_, u64, u64, 59, 8>::new(memory, source);
    answers_follow(alloc, &mut flex, (4144, 4176))
}

#[test]
fn answers_follow_those_already_there(rt: HostRuntime) {
    let answers = [
        with_a_greatest_length(rt.alloc()) == Some(true),
        with_any_length(rt.alloc()) == Some(true),
    ];
    all(&rt, &answers);
}
