//! Sources that answer from a list, first as it is, and then with each answer replaced by none in turn. After each refused call,
//! all bytes and the source's outstanding ranges are unchanged, and the run goes on.

mod tables;

ghost use Rattle.rlsf_model_sizes.specs.PowerOfTwo.{IsPowerOfTwo};

use self::tables::{CLAIMS_CONTIGUITY, GROWS_AND_TAKES_BACK, TAKES_BACK};
use crate::heaps::all;
use crate::sources::parts;
use rlsf_base::memory::{Memory, Range};
use rlsf_flex::FlexTlsf;
use rlsf_trace_flex_runs::{Capabilities, ListedSource, Question, SourceAnswer, run_flex};
use rlsf_trace_text::{Answer, Op, Trace, text_of};
use std::alloc::{AllocError, Global};

/// The answers of a source, the calls of its runs, and the expected answers and questions of each run. The first run has the
/// answers as they are. Each later run has one of them replaced by none.
struct List {
    answers: &'static [SourceAnswer],
    trace: &'static str,
    runs: &'static [&'static str],
}

/// The result of calls: their answers, the memory and the source.
#[derive(Drop)]
struct Left {
    answers: Vec<Answer>,
    memory: Memory,
    source: ListedSource,
}

/// What ops leave over a source with these answers. `None` if the system is out of memory.
fn left_by(
    alloc: Global,
    capabilities: Capabilities,
    given: &[SourceAnswer],
    ops: &[Op],
) -> Option<Left>
    requires { IsPowerOfTwo capabilities.min_align }
{
    let (first, fresh) = parts(alloc, capabilities, given)?;
    let mut flex = FlexTlsf::<_, u8, u8, 8, 8>::new(first, fresh);
    let mut answers = Vec::new(alloc);
    let run = run_flex(alloc, &mut flex, ops, &mut answers);
    let (memory, source) = flex.into_parts();
    match run {
        Ok(()) => Some(Left {
            answers,
            memory,
            source,
        }),
        Err(_) => None,
    }
}

/// The questions up to the end, and those at the end: the ranges that were outstanding then.
fn up_to_end(asked: &[Question]) -> (&[Question], &[Question]) {
    for (end, question) in asked.iter().enumerate() {
        if let Question::Dealloc(_) = question {
            return asked.split_at(end);
        }
    }
    (asked, &[])
}

/// Whether the answer to a question was none.
fn is_refused(question: &Question) -> bool {
    matches!(
        question,
        Question::Alloc(_, None) | Question::Grow(_, _, None)
    )
}

/// All bytes of a memory.
fn bytes(memory: &Memory) -> &[u8] {
    memory.slice(Range {
        start: memory.start(),
        len: memory.len(),
    })
}

/// Whether a call that was refused left the bytes and the outstanding ranges as they were, and got no memory.
fn is_unchanged(before: &Left, after: &Left) -> bool {
    let (asked, outstanding) = up_to_end(before.source.asked());
    let (asked_then, outstanding_then) = up_to_end(after.source.asked());
    let Some(new) = asked_then.strip_prefix(asked) else {
        return false;
    };
    bytes(&before.memory) == bytes(&after.memory)
        && outstanding == outstanding_then
        && new.iter().all(is_refused)
}

/// Whether one more op adds one answer, and leaves all as it was where that is a refusal.
fn follows(before: &Left, after: &Left) -> bool {
    match after.answers.strip_prefix(before.answers.as_slice()) {
        Some([Answer::Placed(None)]) => is_unchanged(before, after),
        Some([_]) => true,
        _ => false,
    }
}

/// The result of the ops. `None` if one of them, done as the last one, has another answer than among all of them. `None` also if it
/// is refused and changes something, or if the system is out of memory.
fn left_by_each(
    alloc: Global,
    capabilities: Capabilities,
    given: &[SourceAnswer],
    ops: &[Op],
) -> Option<Left>
    requires { IsPowerOfTwo capabilities.min_align }
{
    let mut before = left_by(alloc, capabilities, given, &[])?;
    for (place, _) in ops.iter().enumerate() {
        let after = left_by(alloc, capabilities, given, &ops[..=place])?;
        if !follows(&before, &after) {
            return None;
        }
        before = after;
    }
    Some(before)
}

/// The answers of a list, one of which is replaced by none if the run isn't the first. `None` if the system is out of memory.
fn replaced(alloc: Global, given: &[SourceAnswer], run: usize) -> Option<Vec<SourceAnswer>> {
    let mut answers = given.to_vec(alloc).ok()?;
    if 0 < run && run <= answers.len() {
        answers[run - 1] = SourceAnswer::None;
    }
    Some(answers)
}

/// A line for a question.
fn tell(text: &mut String, question: Question) -> Result<(), AllocError> {
    match question {
        Question::Alloc(size, Some(Range { start, len })) => {
            write!(text, "asked {size} got {start} {len}\n")
        }
        Question::Alloc(size, None) => write!(text, "asked {size} got none\n"),
        Question::Grow(Range { start, len }, wanted, Some(given)) => {
            write!(
                text,
                "asked {start} {len} to grow to {wanted} got {given}\n"
            )
        }
        Question::Grow(Range { start, len }, wanted, None) => {
            write!(text, "asked {start} {len} to grow to {wanted} got none\n")
        }
        Question::Dealloc(Range { start, len }) => write!(text, "given back {start} {len}\n"),
    }
}

/// What a run answers and asks. `None` where a refused call changes something, or if the system is out of memory.
fn told(alloc: Global, capabilities: Capabilities, list: &List, run: usize) -> Option<String>
    requires { IsPowerOfTwo capabilities.min_align }
{
    let trace = Trace::parse(alloc, list.trace.as_bytes()).ok()?;
    let given = replaced(alloc, list.answers, run)?;
    let left = left_by_each(alloc, capabilities, &given, &trace.ops)?;
    let mut text = text_of(alloc, &trace.ops, &left.answers).ok()?;
    for question in left.source.asked() {
        tell(&mut text, *question).ok()?;
    }
    Some(text)
}

/// The first run with a wrong result. 0 if there isn't a run for each answer and one more.
fn first_wrong(alloc: Global, capabilities: Capabilities, list: &List) -> Option<usize>
    requires { IsPowerOfTwo capabilities.min_align }
{
    if list.answers.len().checked_add(1) != Some(list.runs.len()) {
        return Some(0);
    }
    for (run, wanted) in list.runs.iter().enumerate() {
        match told(alloc, capabilities, list, run) {
            Some(text) if text.as_str() == *wanted => {}
            _ => return Some(run),
        }
    }
    None
}

/// A source that grows its ranges and takes them back, one that claims to be one range, and one that only takes its ranges back.
const GROWS: Capabilities = Capabilities {
    dealloc: true,
    grow: true,
    contiguous: false,
    min_align: 1,
};

const CLAIMS: Capabilities = Capabilities {
    dealloc: false,
    grow: true,
    contiguous: true,
    min_align: 1,
};

const TAKES: Capabilities = Capabilities {
    dealloc: true,
    grow: false,
    contiguous: false,
    min_align: 64,
};

#[test]
fn each_answer_refused(rt: HostRuntime) {
    let answers = [
        first_wrong(rt.alloc(), GROWS, &GROWS_AND_TAKES_BACK).is_none(),
        first_wrong(rt.alloc(), CLAIMS, &CLAIMS_CONTIGUITY).is_none(),
        first_wrong(rt.alloc(), TAKES, &TAKES_BACK).is_none(),
    ];
    all(&rt, &answers);
}
