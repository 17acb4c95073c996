//! How long the pool of a trace has to be.

ghost use Rattle.std.specs.Prelude.{◌≡◌, ◌⊎◌, IfErr};
ghost use Rattle.rlsf_trace_text.specs.Faults.{out_of_memory};
ghost use Rattle.rlsf_trace_runs.specs.Replays.{no_memory};

use crate::summary::most_live;
use rlsf_base::classes::pool_size_for_payloads;
use rlsf_base::memory::{Layout, Range};
use rlsf_trace_runs::{Watched, watch_ops};
use rlsf_trace_text::{Answer, Configuration, Op, ReplayFault, Trace};
use std::alloc::{AllocError, Global};

/// The advice for a trace that inserts one range.
#[derive(Clone, Copy)]
pub(crate) struct Advice {
    /// How many payloads are live at most.
    pub(crate) live: usize,
    /// The greatest size that is asked for.
    pub(crate) size: usize,
    /// The greatest alignment that is asked for.
    pub(crate) align: usize,
    /// How long a chunk is that refuses no payload of such a size and alignment, whatever is freed and allocated in which order. None
    /// where no chunk is so long.
    pub(crate) enough: Option<usize>,
    /// How long the inserted range is.
    pub(crate) inserted: usize,
    /// The number of the first line that finds no room in the first half of the range, and found room in the complete range.
    pub(crate) first_denied: Option<u128>,
}

/// The advice for a trace that has one insert and no append, which is run again in half the range. `None` for any other trace. An
/// error if the system is out of memory.
pub(crate) fn advice_of(
    alloc: Global,
    trace: &Trace,
    watched: &Watched,
) -> Result<Option<Advice>, ReplayFault>
    ensures { IfErr result (λ f. (f ≡ out_of_memory) ⊎ (f ≡ no_memory)) }
{
    let Some(range) = only_range(&trace.ops) else {
        return Ok(None);
    };
    let live = most_live(&watched.moments);
    let (size, align) = greatest(&trace.ops, &watched.answers);
    let halved = halved(alloc, &trace.ops)?;
    let half = watch_ops(alloc, trace, &halved)?;
    Ok(Some(Advice {
        live,
        size,
        align,
        enough: enough(trace.configuration, live, size, align),
        inserted: range.len,
        first_denied: first_denied(&watched.answers, &half.answers),
    }))
}

// The range of the one insert, where there is no other and no append.
fn only_range(ops: &[Op]) -> Option<Range> {
    let mut only = None;
    for op in ops {
        match *op {
            Op::Insert(range) if only.is_none() => only = Some(range),
            Op::Insert(_) | Op::Append(_) => return None,
            _ => (),
        }
    }
    only
}

// The greatest size and the greatest alignment that are asked for, but by calls that are refused as they are written.
fn greatest(ops: &[Op], answers: &[Answer]) -> (usize, usize) {
    let mut size = 0;
    let mut align = 1;
    for (op, answer) in ops.iter().zip(answers) {
        let (new_size, new_align) = asked(*op, *answer);
        size = size.max(new_size);
        align = align.max(new_align);
    }
    (size, align)
}

// The size and the alignment that a call asks for, or the least ones.
fn asked(op: Op, answer: Answer) -> (usize, usize) {
    match (op, answer) {
        (_, Answer::Refused(_)) => (0, 1),
        (Op::Alloc(_, layout), _) => (layout.size(), layout.align()),
        (Op::Realloc(_, size) | Op::ReallocNoMove(_, size), _) => (size, 1),
        _ => (0, 1),
    }
}

// The ops, with half of each range that is inserted.
fn halved(alloc: Global, ops: &[Op]) -> Result<Vec<Op>, AllocError> {
    ops.iter()
        .map(|op| match op {
            Op::Insert(Range { start, len }) => Op::Insert(Range {
                start: *start,
                len: *len / 2,
            }),
            _ => *op,
        })
        .collect(alloc)
}

// The number of the first line that found room before, and now finds none.
fn first_denied(before: &[Answer], now: &[Answer]) -> Option<u128> {
    let place = before
        .iter()
        .zip(now)
        .position(|(before, now)| finds_room(*before) && !finds_room(*now))?;
    // Line 1 names the configuration and the memory.
    Some(place as u128 + 2)
}

fn finds_room(answer: Answer) -> bool {
    !matches!(answer, Answer::Placed(None) | Answer::Inserted(None))
}

// The length of a chunk that is enough.
fn enough(configuration: Configuration, live: usize, size: usize, align: usize) -> Option<usize> {
    let layout = Layout::from_size_align(size, align).ok()?;
    match configuration {
        Configuration::EightByEight => pool_size_for_payloads::<u8, u8, 8, 8>(live, layout),
        Configuration::TwelveBySixteen => pool_size_for_payloads::<u16, u16, 12, 16>(live, layout),
        Configuration::FiftyNineByEight => pool_size_for_payloads::<u64, u64, 59, 8>(live, layout),
        Configuration::OneByOne => pool_size_for_payloads::<u8, u8, 1, 1>(live, layout),
        Configuration::EightByOne => pool_size_for_payloads::<u8, u8, 8, 1>(live, layout),
    }
}
