//! The original's tests of its allocator over sources, in its thirty configurations and over its two sources. They are fixed calls,
//! and fixed lists of bytes that mean calls. The expected results are tables, as the reference model over a source computed them
//! (`originals/tables.py`).

mod asked;
mod contiguous;
mod lists;
mod script;
mod shapes;
mod system;

ghost use Rattle.rlsf_model_sizes.specs.SizeClass.{IsValid};

use self::asked::{Asked, Source};
use self::lists::{LIST_36, LIST_53, LIST_108, LIST_134, LIST_165, LIST_1241};
use self::script::Script;
use self::shapes::{
    CHOICES, LIKE_1_BY_1, LIKE_3_BY_4, LIKE_5_BY_4, LIKE_8_BY_1, LIKE_8_BY_8, LIKE_11_BY_4,
    LIKE_11_BY_16, LIKE_11_BY_32, LIKE_16_BY_4, LIKE_16_BY_16, LIKE_16_BY_32, LIKE_58_BY_8,
    LIKE_59_BY_8,
};
use crate::calls::Call;
use crate::sources::parts_of;
use rlsf_flex::FlexTlsf;
use rlsf_int::BitPattern;
use rlsf_trace_flex_runs::{ListedSource, Question, SourceAnswer, run_flex};
use rlsf_trace_text::{Answer, Op};
use std::alloc::Global;
use std::process::Abort;

/// Where the spaces of the sources start.
const START: usize = 65536;

/// The expected outcome of a run.
#[derive(Clone, Copy)]
struct Outcome {
    /// The address that each call answers which places a payload, less the space's start, or 0 where there is none.
    placed: &'static [u32],
    /// How many bytes the source is asked for, each time.
    asked: &'static [u32],
}

/// Which of the outcomes each run has in some configurations.
#[derive(Clone, Copy)]
struct Choice {
    system: [usize; RUNS],
    contiguous: [usize; RUNS],
}

/// How many runs there are over a source.
const RUNS: usize = 8;

/// How many questions a source remembers.
const QUESTIONS: usize = 128;

/// The original's test `minimal`.
static MINIMAL: [Call; 2] = [Call::Alloc(1, 1, 1), Call::Free(1)];

/// The original's test `aadaadaraaadr`.
static AADAADARAAADR: [Call; 13] = [
    Call::Alloc(1, 20, 16),
    Call::Alloc(2, 21, 1),
    Call::Free(1),
    Call::Alloc(3, 0, 32),
    Call::Alloc(4, 10, 8),
    Call::Free(2),
    Call::Alloc(5, 12, 8),
    Call::Realloc(3, 0),
    Call::Alloc(6, 24, 2),
    Call::Alloc(7, 11, 16),
    Call::Alloc(8, 1, 32),
    Call::Free(5),
    Call::Realloc(3, 4),
];

/// Bytes that mean calls, and the other inputs of the original's test `random`: the first byte of the vector, and a bound of sizes.
#[derive(Clone, Copy)]
struct List {
    bytes: [u8; 160],
    skipped: usize,
    bound: usize,
}

/// What is done in a run.
#[derive(Clone, Copy)]
enum Calls {
    Fixed(&'static [Call]),
    Listed(&'static List),
}

/// The calls of the run at a place.
fn calls_at(place: usize) -> Option<Calls> {
    match place {
        0 => Some(Calls::Fixed(&MINIMAL)),
        1 => Some(Calls::Fixed(&AADAADARAAADR)),
        2 => Some(Calls::Listed(&LIST_36)),
        3 => Some(Calls::Listed(&LIST_134)),
        4 => Some(Calls::Listed(&LIST_165)),
        5 => Some(Calls::Listed(&LIST_1241)),
        6 => Some(Calls::Listed(&LIST_53)),
        7 => Some(Calls::Listed(&LIST_108)),
        _ => None,
    }
}

/// The expected outcomes of the run at a place over the system: in each configuration one of these.
fn over_system(place: usize) -> &'static [Outcome] {
    match place {
        0 => &system::MINIMAL,
        1 => &system::AADAADARAAADR,
        2 => &system::LIST_36,
        3 => &system::LIST_134,
        4 => &system::LIST_165,
        5 => &system::LIST_1241,
        6 => &system::LIST_53,
        _ => &system::LIST_108,
    }
}

/// The expected outcomes of the run at a place over a vector: in each configuration one of these.
fn over_contiguous(place: usize) -> &'static [Outcome] {
    match place {
        0 => &contiguous::MINIMAL,
        1 => &contiguous::AADAADARAAADR,
        2 => &contiguous::LIST_36,
        3 => &contiguous::LIST_134,
        4 => &contiguous::LIST_165,
        5 => &contiguous::LIST_1241,
        6 => &contiguous::LIST_53,
        _ => &contiguous::LIST_108,
    }
}

/// Names the type of an allocator. A proof knows that it fits in memory where a caller names it.
type Shape<'a, FLBitmap, SLBitmap, const FLLEN: usize, const SLLEN: usize> = Option<
    &'a FlexTlsf<ListedSource, FLBitmap, SLBitmap, FLLEN, SLLEN>,
>;

/// The ops of a run, and their expected answers.
fn script_of(rt: &(impl Abort + AllocGlobal), calls: Calls, placed: &[u32]) -> Script {
    let mut script = Script::new(rt, placed);
    match calls {
        Calls::Fixed(calls) => script.add_calls(rt, calls),
        Calls::Listed(list) => script.add_bytes(rt, &list.bytes, list.bound),
    }
    script
}

/// The result of a run over a source: its answers, and the source.
#[derive(Drop)]
struct Left {
    answers: Vec<Answer>,
    source: ListedSource,
}

/// What ops leave. `None` if the system is out of memory.
fn left_by<FLBitmap: BitPattern, SLBitmap: BitPattern, const FLLEN: usize, const SLLEN: usize>(
    alloc: Global,
    source: Source,
    given: Vec<SourceAnswer>,
    ops: &[Op],
    _shape: Shape<'_, FLBitmap, SLBitmap, FLLEN, SLLEN>,
) -> Option<Left>
    requires { IsValid FLBitmap.width SLBitmap.width FLLEN SLLEN }
{
    let (space, capabilities) = (source.space(), source.capabilities());
    let (memory, source) = parts_of(alloc, space, capabilities, given, QUESTIONS)?;
    let mut flex = FlexTlsf::<_, FLBitmap, SLBitmap, FLLEN, SLLEN>::new(memory, source);
    let mut answers = Vec::new(alloc);
    let run = run_flex(alloc, &mut flex, ops, &mut answers);
    let (_, source) = flex.into_parts();
    match run {
        Ok(()) => Some(Left { answers, source }),
        Err(_) => None,
    }
}

/// A run, and its expected outcome.
#[derive(Drop)]
struct Plan {
    source: Source,
    script: Script,
    asked: Asked,
}

/// The run with a number: with an even one over the system's allocator, and else over the vector. Nothing where there is none.
fn plan_of(rt: &(impl Abort + AllocGlobal), choice: usize, number: usize) -> Option<Plan> {
    let place = number / 2;
    let calls = calls_at(place)?;
    let choice = CHOICES.get(choice)?;
    let (source, outcome) = if number % 2 == 0 {
        (
            Source::System,
            over_system(place).get(*choice.system.get(place)?)?,
        )
    } else {
        let skipped = match calls {
            Calls::Fixed(_) => 17,
            Calls::Listed(list) => list.skipped,
        };
        let outcome = over_contiguous(place).get(*choice.contiguous.get(place)?)?;
        (Source::Contiguous(skipped), outcome)
    };
    Some(Plan {
        source,
        script: script_of(rt, calls, outcome.placed),
        asked: Asked::new(rt, source, outcome.asked),
    })
}

/// Whether a run left what it has to.
fn is_right(script: &Script, questions: &[Question], left: &Left) -> bool {
    script.is_answered_by(&left.answers) && left.source.asked() == questions
}

/// Whether the run with a number goes as it has to. `None` where there is none, or if the system is out of memory.
fn goes_so<FLBitmap: BitPattern, SLBitmap: BitPattern, const FLLEN: usize, const SLLEN: usize>(
    rt: &(impl Abort + AllocGlobal),
    choice: usize,
    number: usize,
    shape: Shape<'_, FLBitmap, SLBitmap, FLLEN, SLLEN>,
) -> Option<bool>
    requires { IsValid FLBitmap.width SLBitmap.width FLLEN SLLEN }
{
    let Plan {
        source,
        script,
        asked,
    } = plan_of(rt, choice, number)?;
    let Asked { answers, questions } = asked;
    let left = left_by(rt.alloc(), source, answers, &script.ops, shape)?;
    Some(is_right(&script, &questions, &left))
}

/// The number of the first run with a wrong outcome.
fn first_wrong<FLBitmap: BitPattern, SLBitmap: BitPattern, const FLLEN: usize, const SLLEN: usize>(
    rt: &(impl Abort + AllocGlobal),
    choice: usize,
    shape: Shape<'_, FLBitmap, SLBitmap, FLLEN, SLLEN>,
) -> Option<usize>
    requires { IsValid FLBitmap.width SLBitmap.width FLLEN SLLEN }
{
    for number in 0..2 * RUNS {
        if goes_so(rt, choice, number, shape) != Some(true) {
            return Some(number);
        }
    }
    None
}

/// Passes if no run has a wrong outcome, in any of the configurations.
fn none_is_wrong(rt: &impl Abort, found: &[Option<usize>]) {
    for (index, wrong) in found.iter().enumerate() {
        assert!(rt; wrong.is_none(), "in the configuration at {index}");
    }
}

#[test]
fn few_classes(rt: HostRuntime) {
    let found = [
        first_wrong::<u8, u8, 1, 1>(&rt, LIKE_1_BY_1, None),
        first_wrong::<u8, u8, 1, 2>(&rt, LIKE_1_BY_1, None),
        first_wrong::<u8, u8, 1, 4>(&rt, LIKE_1_BY_1, None),
        first_wrong::<u8, u8, 1, 8>(&rt, LIKE_1_BY_1, None),
        first_wrong::<u8, u8, 3, 4>(&rt, LIKE_3_BY_4, None),
    ];
    none_is_wrong(&rt, &found);
}

#[test]
fn rows_of_8_bits(rt: HostRuntime) {
    let found = [
        first_wrong::<u8, u8, 5, 4>(&rt, LIKE_5_BY_4, None),
        first_wrong::<u8, u8, 8, 1>(&rt, LIKE_8_BY_1, None),
        first_wrong::<u8, u8, 8, 8>(&rt, LIKE_8_BY_8, None),
        first_wrong::<u16, u8, 3, 4>(&rt, LIKE_3_BY_4, None),
        first_wrong::<u16, u8, 11, 4>(&rt, LIKE_11_BY_4, None),
        first_wrong::<u16, u8, 16, 4>(&rt, LIKE_16_BY_4, None),
    ];
    none_is_wrong(&rt, &found);
}

#[test]
fn rows_of_16_classes(rt: HostRuntime) {
    let found = [
        first_wrong::<u16, u16, 3, 16>(&rt, LIKE_3_BY_4, None),
        first_wrong::<u16, u16, 11, 16>(&rt, LIKE_11_BY_16, None),
        first_wrong::<u16, u16, 16, 16>(&rt, LIKE_16_BY_16, None),
        first_wrong::<u16, u32, 3, 16>(&rt, LIKE_3_BY_4, None),
        first_wrong::<u16, u32, 11, 16>(&rt, LIKE_11_BY_16, None),
        first_wrong::<u16, u32, 16, 16>(&rt, LIKE_16_BY_16, None),
    ];
    none_is_wrong(&rt, &found);
}

#[test]
fn rows_of_32_classes(rt: HostRuntime) {
    let found = [
        first_wrong::<u16, u32, 3, 32>(&rt, LIKE_3_BY_4, None),
        first_wrong::<u16, u32, 11, 32>(&rt, LIKE_11_BY_32, None),
        first_wrong::<u16, u32, 16, 32>(&rt, LIKE_16_BY_32, None),
        first_wrong::<u32, u32, 20, 32>(&rt, LIKE_16_BY_32, None),
        first_wrong::<u32, u32, 27, 32>(&rt, LIKE_16_BY_32, None),
        first_wrong::<u32, u32, 28, 32>(&rt, LIKE_16_BY_32, None),
        first_wrong::<u32, u32, 29, 32>(&rt, LIKE_16_BY_32, None),
        first_wrong::<u32, u32, 32, 32>(&rt, LIKE_16_BY_32, None),
    ];
    none_is_wrong(&rt, &found);
}

#[test]
fn most_rows(rt: HostRuntime) {
    let found = [
        first_wrong::<u64, u64, 58, 8>(&rt, LIKE_58_BY_8, None),
        first_wrong::<u64, u64, 59, 8>(&rt, LIKE_59_BY_8, None),
        first_wrong::<u64, u64, 60, 8>(&rt, LIKE_59_BY_8, None),
        first_wrong::<u64, u64, 61, 8>(&rt, LIKE_59_BY_8, None),
        first_wrong::<u64, u64, 64, 8>(&rt, LIKE_59_BY_8, None),
    ];
    none_is_wrong(&rt, &found);
}
