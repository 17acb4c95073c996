//! Replays of runs.

ghost use Rattle.std.specs.Prelude.{◌≡◌, [], IfOk, length};
ghost use Rattle.rlsf_model_sizes.specs.PowerOfTwo.{IsPowerOfTwo};
ghost use Rattle.rlsf_base.specs.Range.{LiesIn};
ghost use Rattle.rlsf_model.specs.FlexState.{flex_empty};
ghost use Rattle.rlsf_trace_flex_runs.specs.Listed.{ListedMayOwe};

use crate::error::Failure;
use crate::output::print_questions;
use crate::reading::{Run, read_run};
use rlsf_base::memory::{Memory, Range};
use rlsf_flex::FlexTlsf;
use rlsf_int::BitPattern;
use rlsf_trace_flex_runs::{Capabilities, ListedSource, SourceAnswer, run_flex};
use rlsf_trace_text::{Answer, Configuration, Op, text_of};
use std::alloc::Global;

/// The lines of the run with this text: those of its ops, and then those of its source's questions.
pub(crate) fn output_of(alloc: Global, text: &str) -> Result<String, Failure> {
    let Run {
        capabilities,
        answers,
        trace,
        ops,
    } = read_run(alloc, text)?;
    let space = Range {
        start: trace.start,
        len: trace.len,
    };
    // An op asks two questions at most, and each range returns once, by a trim or at the end.
    let questions = ops.len().saturating_mul(3);
    let parts = parts_in(alloc, space, capabilities, answers, questions)?;
    output_by(alloc, trace.configuration, parts, &ops)
}

/// The memory of a space, and the source that provides ranges of it.
fn parts_in(
    alloc: Global,
    space: Range,
    capabilities: Capabilities,
    answers: Vec<SourceAnswer>,
    questions: usize,
) -> Result<(Memory, ListedSource), Failure>
    requires { IsPowerOfTwo capabilities.min_align }
    ensures { IfOk result (λ parts. LiesIn parts.1.terms.space parts.0.start (length parts.0.bytes) × ListedMayOwe parts.1 []) }
{
    let source = ListedSource::new(alloc, space, capabilities, answers, questions)?;
    let memory = Memory::new(alloc, space.start, space.len)?;
    Ok((memory, source))
}

/// The lines of ops on an allocator of a configuration, over a memory and a source.
fn output_by(
    alloc: Global,
    configuration: Configuration,
    parts: (Memory, ListedSource),
    ops: &[Op],
) -> Result<String, Failure>
    requires { LiesIn parts.1.terms.space parts.0.start (length parts.0.bytes) × ListedMayOwe parts.1 [] }
{
    let (memory, source) = parts;
    match configuration {
        Configuration::EightByEight => {
            output_with(alloc, FlexTlsf::<_, u8, u8, 8, 8>::new(memory, source), ops)
        }
        Configuration::TwelveBySixteen => output_with(
            alloc,
            FlexTlsf::<_, u16, u16, 12, 16>::new(memory, source),
            ops,
        ),
        Configuration::FiftyNineByEight => output_with(
            alloc,
            FlexTlsf::<_, u64, u64, 59, 8>::new(memory, source),
            ops,
        ),
        Configuration::OneByOne => {
            output_with(alloc, FlexTlsf::<_, u8, u8, 1, 1>::new(memory, source), ops)
        }
        Configuration::EightByOne => {
            output_with(alloc, FlexTlsf::<_, u8, u8, 8, 1>::new(memory, source), ops)
        }
    }
}

/// The lines of ops on an allocator that has asked for nothing yet.
fn output_with<FLBitmap: BitPattern, SLBitmap: BitPattern, const FLLEN: usize, const SLLEN: usize>(
    alloc: Global,
    mut flex: FlexTlsf<ListedSource, FLBitmap, SLBitmap, FLLEN, SLLEN>,
    ops: &[Op],
) -> Result<String, Failure>
    requires { flex.state ≡ flex_empty }
{
    let mut answers = Vec::new(alloc);
    let run = run_flex(alloc, &mut flex, ops, &mut answers);
    let (_, source) = flex.into_parts();
    run?;
    text_with_questions(alloc, ops, &answers, &source)
}

/// The lines of ops and their answers, and then those of the questions that a source was asked.
fn text_with_questions(
    alloc: Global,
    ops: &[Op],
    answers: &[Answer],
    source: &ListedSource,
) -> Result<String, Failure> {
    let mut text = text_of(alloc, ops, answers)?;
    print_questions(&mut text, source.asked())?;
    Ok(text)
}
