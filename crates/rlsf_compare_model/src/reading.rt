//! Runs are read from their text.

ghost use Rattle.std.specs.Prelude.{IfOk, IfSome};
ghost use Rattle.rlsf_model_sizes.specs.PowerOfTwo.{IsPowerOfTwo};

use crate::error::Failure;
use rlsf_base::memory::{Layout, Range};
use rlsf_trace_flex_runs::{Capabilities, SourceAnswer};
use rlsf_trace_text::{Op, Trace};
use std::alloc::{AllocError, Global};

/// A run: what its source can do, what it answers, the trace, and its ops with the trims among them.
#[derive(Drop)]
pub(crate) struct Run {
    pub(crate) capabilities: Capabilities,
    pub(crate) answers: Vec<SourceAnswer>,
    pub(crate) trace: Trace,
    pub(crate) ops: Vec<Op>,
}

/// Reads a run from its text, which follows the word `run` and a space.
pub(crate) fn read_run(alloc: Global, text: &str) -> Result<Run, Failure>
    ensures { IfOk result (λ run. IsPowerOfTwo run.capabilities.min_align) }
{
    let (head, mut rest) = text.split_once('\n').ok_or(Failure::Head)?;
    let capabilities = read_capabilities(head)?;
    let mut answers = Vec::new(alloc);
    for _ in 0..text.len() {
        let Some((line, after)) = answer_line(rest) else {
            break;
        };
        answers.push(read_answer(line)?)?;
        rest = after;
    }
    let lines = rest.strip_suffix('\n').unwrap_or(rest);
    let text = without_trims(alloc, lines)?;
    let trace = Trace::parse(alloc, text.as_bytes())?;
    let ops = with_trims(alloc, lines, &trace.ops)?;
    Ok(Run {
        capabilities,
        answers,
        trace,
        ops,
    })
}

/// The line that asks for a trim, which the text of traces hasn't.
const TRIM: &str = "trim";

/// The text of a trace: the lines that ask for no trim, each with LF at its end.
fn without_trims(alloc: Global, lines: &str) -> Result<String, AllocError> {
    let mut text = String::new(alloc);
    for line in lines.split('\n') {
        if line != TRIM {
            text.push_str(line)?;
            text.push('\n')?;
        }
    }
    Ok(text)
}

/// The ops of the lines after the first: a trim where one asks for it, and else the next op of the trace.
fn with_trims(alloc: Global, lines: &str, ops: &[Op]) -> Result<Vec<Op>, AllocError> {
    let mut all = Vec::new(alloc);
    let mut others = ops.iter().copied();
    for line in lines.split('\n').skip(1) {
        let op = if line == TRIM {
            Some(Op::Trim)
        } else {
            others.next()
        };
        if let Some(op) = op {
            all.push(op)?;
        }
    }
    Ok(all)
}

/// The words of the first line, if it is an answer, and what follows it.
fn answer_line(text: &str) -> Option<(&str, &str)> {
    text.strip_prefix("answer ")?.split_once('\n')
}

fn read_capabilities(head: &str) -> Result<Capabilities, Failure>
    ensures { IfOk result (λ capabilities. IsPowerOfTwo capabilities.min_align) }
{
    let (words, min_align) = head.split_once(' ').ok_or(Failure::Head)?;
    let min_align = power_of_two(min_align).ok_or(Failure::Head)?;
    if !are_capabilities(words) {
        return Err(Failure::Head);
    }
    Ok(Capabilities {
        dealloc: has(words, "dealloc"),
        grow: has(words, "grow"),
        contiguous: has(words, "contiguous"),
        min_align,
    })
}

/// The number that a word is, if a layout can have it as its alignment.
fn power_of_two(word: &str) -> Option<usize>
    ensures { IfSome result (λ n. IsPowerOfTwo n) }
{
    let layout = Layout::from_size_align(0, number(word)?).ok()?;
    Some(layout.align())
}

fn are_capabilities(words: &str) -> bool {
    let mut all = true;
    for word in words.split('+') {
        all = all && matches!(word, "dealloc" | "grow" | "contiguous" | "-");
    }
    all
}

fn has(words: &str, capability: &str) -> bool {
    let mut found = false;
    for word in words.split('+') {
        found = found || word == capability;
    }
    found
}

fn read_answer(line: &str) -> Result<SourceAnswer, Failure> {
    if line == "none" {
        return Ok(SourceAnswer::None);
    }
    let answer = match line.split_once(' ') {
        Some((start, len)) => range(start, len).map(SourceAnswer::Range),
        None => number(line).map(SourceAnswer::Len),
    };
    answer.ok_or(Failure::Answer)
}

fn range(start: &str, len: &str) -> Option<Range> {
    let start = number(start)?;
    let len = number(len)?;
    Some(Range { start, len })
}

fn number(word: &str) -> Option<usize> {
    word.parse().ok()
}
