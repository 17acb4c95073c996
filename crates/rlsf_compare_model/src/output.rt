//! What is printed of a source.

use rlsf_base::memory::Range;
use rlsf_trace_flex_runs::Question;
use std::alloc::AllocError;

/// Prints a line for each question, in their order.
pub(crate) fn print_questions(text: &mut String, asked: &[Question]) -> Result<(), AllocError> {
    for question in asked {
        print_question(text, *question)?;
        text.push('\n')?;
    }
    Ok(())
}

fn print_question(text: &mut String, question: Question) -> Result<(), AllocError> {
    match question {
        Question::Alloc(size, given) => {
            write!(text, "asked {size} got ")?;
            print_range(text, given)
        }
        Question::Grow(Range { start, len }, wanted, Some(given)) => {
            write!(text, "asked {start} {len} to grow to {wanted} got {given}")
        }
        Question::Grow(Range { start, len }, wanted, None) => {
            write!(text, "asked {start} {len} to grow to {wanted} got none")
        }
        Question::Dealloc(Range { start, len }) => write!(text, "given back {start} {len}"),
    }
}

fn print_range(text: &mut String, given: Option<Range>) -> Result<(), AllocError> {
    match given {
        Some(Range { start, len }) => write!(text, "{start} {len}"),
        None => write!(text, "none"),
    }
}
