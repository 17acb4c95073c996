//! Prints ops with their answers.

ghost use Rattle.std.specs.Prelude.{◌≡◌, ◌++◌, OnOk, IfOk, string_bytes};
ghost use Rattle.rlsf_trace_text.specs.Printing.{op_text, inserted_text, placed_text, block_text, answer_text, line_text, text_of};

use crate::op::{Answer, Op};
use rlsf_base::memory::{Addr, Range};
use std::alloc::{AllocError, Global};
use std::num::NonZeroUsize;

/// The lines that are printed for ops and their answers: one for each op that has an answer, in their
/// order, each ended by LF.
///
/// Returns an error if the system is out of memory. No clause says that it has no other cause.
pub fn text_of(alloc: Global, ops: &[Op], answers: &[Answer]) -> Result<String, AllocError>
    ensures { IfOk result (λ text. string_bytes text ≡ text_of ops.now answers.now) }
{
    let mut text = String::new(alloc);
    for (op, answer) in ops.iter().zip(answers) {
        print_line(&mut text, *op, *answer)?;
        text.push('\n')?;
    }
    Ok(text)
}

/// Appends the line that is printed for an op and its answer, without the LF that ends it.
///
/// Returns an error if the system is out of memory. No clause says that it has no other cause.
#[tactic(auto, unfolding(crate::specs::Printing::line_text))]
pub fn print_line(text: &mut String, op: Op, answer: Answer) -> Result<(), AllocError>
    ensures { OnOk result (string_bytes text.new ≡ string_bytes text.old ++ line_text op answer) }
{
    match answer {
        Answer::Refused(_) => {}
        _ => print_op(text, op)?,
    }
    print_answer(text, answer)
}

fn print_answer(text: &mut String, answer: Answer) -> Result<(), AllocError>
    ensures { OnOk result (string_bytes text.new ≡ string_bytes text.old ++ answer_text answer) }
{
    match answer {
        Answer::Inserted(len) => print_inserted(text, len),
        Answer::Appended(count) | Answer::Usable(count) | Answer::Trimmed(count) => {
            write!(text, " {count}")
        }
        Answer::Placed(addr) => print_placed(text, addr),
        Answer::Done => text.push_str(" done"),
        Answer::Byte(byte) => write!(text, " {byte}"),
        Answer::Block(block) => print_block(text, block),
        Answer::Refused(error) => {
            let number = error.number();
            write!(text, "refused {number} {error}")
        }
    }
}

fn print_op(text: &mut String, op: Op) -> Result<(), AllocError>
    ensures { OnOk result (string_bytes text.new ≡ string_bytes text.old ++ op_text op) }
{
    let (command, name) = match op {
        Op::Insert(_) => ("insert", None),
        Op::Append(_) => ("append", None),
        Op::Alloc(name, _) => ("alloc", Some(name)),
        Op::Free(name) => ("free", Some(name)),
        Op::FreeUnknown(name) => ("ufree", Some(name)),
        Op::Realloc(name, _) => ("realloc", Some(name)),
        Op::ReallocNoMove(name, _) => ("nrealloc", Some(name)),
        Op::Fill(name, _) => ("fill", Some(name)),
        Op::Put(name, _, _) => ("put", Some(name)),
        Op::Get(name, _) => ("get", Some(name)),
        Op::Usable(name) => ("usable", Some(name)),
        Op::Block(_, _) => ("block", None),
        Op::Trim => ("trim", None),
    };
    match name {
        Some(name) => write!(text, "{command} {name}"),
        None => text.push_str(command),
    }
}

fn print_inserted(text: &mut String, len: Option<NonZeroUsize>) -> Result<(), AllocError>
    ensures { OnOk result (string_bytes text.new ≡ string_bytes text.old ++ inserted_text len) }
{
    match len {
        Some(len) => write!(text, " some {len}"),
        None => text.push_str(" none"),
    }
}

fn print_placed(text: &mut String, addr: Option<Addr>) -> Result<(), AllocError>
    ensures { OnOk result (string_bytes text.new ≡ string_bytes text.old ++ placed_text addr) }
{
    match addr {
        Some(addr) => write!(text, " at {addr}"),
        None => text.push_str(" none"),
    }
}

fn print_block(text: &mut String, block: Option<(Range, bool)>) -> Result<(), AllocError>
    ensures { OnOk result (string_bytes text.new ≡ string_bytes text.old ++ block_text block) }
{
    match block {
        Some((Range { start, len }, true)) => write!(text, " {start} {len} used"),
        Some((Range { start, len }, false)) => write!(text, " {start} {len} free"),
        None => text.push_str(" none"),
    }
}
