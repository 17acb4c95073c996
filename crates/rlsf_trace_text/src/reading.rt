//! Reads the first line of a trace, and the ops of the others.

ghost use Rattle.std.specs.Prelude.{◌+◌, ◌^◌, ◌<◌, map, length, IfOk};
ghost use Rattle.rlsf_trace_text.specs.FallibleSteps.{ReadsAs, ReadsAsOrRefused};
ghost use Rattle.rlsf_trace_text.specs.Commands.{command_of};
ghost use Rattle.rlsf_trace_text.specs.Lines.{lines_left};
ghost use Rattle.rlsf_trace_text.specs.Words.{words, words_left};
ghost use Rattle.rlsf_trace_text.specs.Reading.{one_number, two_numbers, three_numbers, insert_in, append_in, layout_of, alloc_in, free_in, free_unknown_in, realloc_in, realloc_no_move_in, fill_in, put_in, get_in, usable_in, block_in, command_in, header_in, commands_in};

use crate::configuration::Configuration;
use crate::fault::{Fault, ReplayFault};
use crate::lines::Lines;
use crate::number::{byte, number};
use crate::op::Op;
use crate::words::{Words, is_same};
use rlsf_base::memory::{Layout, Range};
use std::alloc::Global;

/// The first line: a configuration, and the start and the length of the memory.
#[tactic(auto, unfolding(crate::specs::Reading::header_in))]
pub(crate) fn read_header(line: &[u8]) -> Result<(Configuration, usize, usize), Fault>
    ensures read { ReadsAs (λ h. h) result (header_in (words line.now)) }
    ensures starts { IfOk result (λ h. 0 < h.1) }
    ensures fits { IfOk result (λ h. h.1 + h.2 < 2 ^ 64) }
{
    let (name, start, len) = Words::new(line).exactly_three()?;
    let Some(configuration) = Configuration::named(name) else {
        return Err(Fault::Config);
    };
    let start = number(start)?;
    let len = number(len)?;
    if start == 0 {
        return Err(Fault::ZeroStart);
    }
    if len > usize::MAX - start {
        return Err(Fault::TooLong);
    }
    Ok((configuration, start, len))
}

/// The ops of the lines after the first.
#[tactic(auto, using(crate::proofs::Commands::commands_behind_all))]
pub(crate) fn read_ops(alloc: Global, lines: Lines) -> Result<Vec<Op>, ReplayFault>
    requires { 1 + length (lines_left lines) < 2 ^ 64 }
    ensures { ReadsAsOrRefused (λ ops. map command_of ops.items) result
        (commands_in (lines_left lines.entry)) }
{
    let mut ops = Vec::new(alloc);
    let mut earlier = 1;
    for line in lines {
        match read_op(line) {
            Ok(op) => ops.push(op)?,
            Err(fault) => return Err(fault.at_line(earlier + 1)),
        }
        earlier += 1;
    }
    Ok(ops)
}

#[tactic(auto, unfolding(crate::specs::Reading::command_in))]
fn read_op(line: &[u8]) -> Result<Op, Fault>
    ensures { ReadsAs command_of result (command_in (words line.now)) }
{
    let mut fields = Words::new(line);
    let Some(name) = fields.next() else {
        return Err(Fault::UnknownOp);
    };
    if is_same(name, b"insert") {
        read_insert(fields)
    } else if is_same(name, b"append") {
        read_append(fields)
    } else if is_same(name, b"alloc") {
        read_alloc(fields)
    } else if is_same(name, b"free") {
        read_free(fields)
    } else if is_same(name, b"ufree") {
        read_free_unknown(fields)
    } else if is_same(name, b"realloc") {
        read_realloc(fields)
    } else if is_same(name, b"nrealloc") {
        read_realloc_no_move(fields)
    } else if is_same(name, b"fill") {
        read_fill(fields)
    } else if is_same(name, b"put") {
        read_put(fields)
    } else if is_same(name, b"get") {
        read_get(fields)
    } else if is_same(name, b"usable") {
        read_usable(fields)
    } else if is_same(name, b"block") {
        read_block(fields)
    } else {
        Err(Fault::UnknownOp)
    }
}

/// The one number that is left.
#[tactic(auto, unfolding(crate::specs::Reading::one_number))]
fn one_number(fields: Words) -> Result<usize, Fault>
    ensures { ReadsAs (λ n. n) result (one_number (words_left fields.entry)) }
{
    let word = fields.exactly_one()?;
    number(word)
}

/// The two numbers that are left.
#[tactic(auto, unfolding(crate::specs::Reading::two_numbers))]
fn two_numbers(fields: Words) -> Result<(usize, usize), Fault>
    ensures { ReadsAs (λ both. both) result (two_numbers (words_left fields.entry)) }
{
    let (first, second) = fields.exactly_two()?;
    let first = number(first)?;
    let second = number(second)?;
    Ok((first, second))
}

/// The three numbers that are left.
#[tactic(auto, unfolding(crate::specs::Reading::three_numbers))]
fn three_numbers(fields: Words) -> Result<(usize, usize, usize), Fault>
    ensures { ReadsAs (λ all. all) result (three_numbers (words_left fields.entry)) }
{
    let (first, second, third) = fields.exactly_three()?;
    let first = number(first)?;
    let second = number(second)?;
    let third = number(third)?;
    Ok((first, second, third))
}

#[tactic(auto, unfolding(crate::specs::Reading::insert_in))]
fn read_insert(fields: Words) -> Result<Op, Fault>
    ensures { ReadsAs command_of result (insert_in (words_left fields.entry)) }
{
    let (start, len) = two_numbers(fields)?;
    Ok(Op::Insert(Range { start, len }))
}

#[tactic(auto, unfolding(crate::specs::Reading::append_in))]
fn read_append(fields: Words) -> Result<Op, Fault>
    ensures { ReadsAs command_of result (append_in (words_left fields.entry)) }
{
    let (start, len) = two_numbers(fields)?;
    Ok(Op::Append(Range { start, len }))
}

#[tactic(auto, unfolding(crate::specs::Reading::alloc_in))]
fn read_alloc(fields: Words) -> Result<Op, Fault>
    ensures { ReadsAs command_of result (alloc_in (words_left fields.entry)) }
{
    let (name, size, align) = three_numbers(fields)?;
    let layout = layout_of(size, align)?;
    Ok(Op::Alloc(name, layout))
}

#[tactic(auto, using(crate::proofs::LayoutTests::layout_tests), unfolding(crate::specs::Reading::layout_of))]
fn layout_of(size: usize, align: usize) -> Result<Layout, Fault>
    ensures { ReadsAs (λ layout. (layout.size, layout.align)) result (layout_of size align) }
{
    match Layout::from_size_align(size, align) {
        Ok(layout) => Ok(layout),
        Err(_) => Err(Fault::BadLayout),
    }
}

#[tactic(auto, unfolding(crate::specs::Reading::free_in))]
fn read_free(fields: Words) -> Result<Op, Fault>
    ensures { ReadsAs command_of result (free_in (words_left fields.entry)) }
{
    let name = one_number(fields)?;
    Ok(Op::Free(name))
}

#[tactic(auto, unfolding(crate::specs::Reading::free_unknown_in))]
fn read_free_unknown(fields: Words) -> Result<Op, Fault>
    ensures { ReadsAs command_of result (free_unknown_in (words_left fields.entry)) }
{
    let name = one_number(fields)?;
    Ok(Op::FreeUnknown(name))
}

#[tactic(auto, unfolding(crate::specs::Reading::realloc_in))]
fn read_realloc(fields: Words) -> Result<Op, Fault>
    ensures { ReadsAs command_of result (realloc_in (words_left fields.entry)) }
{
    let (name, size) = two_numbers(fields)?;
    Ok(Op::Realloc(name, size))
}

#[tactic(auto, unfolding(crate::specs::Reading::realloc_no_move_in))]
fn read_realloc_no_move(fields: Words) -> Result<Op, Fault>
    ensures { ReadsAs command_of result (realloc_no_move_in (words_left fields.entry)) }
{
    let (name, size) = two_numbers(fields)?;
    Ok(Op::ReallocNoMove(name, size))
}

#[tactic(auto, unfolding(crate::specs::Reading::fill_in))]
fn read_fill(fields: Words) -> Result<Op, Fault>
    ensures { ReadsAs command_of result (fill_in (words_left fields.entry)) }
{
    let (name, value) = two_numbers(fields)?;
    let byte = byte(value)?;
    Ok(Op::Fill(name, byte))
}

#[tactic(auto, unfolding(crate::specs::Reading::put_in))]
fn read_put(fields: Words) -> Result<Op, Fault>
    ensures { ReadsAs command_of result (put_in (words_left fields.entry)) }
{
    let (name, offset, value) = three_numbers(fields)?;
    let byte = byte(value)?;
    Ok(Op::Put(name, offset, byte))
}

#[tactic(auto, unfolding(crate::specs::Reading::get_in))]
fn read_get(fields: Words) -> Result<Op, Fault>
    ensures { ReadsAs command_of result (get_in (words_left fields.entry)) }
{
    let (name, offset) = two_numbers(fields)?;
    Ok(Op::Get(name, offset))
}

#[tactic(auto, unfolding(crate::specs::Reading::usable_in))]
fn read_usable(fields: Words) -> Result<Op, Fault>
    ensures { ReadsAs command_of result (usable_in (words_left fields.entry)) }
{
    let name = one_number(fields)?;
    Ok(Op::Usable(name))
}

#[tactic(auto, unfolding(crate::specs::Reading::block_in))]
fn read_block(fields: Words) -> Result<Op, Fault>
    ensures { ReadsAs command_of result (block_in (words_left fields.entry)) }
{
    let (start, len, index) = three_numbers(fields)?;
    Ok(Op::Block(Range { start, len }, index))
}
