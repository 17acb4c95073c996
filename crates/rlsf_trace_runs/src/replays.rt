//! Replays: a trace is read, run and printed.

ghost use Rattle.std.specs.Prelude.{◌≡◌, ◌≢◌, ◌<◌, ◌⊎◌, IfOk, IfErr, IfSome, OnOk, string_bytes};
ghost use Rattle.std.specs.Io.KnownBytes.{IsAtEnd};
ghost use Rattle.rlsf_base.specs.Range.{range_at};
ghost use Rattle.rlsf_model.specs.State.{empty};
ghost use Rattle.rlsf_base.specs.Space.{range_of};
ghost use Rattle.rlsf_trace_text.specs.Faults.{out_of_memory};
ghost use Rattle.rlsf_trace_runs.specs.Parts.{IsPartFor};
ghost use Rattle.rlsf_trace_runs.specs.Replays.{rows_of, classes_of, IsPrintedRun, IsOutput};
ghost use Rattle.rlsf_trace_runs.specs.Replays.{AppendsReplay, AppendsCutReplay, no_memory, not_read, IsOutputFault, IsReplayFault};

use crate::input::read_input;
use crate::output::write_text;
use crate::parts::part_for;
use crate::prints::print_run;
use rlsf_base::memory::{Memory, OpenMemory, Range};
use rlsf_int::BitPattern;
use rlsf_tlsf::Tlsf;
use rlsf_trace_text::{Configuration, Fault, ReplayFault, Trace};
use std::alloc::Global;
use std::io::{Read, Write};

// The part of a trace's memory that its ops name, zeroed. The system is asked for the complete memory first, which isn't written: if
// the system is out of memory, the fault is that of line 1.
fn memory_of(alloc: Global, trace: &Trace) -> Result<Memory, ReplayFault>
    ensures ok { IfOk result (λ m. IsPartFor (range_at trace.now.start trace.now.len) trace.now.ops.items (range_of m)) }
    ensures err { IfErr result (λ f. f ≡ no_memory) }
{
    let Ok(complete) = OpenMemory::reserve(alloc, trace.start, trace.len) else {
        return Err(Fault::OutOfMemory.at_line(1));
    };
    complete.free();
    let space = Range {
        start: trace.start,
        len: trace.len,
    };
    Ok(zeroed(alloc, part_for(space, &trace.ops))?)
}

// A memory of zero bytes.
fn zeroed(alloc: Global, range: Range) -> Result<Memory, ReplayFault>
    requires { 0 < range.start }
    ensures ok { IfOk result (λ memory. range_of memory ≡ range) }
    ensures err { IfErr result (λ f. f ≡ no_memory) }
{
    Memory::new(alloc, range.start, range.len).or(Err(Fault::OutOfMemory.at_line(1)))
}

// What is printed for ops, on an allocator that has no chunk. Its memory is the part of `memory` that the ops name.
fn text_with<FLBitmap: BitPattern, SLBitmap: BitPattern, const FLLEN: usize, const SLLEN: usize>(
    alloc: Global,
    mut tlsf: Tlsf<FLBitmap, SLBitmap, FLLEN, SLLEN>,
    trace: &Trace,
) -> Result<String, ReplayFault>
    requires empty { tlsf.state ≡ empty }
    requires part { IsPartFor (range_at trace.now.start trace.now.len) trace.now.ops.items (range_of tlsf.memory) }
    ensures ok { IfOk result (λ text. IsPrintedRun FLLEN SLLEN (range_at trace.now.start trace.now.len) trace.now.ops.items (string_bytes text)) }
    ensures err { IfErr result (λ f. f ≡ out_of_memory) }
{
    Ok(print_run(alloc, &mut tlsf, &trace.ops)?)
}

// What is printed for the ops of a trace, with its configuration and its memory.
fn text_for(alloc: Global, trace: &Trace) -> Result<String, ReplayFault>
    ensures ok { IfOk result (λ t. IsPrintedRun
        (rows_of trace.now.configuration) (classes_of trace.now.configuration)
        (range_at trace.now.start trace.now.len) trace.now.ops.items (string_bytes t)) }
    ensures err { IfErr result (λ f. (f ≡ out_of_memory) ⊎ (f ≡ no_memory)) }
{
    let memory = memory_of(alloc, trace)?;
    match trace.configuration {
        Configuration::EightByEight => text_with(alloc, Tlsf::<u8, u8, 8, 8>::new(memory), trace),
        Configuration::TwelveBySixteen => text_with(
            alloc,
            Tlsf::<u16, u16, 12, 16>::new(memory),
            trace,
        ),
        Configuration::FiftyNineByEight => text_with(
            alloc,
            Tlsf::<u64, u64, 59, 8>::new(memory),
            trace,
        ),
        Configuration::OneByOne => text_with(alloc, Tlsf::<u8, u8, 1, 1>::new(memory), trace),
        Configuration::EightByOne => text_with(alloc, Tlsf::<u8, u8, 8, 1>::new(memory), trace),
    }
}

// The complete output for an input. The input is dropped before the ops are run.
fn output_of(alloc: Global, input: Vec<u8>) -> Result<String, ReplayFault>
    ensures ok { IfOk result (λ text. IsOutput input.items (string_bytes text)) }
    ensures err { IfErr result (λ f. IsOutputFault input.items f) }
    ensures not_write { IfErr result (λ f. f.fault ≢ Fault.Write) }
{
    let trace = Trace::parse(alloc, &input)?;
    drop(input);
    Ok(text_for(alloc, &trace)?)
}

/// Replays a trace. Reads the rest of the reader as its text, runs the ops on a new allocator, and writes each op with its answer.
/// The first fault ends the replay.
///
/// The faults, in this order:
///
/// - `Read` of line 0, if the input can't be read;
/// - the first fault of the text, with its line;
/// - `OutOfMemory` of line 1, if there is no memory of the length that the first line asks for;
/// - `Write` of line 0, if the output can't be written.
///
/// If there is no other memory, the fault is `OutOfMemory` of line 0. No clause says that this fault has no other cause, and which
/// of the two lines it has.
///
/// Nothing is written with any fault but `Write`. With that one, a beginning of the output may be written. The reader is at its
/// end, unless the fault is `Read`, or `OutOfMemory` of line 0.
pub fn replay<R: Read, W: Write>(
    alloc: Global,
    reader: &mut R,
    writer: &mut W,
) -> Result<(), ReplayFault>
    ensures ok { OnOk result (IfSome (R.remaining reader.old) (λ input.
        AppendsReplay input (W.contents writer.old) (W.contents writer.new))) }
    ensures end { OnOk result (IsAtEnd (R.remaining reader.new)) }
    ensures fault { IfErr result (λ f. IfSome (R.remaining reader.old) (λ input. IsReplayFault input f)) }
    ensures read { IfErr result (λ f. (f ≡ not_read) ⊎ ((f ≡ out_of_memory) ⊎ IsAtEnd (R.remaining reader.new))) }
    ensures silent { IfErr result (λ f. f.fault ≢ Fault.Write → W.contents writer.new ≡ W.contents writer.old) }
    ensures beginning { IfErr result (λ f. f.fault ≡ Fault.Write → IfSome (R.remaining reader.old) (λ input.
        AppendsCutReplay input (W.contents writer.old) (W.contents writer.new))) }
{
    let input = read_input(alloc, reader).map_err(|fault| fault.at_line(0))?;
    let text = output_of(alloc, input)?;
    write_text(writer, text.as_bytes()).map_err(|fault| fault.at_line(0))
}
