//! Maps: a trace is read, run and drawn.

ghost use Rattle.std.specs.Prelude.{◌≡◌, ◌≢◌, ◌⊎◌, IfErr, IfSome, OnOk};
ghost use Rattle.std.specs.Io.KnownBytes.{IsAtEnd};
ghost use Rattle.rlsf_trace_text.specs.Faults.{out_of_memory};
ghost use Rattle.rlsf_trace_runs.specs.Replays.{not_read, IsOutputFault, IsReplayFault, IsTrace};

use crate::boxes::boxes_of;
use crate::draw::{Scene, drawing};
use crate::legend::{denied_of, legend_of};
use crate::pools::{parts_of, pools_of};
use crate::window::{Lines, Window};
use rlsf_trace_runs::{Watched, bad_word_of, read_input, watch_trace, write_text};
use rlsf_trace_text::{Fault, ReplayFault, Trace};
use std::alloc::{AllocError, Global};
use std::io::{Read, Write};

/// Reads a trace from the rest of the reader, runs it on a new allocator, and writes a drawing of the calls of some lines.
///
/// The faults are those of `rlsf_trace_runs::replay`, in its order. Nothing is written with any fault but `Write`, and with that one a
/// beginning of the drawing may be. After `BadNumber`, `word` is the word that isn't such a number. No clause says that.
pub(crate) fn map<R: Read, W: Write>(
    alloc: Global,
    reader: &mut R,
    writer: &mut W,
    lines: Lines,
    word: &mut Option<String>,
) -> Result<(), ReplayFault>
    ensures end { OnOk result (IsAtEnd (R.remaining reader.new)) }
    ensures fault { IfErr result (λ f. IfSome (R.remaining reader.old) (λ input. IsReplayFault input f)) }
    ensures read { IfErr result (λ f. (f ≡ not_read) ⊎ ((f ≡ out_of_memory) ⊎ IsAtEnd (R.remaining reader.new))) }
    ensures silent { IfErr result (λ f. f.fault ≢ Fault.Write → W.contents writer.new ≡ W.contents writer.old) }
{
    let input = read_input(alloc, reader).map_err(|fault| fault.at_line(0))?;
    let text = match text_for(alloc, &input, lines) {
        Ok(text) => text,
        Err(fault) => {
            *word = bad_word_of(alloc, &input, fault);
            return Err(fault);
        }
    };
    write_text(writer, text.as_bytes()).map_err(|fault| fault.at_line(0))
}

// The complete drawing of an input.
fn text_for(alloc: Global, input: &[u8], lines: Lines) -> Result<String, ReplayFault>
    ensures ok { OnOk result (IsTrace input.now) }
    ensures fault { IfErr result (λ f. IsOutputFault input.now f) }
    ensures not_write { IfErr result (λ f. f.fault ≢ Fault.Write) }
{
    let trace = Trace::parse(alloc, input)?;
    let watched = watch_trace(alloc, &trace)?;
    Ok(drawing_for(alloc, &trace, &watched, lines)?)
}

// The drawing of a trace that was run.
fn drawing_for(
    alloc: Global,
    trace: &Trace,
    watched: &Watched,
    lines: Lines,
) -> Result<String, AllocError> {
    let window = Window::new(lines, trace.ops.len());
    let parts = parts_of(alloc, &trace.ops, &watched.answers)?;
    let pools = pools_of(alloc, &parts)?;
    let boxes = boxes_of(alloc, &trace.ops, watched, window)?;
    let denied = denied_of(alloc, &watched.answers, window)?;
    let scene = Scene {
        window,
        parts: &parts,
        pools: &pools,
        boxes: &boxes.boxes,
        blocks: &watched.blocks,
        denied: &denied,
        legend: legend_of(trace.configuration, watched, boxes.left_out),
    };
    drawing(alloc, &scene)
}
