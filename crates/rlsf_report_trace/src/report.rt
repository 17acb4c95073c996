//! Reports: a trace is read, run and counted.

ghost use Rattle.std.specs.Prelude.{◌≡◌, ◌≢◌, ◌⊎◌, IfErr, IfSome, OnOk};
ghost use Rattle.std.specs.Io.KnownBytes.{IsAtEnd};
ghost use Rattle.rlsf_trace_text.specs.Faults.{out_of_memory};
ghost use Rattle.rlsf_trace_runs.specs.Replays.{no_memory, not_read, IsOutputFault, IsReplayFault, IsTrace};

use crate::advice::advice_of;
use crate::counts::counts_of;
use crate::csv::csv_of;
use crate::refusals::{print_refusals, refusals_of};
use crate::sizes::asked_bytes;
use crate::summary::summary_of;
use crate::table::{print_advice, print_counts, print_summary};
use rlsf_trace_runs::{Watched, bad_word_of, read_input, watch_trace, write_text};
use rlsf_trace_text::{Fault, ReplayFault, Trace};
use std::alloc::Global;
use std::io::{Read, Write};

/// The form of a report.
#[derive(Clone, Copy)]
pub(crate) enum Form {
    /// A table of numbers.
    Table,
    /// A line for each call.
    Csv,
}

/// Reads a trace from the rest of the reader, runs it on a new allocator, and writes its report.
///
/// The faults are those of `rlsf_trace_runs::replay`, in its order. Nothing is written with any fault but `Write`, and with that one a
/// beginning of the text may be. After `BadNumber`, `word` is the word that isn't such a number. No clause says that.
pub(crate) fn report<R: Read, W: Write>(
    alloc: Global,
    reader: &mut R,
    writer: &mut W,
    form: Form,
    word: &mut Option<String>,
) -> Result<(), ReplayFault>
    ensures end { OnOk result (IsAtEnd (R.remaining reader.new)) }
    ensures fault { IfErr result (λ f. IfSome (R.remaining reader.old) (λ input. IsReplayFault input f)) }
    ensures read { IfErr result (λ f. (f ≡ not_read) ⊎ ((f ≡ out_of_memory) ⊎ IsAtEnd (R.remaining reader.new))) }
    ensures silent { IfErr result (λ f. f.fault ≢ Fault.Write → W.contents writer.new ≡ W.contents writer.old) }
{
    let input = read_input(alloc, reader).map_err(|fault| fault.at_line(0))?;
    let text = match text_for(alloc, &input, form) {
        Ok(text) => text,
        Err(fault) => {
            *word = bad_word_of(alloc, &input, fault);
            return Err(fault);
        }
    };
    write_text(writer, text.as_bytes()).map_err(|fault| fault.at_line(0))
}

// The complete report of an input.
fn text_for(alloc: Global, input: &[u8], form: Form) -> Result<String, ReplayFault>
    ensures ok { OnOk result (IsTrace input.now) }
    ensures fault { IfErr result (λ f. IsOutputFault input.now f) }
    ensures not_write { IfErr result (λ f. f.fault ≢ Fault.Write) }
{
    let trace = Trace::parse(alloc, input)?;
    let watched = watch_trace(alloc, &trace)?;
    match form {
        Form::Csv => Ok(csv_of(alloc, &trace.ops, &watched)?),
        Form::Table => table_for(alloc, &trace, &watched),
    }
}

// The table for a trace that was run.
fn table_for(alloc: Global, trace: &Trace, watched: &Watched) -> Result<String, ReplayFault>
    ensures { IfErr result (λ f. (f ≡ out_of_memory) ⊎ (f ≡ no_memory)) }
{
    let counts = counts_of(alloc, &trace.ops, &watched.answers)?;
    let refusals = refusals_of(alloc, &trace.ops, &watched.answers)?;
    let summary = summary_of(watched);
    let asked = asked_bytes(alloc, &trace.ops, &watched.answers)?;
    let advice = advice_of(alloc, trace, watched)?;
    let mut text = String::new(alloc);
    print_counts(&mut text, &counts)?;
    print_refusals(&mut text, &refusals)?;
    print_summary(&mut text, summary, asked)?;
    if let Some(advice) = advice {
        print_advice(&mut text, trace.configuration, advice)?;
    }
    Ok(text)
}
