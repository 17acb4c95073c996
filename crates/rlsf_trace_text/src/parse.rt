//! A trace, read from its text.

ghost use Rattle.std.specs.Prelude.{◌+◌, ◌^◌, ◌<◌};

use crate::configuration::Configuration;
use crate::fault::ReplayFault;
use crate::lines::Lines;
use crate::op::Op;
use crate::reading::{read_header, read_ops};
use std::alloc::Global;

/// A trace, read from its text.
#[derive(Debug, Drop, PartialEq, Eq)]
pub struct Trace {
    /// The parameters of the allocator.
    pub configuration: Configuration,
    /// The address at which the memory starts.
    pub start: usize,
    /// The length of the memory in bytes.
    pub len: usize,
    /// The ops, one for each line after the first.
    pub ops: Vec<Op>,
    pub ghost starts: { 0 < start },
    pub ghost fits: { start + len < 2 ^ 64 },
}

impl Trace {
    ghost use Rattle.std.specs.Prelude.{◌≡◌, ◌⊎◌, IfErr};
    ghost use Rattle.rlsf_trace_text.specs.Faults.{out_of_memory, IsOfLine};
    ghost use Rattle.rlsf_trace_text.specs.FallibleSteps.{ReadsAsOrRefused};
    ghost use Rattle.rlsf_trace_text.specs.Reading.{trace_in, trace_text};

    /// Reads a trace from its complete text.
    ///
    /// LF ends a line. What follows the last LF is a line if it is not empty, and any text has a first line. Single spaces
    /// separate the words of a line, and CR has no meaning. A number is one to twenty decimal digits with a value of at most
    /// `2^64 - 1`. A BYTE is a number of at most 255.
    ///
    /// The first line is `CONFIG START LEN`. The others are `insert START LEN`, `append START LEN`,
    /// `alloc NAME SIZE ALIGN`, `free NAME`, `ufree NAME`, `realloc NAME SIZE`, `nrealloc NAME SIZE`,
    /// `fill NAME BYTE`, `put NAME OFFSET BYTE`, `get NAME OFFSET`, `usable NAME` or `block START LEN INDEX`.
    ///
    /// The first line that has another form is the fault, with its number. The first line is tested for `FieldCount`, `Config`,
    /// `BadNumber`, `ZeroStart` and `TooLong`, in this order. Any other line is tested for `UnknownOp`, `FieldCount`, `BadNumber`
    /// and `BadLayout`.
    ///
    /// The error is `OutOfMemory` of no line if there is no memory for the ops. No clause says that it has no other cause.
    #[tactic(auto, using(crate::proofs::TextFaults::fault_of_line))]
    pub fn parse(alloc: Global, text: &[u8]) -> Result<Trace, ReplayFault>
        ensures read { ReadsAsOrRefused trace_text result (trace_in text.now) }
        ensures fault { IfErr result (λ f. IsOfLine f ⊎ (f ≡ out_of_memory)) }
    {
        Trace::read(alloc, text)
    }

    // The result for the text. That each fault of it is of a line follows.
    #[tactic(auto, using(crate::proofs::LineParts::lines_counted), unfolding(crate::specs::Reading::trace_in))]
    fn read(alloc: Global, text: &[u8]) -> Result<Trace, ReplayFault>
        ensures { ReadsAsOrRefused trace_text result (trace_in text.now) }
    {
        let mut lines = Lines::new(text);
        let first = lines.next().unwrap_or(&[]);
        let (configuration, start, len) = read_header(first).map_err(|fault| fault.at_line(1))?;
        let ops = read_ops(alloc, lines)?;
        Ok(Trace {
            configuration,
            start,
            len,
            ops,
        })
    }
}
