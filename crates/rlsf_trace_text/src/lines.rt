//! Iteration over the lines of a text.

use crate::cut::cut;

/// The lines of a text, from the first on. LF ends a line, and what follows the last LF is a line if it
/// is not empty.
#[derive(Drop)]
pub(crate) struct Lines<'a> {
    // What follows the last LF that was passed.
    rest: Option<&'a [u8]>,
}

impl<'a> Lines<'a> {
    ghost use Rattle.std.specs.Prelude.{◌≡◌, ◌^◌, ◌<◌, length};
    ghost use Rattle.rlsf_trace_text.specs.Lines.{lines, lines_left};

    /// The lines of `text`. Their number fits 64 bits.
    #[tactic(auto, using(crate::proofs::LineParts::lines_counted))]
    pub(crate) fn new(text: &'a [u8]) -> Lines<'a>
        ensures all { lines_left result ≡ lines text.now }
        ensures few { length (lines_left result) < 2 ^ 64 }
    {
        // Each line has a byte of its own.
        prove!(text.len() < usize::MAX);
        Lines { rest: Some(text) }
    }
}

impl<'a> Iterator for Lines<'a> {
    ghost use Rattle.std.specs.Iterator.{YieldsFirstRef, item_count};
    ghost use Rattle.rlsf_trace_text.specs.Lines.{lines_left};

    type Item = &'a [u8];

    ghost next_gives = { YieldsFirstRef lines_left };

    ghost remaining = { item_count lines_left };

    #[tactic(auto, using(crate::proofs::LineParts::lines_taken))]
    fn next(&mut self) -> Option<&'a [u8]> {
        match self.rest {
            Some(rest) if !rest.is_empty() => {
                let (line, after) = cut(rest, b'\n');
                self.rest = after;
                Some(line)
            }
            _ => None,
        }
    }
}
