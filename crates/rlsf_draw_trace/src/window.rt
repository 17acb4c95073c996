//! Which calls are drawn.

use std::fmt;

/// How many calls are drawn at most.
const MOST_CALLS: usize = 2000;

/// The lines of a trace whose calls are to be drawn.
#[derive(Clone, Copy)]
pub(crate) struct Lines {
    /// The number of the first one. Line 2 has the first call.
    pub(crate) first: usize,
    /// The number of the last one.
    pub(crate) last: usize,
}

impl Lines {
    /// All lines.
    pub(crate) const ALL: Lines = Lines {
        first: 2,
        last: usize::MAX,
    };
}

/// The calls that are drawn, by their indices from 0: from the first one up to the end.
#[derive(Clone, Copy)]
pub(crate) struct Window {
    /// The index of the first call.
    pub(crate) first: usize,
    /// The index behind the last call.
    pub(crate) end: usize,
    /// How many calls the trace has.
    pub(crate) calls: usize,
}

impl Window {
    /// The calls of some lines, of a trace of so many calls: 2,000 at most, the first ones.
    pub(crate) fn new(lines: Lines, calls: usize) -> Window {
        let first = lines.first.saturating_sub(2).min(calls);
        let end = lines.last.saturating_sub(1).min(calls);
        let end = end.max(first).min(first.saturating_add(MOST_CALLS));
        Window { first, end, calls }
    }

    /// How many calls are drawn.
    pub(crate) fn len(self) -> usize {
        self.end.saturating_sub(self.first)
    }
}

/// The lines of the calls, and how many calls the trace has.
impl fmt::Display for Window {
    fn fmt<W: fmt::Write>(&self, f: &mut fmt::Formatter<W>) -> fmt::Result {
        let first = self.first as u128 + 2;
        let last = self.end as u128 + 1;
        write!(
            f,
            "lines {first} to {last} of a trace of {} calls",
            self.calls
        )
    }
}
