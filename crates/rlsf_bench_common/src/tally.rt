//! The tally that a benchmark prints.

ghost use Rattle.std.specs.Prelude.{◌≡◌, ◌+◌, ◌<◌, ◌≤◌, ◌^◌};
ghost use Rattle.rlsf_base.specs.Addr.{reply};
ghost use Rattle.rlsf_bench_common.specs.Runs.{tally_after, empty_tally};

use rlsf_base::memory::Addr;
use std::fmt;

/// The tally of the allocations and reallocations so far.
#[derive(Clone, Copy)]
pub(crate) struct Tally {
    /// How many were refused.
    pub(crate) refused: u64,
    /// A sum over the addresses that they returned, in their order.
    pub(crate) checksum: u64,
}

impl Tally {
    /// Before the first of them.
    pub(crate) fn new() -> Tally
        ensures { result ≡ empty_tally }
    {
        Tally {
            refused: 0,
            checksum: 0,
        }
    }

    /// Counts one more, by its answer.
    pub(crate) fn count(&mut self, placed: Option<Addr>)
        requires { self.old.refused + 1 < 2 ^ 64 }
        ensures counts { self.new ≡ tally_after (reply placed) self.old }
        ensures refused { self.new.refused ≤ self.old.refused + 1 }
    {
        match placed {
            Some(addr) => {
                self.checksum = self
                    .checksum
                    .wrapping_mul(31)
                    .wrapping_add(addr.get() as u64);
            }
            None => self.refused += 1,
        }
    }
}

impl fmt::Display for Tally {
    fn fmt<W: fmt::Write>(&self, f: &mut fmt::Formatter<W>) -> fmt::Result {
        let Tally { refused, checksum } = *self;
        write!(f, "{refused} refused, checksum {checksum}")
    }
}
