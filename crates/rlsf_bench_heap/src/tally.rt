//! The tally of the steps.

use crate::slots::{Slots, Step};
use rlsf_bench_common::{BenchError, Xorshift};
use std::alloc::Global;
use std::fmt;
use std::num::NonZeroUsize;

/// The tally of the allocations so far, as `rlsf_bench` counts it.
#[derive(Clone, Copy)]
pub(crate) struct Tally {
    /// How many were refused.
    refused: u64,
    /// A sum over the addresses that they returned, in their order.
    checksum: u64,
}

impl Tally {
    /// Counts one allocation more.
    fn count(&mut self, placed: Option<usize>) {
        match placed {
            Some(addr) => {
                self.checksum = self.checksum.wrapping_mul(31).wrapping_add(addr as u64);
            }
            None => self.refused = self.refused.wrapping_add(1),
        }
    }
}

/// Writes the line that `rlsf_bench` prints.
impl fmt::Display for Tally {
    fn fmt<W: fmt::Write>(&self, f: &mut fmt::Formatter<W>) -> fmt::Result {
        let Tally { refused, checksum } = *self;
        write!(f, "{refused} refused, checksum {checksum}")
    }
}

/// Makes so many steps with a heap. Returns their tally.
pub(crate) fn tally_of(
    alloc: Global,
    slots: NonZeroUsize,
    steps: usize,
) -> Result<Tally, BenchError> {
    let mut heap = Slots::new(alloc, slots)?;
    let mut draws = Xorshift::new();
    let mut tally = Tally {
        refused: 0,
        checksum: 0,
    };
    for _ in 0..steps {
        if let Step::Allocated(_, _, addr) = heap.step(draws.next()) {
            tally.count(addr);
        }
    }
    Ok(tally)
}
