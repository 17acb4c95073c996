//! The text beside the drawing.

use crate::pools::Pool;
use crate::window::Window;
use rlsf_trace_runs::Watched;
use rlsf_trace_text::{Answer, Configuration};
use std::alloc::{AllocError, Global};
use std::fmt;

/// How many pools, and how many lines without room, are listed at most.
const MOST_LISTED: usize = 12;

/// The numbers beside the drawing.
#[derive(Clone, Copy)]
pub(crate) struct Legend {
    /// The configuration's name.
    pub(crate) configuration: &'static str,
    /// The number of classes in a first-level row.
    pub(crate) classes: u128,
    /// The most usable bytes that the live payloads had, in the complete trace.
    pub(crate) most_usable: u128,
    /// How many boxes aren't drawn.
    pub(crate) left_out: u128,
}

/// The legend of a trace, of whose boxes so many aren't drawn.
pub(crate) fn legend_of(configuration: Configuration, watched: &Watched, left_out: u128) -> Legend {
    let (name, classes) = match configuration {
        Configuration::EightByEight => ("8x8", 8),
        Configuration::TwelveBySixteen => ("12x16", 16),
        Configuration::FiftyNineByEight => ("59x8", 8),
        Configuration::OneByOne => ("1x1", 1),
        Configuration::EightByOne => ("8x1", 1),
    };
    Legend {
        configuration: name,
        classes,
        most_usable: watched
            .moments
            .iter()
            .fold(0, |most: u128, moment| most.max(moment.usable)),
        left_out,
    }
}

/// The indices of the allocations and reallocations of a window that found no room.
pub(crate) fn denied_of(
    alloc: Global,
    answers: &[Answer],
    window: Window,
) -> Result<Vec<usize>, AllocError> {
    let mut denied = Vec::new(alloc);
    for index in window.first..window.end {
        if let Some(Answer::Placed(None)) = answers.get(index) {
            denied.push(index)?;
        }
    }
    Ok(denied)
}

/// How many boxes are left out, where any are.
#[derive(Clone, Copy)]
pub(crate) struct LeftOut(pub(crate) u128);

impl fmt::Display for LeftOut {
    fn fmt<W: fmt::Write>(&self, f: &mut fmt::Formatter<W>) -> fmt::Result {
        match self.0 {
            0 => Ok(()),
            count => write!(f, "; {count} boxes are left out"),
        }
    }
}

/// Lists where the first pools are.
pub(crate) fn print_pool_list(text: &mut String, pools: &[Pool]) -> Result<(), AllocError> {
    for pool in pools.get(..MOST_LISTED).unwrap_or(pools) {
        let Pool { start, end } = *pool;
        write!(text, ", {start} to {end}")?;
    }
    Ok(())
}

/// Lists the lines of the first calls that found no room.
pub(crate) fn print_denied_list(text: &mut String, denied: &[usize]) -> Result<(), AllocError> {
    for index in denied.get(..MOST_LISTED).unwrap_or(denied) {
        let line = *index as u128 + 2;
        write!(text, ", line {line}")?;
    }
    Ok(())
}
