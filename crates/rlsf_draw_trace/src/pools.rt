//! The pools of the allocator, and the parts of them that came at once.

use rlsf_trace_text::{Answer, Op};
use std::alloc::{AllocError, Global};

/// What a pool begins at a multiple of.
const GRANULARITY: usize = 32;

/// A part of a pool: what one call inserted or appended.
#[derive(Clone, Copy)]
pub(crate) struct Part {
    /// Its first address.
    pub(crate) start: u128,
    /// The address behind it.
    pub(crate) end: u128,
    /// The index of the call that inserted or appended it.
    pub(crate) since: usize,
    // Whether it was appended.
    is_appended: bool,
}

/// A pool: where it begins, and where it ends after the last call.
#[derive(Clone, Copy)]
pub(crate) struct Pool {
    /// Its first address.
    pub(crate) start: u128,
    /// The address behind it.
    pub(crate) end: u128,
}

/// The parts of the pools, in the order of their calls.
pub(crate) fn parts_of(
    alloc: Global,
    ops: &[Op],
    answers: &[Answer],
) -> Result<Vec<Part>, AllocError> {
    let mut parts = Vec::new(alloc);
    for index in 0..ops.len() {
        if let Some(part) = part_of(ops, answers, index) {
            parts.push(part)?;
        }
    }
    Ok(parts)
}

// What the call of an index inserted or appended. A pool begins at the start of its range, rounded up to a multiple of 32.
fn part_of(ops: &[Op], answers: &[Answer], since: usize) -> Option<Part> {
    match (*ops.get(since)?, *answers.get(since)?) {
        (Op::Insert(range), Answer::Inserted(Some(len))) => Some(Part {
            start: range.start.checked_next_multiple_of(GRANULARITY)? as u128,
            end: range.start as u128 + len.get() as u128,
            since,
            is_appended: false,
        }),
        (Op::Append(range), Answer::Appended(len)) if len > 0 => {
            Some(appended(range.start, len, since))
        }
        _ => None,
    }
}

// The part that the call of an index appended.
fn appended(start: usize, len: usize, since: usize) -> Part {
    Part {
        start: start as u128,
        end: start as u128 + len as u128,
        since,
        is_appended: true,
    }
}

/// The pools of these parts, in the order in which they were inserted. An appended part lengthens the pool that ends where it begins.
pub(crate) fn pools_of(alloc: Global, parts: &[Part]) -> Result<Vec<Pool>, AllocError> {
    let mut pools = Vec::new(alloc);
    for part in parts {
        add_part(&mut pools, *part)?;
    }
    Ok(pools)
}

fn add_part(pools: &mut Vec<Pool>, part: Part) -> Result<(), AllocError> {
    let Part { start, end, .. } = part;
    if part.is_appended {
        if let Some(place) = pools.iter().position(|pool| pool.end == start) {
            if let Some(pool) = pools.get_mut(place) {
                pool.end = end;
                return Ok(());
            }
        }
    }
    pools.push(Pool { start, end })?;
    Ok(())
}
