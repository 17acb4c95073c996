//! Runs that are watched.

ghost use Rattle.std.specs.Prelude.{◌≡◌, ◌<◌, IfOk};
ghost use Rattle.rlsf_base.specs.Space.{range_of};
ghost use Rattle.rlsf_model.specs.State.{empty};
ghost use Rattle.rlsf_trace_runs.specs.Moments.{IsWatched};

use crate::blocks::all_blocks;
use crate::moments::{Moment, watched_step};
use crate::runs::RunError;
use crate::tables::Tables;
use rlsf_blocks::BlockInfo;
use rlsf_int::BitPattern;
use rlsf_tlsf::Tlsf;
use rlsf_trace_text::{Answer, Op};
use std::alloc::Global;

/// What was seen of a run.
#[derive(Drop)]
pub struct Watched {
    /// The answer of each op.
    pub answers: Vec<Answer>,
    /// What the allocator held after each op.
    pub moments: Vec<Moment>,
    /// The blocks of the allocator at the end, used and free, in the order of their addresses.
    pub blocks: Vec<BlockInfo>,
}

/// Does the ops one after another, as `run` does, with an allocator without chunks. Returns what it held after each op, and its
/// blocks at the end. The tables have room for the names and the pools that there are.
///
/// The error is `OutOfMemory` if there is no memory for the result or the run's own tables. No clause says that it has no other
/// cause.
pub fn watch<FLBitmap: BitPattern, SLBitmap: BitPattern, const FLLEN: usize, const SLLEN: usize>(
    alloc: Global,
    tlsf: &mut Tlsf<FLBitmap, SLBitmap, FLLEN, SLLEN>,
    ops: &[Op],
) -> Result<Watched, RunError>
    requires { tlsf.old.state ≡ empty }
    ensures { IfOk result (λ w. IsWatched FLLEN SLLEN (range_of tlsf.old.memory) ops.now w) }
{
    // What `memory_ref` says of every allocator: its memory and its class table represent its state.
    let _ = tlsf.memory_ref();
    let mut tables = Tables::with_room(alloc, 0)?;
    let mut answers = Vec::new(alloc);
    let mut moments = Vec::new(alloc);
    let mut moment = Moment { live: 0, usable: 0 };
    for op in ops {
        tables.make_room()?;
        let (answer, after) = watched_step(tlsf, &mut tables, *op, moment);
        let Ok(()) = answers.push(answer) else {
            return Err(RunError::OutOfMemory);
        };
        let Ok(()) = moments.push(after) else {
            return Err(RunError::OutOfMemory);
        };
        moment = after;
    }
    tables.sort_pools();
    let blocks = all_blocks(alloc, tlsf, &tables)?;
    Ok(Watched {
        answers,
        moments,
        blocks,
    })
}
