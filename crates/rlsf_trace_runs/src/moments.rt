//! What an allocator holds between two ops.

ghost use Rattle.std.specs.Prelude.{◌≡◌, ℕ, ◌+◌, ◌<◌, ◌≤◌, ◌^◌};
ghost use Rattle.rlsf_base.specs.Space.{SamePlace};
ghost use Rattle.rlsf_trace_runs.specs.Runs.{RunState};
ghost use Rattle.rlsf_trace_runs.specs.Steps.Tables.{HaveRoomForOps, IsAt};
ghost use Rattle.rlsf_trace_runs.specs.Moments.{moment_of, name_in};
ghost use Rattle.rlsf_trace_runs.specs.Steps.Changes.{LeadsWatched, live_in, Measures, usable_or_zero};

use crate::runs::step;
use crate::tables::Tables;
use rlsf_int::BitPattern;
use rlsf_tlsf::Tlsf;
use rlsf_trace_text::{Answer, Op};

/// What an allocator holds after an op.
#[derive(Clone, Copy, Debug, PartialEq, Eq)]
pub struct Moment {
    /// How many payloads are live.
    pub live: usize,
    /// How many bytes the callers of all live payloads may use, together.
    pub usable: u128,
}

/// The name of the payload that an op is on, if it is on one.
pub(crate) fn name_of(op: Op) -> Option<usize>
    ensures { result ≡ name_in op }
{
    match op {
        Op::Insert(_) | Op::Append(_) | Op::Block(_, _) | Op::Trim => None,
        Op::Alloc(name, _)
        | Op::Free(name)
        | Op::FreeUnknown(name)
        | Op::Realloc(name, _)
        | Op::ReallocNoMove(name, _)
        | Op::Fill(name, _)
        | Op::Put(name, _, _)
        | Op::Get(name, _)
        | Op::Usable(name) => Some(name),
    }
}

// How many bytes are usable of the payload that an op is on, if it is on a live one.
fn usable_of<FLBitmap: BitPattern, SLBitmap: BitPattern, const FLLEN: usize, const SLLEN: usize>(
    tlsf: &Tlsf<FLBitmap, SLBitmap, FLLEN, SLLEN>,
    tables: &Tables,
    op: Op,
) -> Option<usize>
    requires { (s : RunState) × IsAt FLLEN SLLEN tlsf.now tables.now s }
    ensures { (s : RunState) → IsAt FLLEN SLLEN tlsf.now tables.now s → Measures s (name_in op) result }
{
    let Some(name) = name_of(op) else {
        return None;
    };
    let Some(payload) = tables.payload(name) else {
        return None;
    };
    Some(tlsf.allocation_usable_size(payload.addr))
}

// The moment after an op, by what is usable of the payload that it is on, before it and after it: no other payload changes.
fn moved_on(moment: Moment, before: Option<usize>, after: Option<usize>) -> Moment
    requires live { (moment.live + 1 < 2 ^ 64) × (live_in before ≤ moment.live + live_in after) }
    requires usable { (moment.usable + 2 ^ 64 < 2 ^ 128) × (usable_or_zero before ≤ moment.usable + usable_or_zero after) }
    ensures live { result.live + live_in before ≡ moment.live + live_in after }
    ensures usable { result.usable + usable_or_zero before ≡ moment.usable + usable_or_zero after }
{
    let live = moment.live + usize::from(after.is_some()) - usize::from(before.is_some());
    let usable = moment.usable + after.unwrap_or(0) as u128 - before.unwrap_or(0) as u128;
    Moment { live, usable }
}

/// Does one op, and returns its answer and the moment after it. The caller passes the moment before.
pub(crate) fn watched_step<
    FLBitmap: BitPattern,
    SLBitmap: BitPattern,
    const FLLEN: usize,
    const SLLEN: usize,
>(
    tlsf: &mut Tlsf<FLBitmap, SLBitmap, FLLEN, SLLEN>,
    tables: &mut Tables,
    op: Op,
    moment: Moment,
) -> (Answer, Moment)
    requires state { (s : RunState) × IsAt FLLEN SLLEN tlsf.old tables.old s × (moment ≡ moment_of s) }
    requires room { HaveRoomForOps tables.old 1 }
    requires few { (moment.live + 1 < 2 ^ 64) × (moment.usable + 2 ^ 64 < 2 ^ 128) }
    ensures does { (s : RunState) → IsAt FLLEN SLLEN tlsf.old tables.old s → LeadsWatched FLLEN SLLEN tlsf.old s op moment result.0 result.1 tlsf.new tables.new }
    ensures few { (result.1.live ≤ moment.live + 1) × (result.1.usable < moment.usable + 2 ^ 64) }
    ensures room { (ops : ℕ) → HaveRoomForOps tables.old (ops + 1) → HaveRoomForOps tables.new ops }
    ensures place { SamePlace tlsf.old.memory tlsf.new.memory }
{
    let before = usable_of(tlsf, tables, op);
    let answer = step(tlsf, tables, op);
    let after = usable_of(tlsf, tables, op);
    (answer, moved_on(moment, before, after))
}
