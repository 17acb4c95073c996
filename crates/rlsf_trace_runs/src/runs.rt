//! Runs: the ops of a trace, done with an allocator.

ghost use Rattle.std.specs.Prelude.{◌≡◌, ℕ, ◌+◌, ◌<◌, ◌≤◌, ◌^◌, ◌++◌, List, length, IsTrue, ◌↔◌, OnOk, OnErr};
ghost use Rattle.rlsf_base.specs.Range.{end_of, LiesIn};
ghost use Rattle.rlsf_model_sizes.specs.Rounding.{round32};
ghost use Rattle.rlsf_base.specs.Space.{range_of, SamePlace};
ghost use Rattle.rlsf_model.specs.Insert.{IsVacant};
ghost use Rattle.rlsf_model.specs.Lists.{IsIn};
ghost use Rattle.rlsf_model.specs.State.{between, empty};
ghost use Rattle.rlsf_trace_text.specs.declared.op.Answer.{Answer};
ghost use Rattle.rlsf_trace_runs.specs.declared.runs.RunError.TheVariants.{OutOfMemory};
ghost use Rattle.rlsf_trace_text.specs.declared.op.Op.TheVariants.{Insert, Append, Alloc};
ghost use Rattle.rlsf_trace_runs.specs.Events.{RunsByEvents};
ghost use Rattle.rlsf_trace_runs.specs.Runs.{RunState};
ghost use Rattle.rlsf_trace_runs.specs.Whole.{RunsTo};
ghost use Rattle.rlsf_trace_runs.specs.Steps.Pools.{ArePoolsApart, AreInRuns};
ghost use Rattle.rlsf_trace_runs.specs.Steps.Tables.{HaveRoomForOps, IsAt, OpLeadsOn};

use crate::names::Payload;
use crate::payloads::{fill, free, free_unknown, get, put, realloc, realloc_no_move, usable};
use crate::pools::{Pools, ending_at, overlaps_any};
use crate::tables::Tables;
use crate::walks::block;
use rlsf_base::memory::{Layout, Memory, Range};
use rlsf_int::BitPattern;
use rlsf_tlsf::{GRANULARITY, Tlsf};
use rlsf_trace_text::{Answer, Op, TraceError};
use std::alloc::{AllocError, Global};

/// Why a run did nothing.
#[derive(Clone, Copy, Debug, PartialEq, Eq)]
pub enum RunError {
    /// Out of memory for the answers or for the run's own tables.
    OutOfMemory = 1,
}

impl From<AllocError> for RunError {
    ghost from_gives = { λ _ error. error ≡ OutOfMemory };

    fn from(_refused: AllocError) -> RunError {
        RunError::OutOfMemory
    }
}

/// Whether the range lies in the memory.
pub(crate) fn lies_in(memory: &Memory, range: Range) -> bool
    ensures { IsTrue result ↔ LiesIn range memory.now.start (length memory.now.bytes) }
{
    range.lies_in(Range {
        start: memory.start(),
        len: memory.len(),
    })
}

// Whether the range lies in the memory, and overlaps no pool.
fn is_vacant(memory: &Memory, pools: &Pools, range: Range) -> bool
    requires in_runs { AreInRuns pools.now.ranges.items pools.now.firsts.items }
    requires apart { ArePoolsApart pools.now.ranges.items }
    requires inside { (p : Range) → IsIn p pools.now.ranges.items → LiesIn p memory.now.start (length memory.now.bytes) }
    requires addressable { end_of (range_of memory.now) < 2 ^ 64 }
    ensures { IsTrue result ↔ IsVacant (range_of memory.now) pools.now.ranges.items range }
{
    lies_in(memory, range) && !overlaps_any(pools, range)
}

// Whether the range lies in the allocator's memory, and overlaps no pool of the tables. The last three clauses hold in each case.
fn may_insert<FLBitmap: BitPattern, SLBitmap: BitPattern, const FLLEN: usize, const SLLEN: usize>(
    tlsf: &Tlsf<FLBitmap, SLBitmap, FLLEN, SLLEN>,
    tables: &Tables,
    range: Range,
) -> bool
    requires { (s : RunState) × IsAt FLLEN SLLEN tlsf.now tables.now s }
    ensures vacant { IsTrue result ↔ IsVacant (range_of tlsf.now.memory) tables.now.pools.ranges.items range }
    ensures in_runs { AreInRuns tables.now.pools.ranges.items tables.now.pools.firsts.items }
    ensures apart { ArePoolsApart tables.now.pools.ranges.items }
    ensures addressable { (p : Range) → IsIn p tables.now.pools.ranges.items → end_of p < 2 ^ 64 }
{
    is_vacant(tlsf.memory_ref(), &tables.pools, range)
}

/// Does one op and returns its answer. The tables have room for it.
pub fn step<FLBitmap: BitPattern, SLBitmap: BitPattern, const FLLEN: usize, const SLLEN: usize>(
    tlsf: &mut Tlsf<FLBitmap, SLBitmap, FLLEN, SLLEN>,
    tables: &mut Tables,
    op: Op,
) -> Answer
    requires state { (s : RunState) × IsAt FLLEN SLLEN tlsf.old tables.old s }
    requires room { HaveRoomForOps tables.old 1 }
    ensures does { (s : RunState) → IsAt FLLEN SLLEN tlsf.old tables.old s → OpLeadsOn FLLEN SLLEN tlsf.old s op result tlsf.new tables.new }
    ensures room { (ops : ℕ) → HaveRoomForOps tables.old (ops + 1) → HaveRoomForOps tables.new ops }
    ensures place { SamePlace tlsf.old.memory tlsf.new.memory }
{
    match op {
        Op::Insert(range) => insert(tlsf, tables, range),
        Op::Append(range) => append(tlsf, tables, range),
        Op::Alloc(name, layout) => alloc(tlsf, tables, name, layout),
        Op::Free(name) => free(tlsf, tables, name),
        Op::FreeUnknown(name) => free_unknown(tlsf, tables, name),
        Op::Realloc(name, size) => realloc(tlsf, tables, name, size),
        Op::ReallocNoMove(name, size) => realloc_no_move(tlsf, tables, name, size),
        Op::Fill(name, byte) => fill(tlsf, tables, name, byte),
        Op::Put(name, offset, byte) => put(tlsf, tables, name, offset, byte),
        Op::Get(name, offset) => get(tlsf, tables, name, offset),
        Op::Usable(name) => usable(tlsf, tables, name),
        Op::Block(range, index) => block(tlsf, tables, range, index),
        Op::Trim => Answer::Refused(TraceError::NotForTlsf),
    }
}

/// Inserts a range, unless it doesn't lie in the memory or overlaps a pool.
fn insert<FLBitmap: BitPattern, SLBitmap: BitPattern, const FLLEN: usize, const SLLEN: usize>(
    tlsf: &mut Tlsf<FLBitmap, SLBitmap, FLLEN, SLLEN>,
    tables: &mut Tables,
    range: Range,
) -> Answer
    requires state { (s : RunState) × IsAt FLLEN SLLEN tlsf.old tables.old s }
    requires room { HaveRoomForOps tables.old 1 }
    ensures does { (s : RunState) → IsAt FLLEN SLLEN tlsf.old tables.old s → OpLeadsOn FLLEN SLLEN tlsf.old s (Insert range) result tlsf.new tables.new }
    ensures room { (ops : ℕ) → HaveRoomForOps tables.old (ops + 1) → HaveRoomForOps tables.new ops }
    ensures place { SamePlace tlsf.old.memory tlsf.new.memory }
{
    if !may_insert(tlsf, tables, range) {
        return Answer::Refused(TraceError::BadRange);
    }
    let taken = tlsf.insert_free_block_ptr(range);
    if let Some(len) = taken {
        tables.add_pool(pool_of(range, len.get()));
    }
    Answer::Inserted(taken)
}

// The pool that an insert makes of a range, by its answer.
fn pool_of(range: Range, len: usize) -> Range
    requires { (round32 range.start ≤ range.start + len) × (range.start + len < 2 ^ 64) }
    ensures { result ≡ between (round32 range.start) (range.start + len) }
{
    let start = range.start.next_multiple_of(GRANULARITY);
    Range {
        start,
        len: range.start + len - start,
    }
}

/// Appends a range, unless it doesn't lie in the memory, overlaps a pool, or begins where none ends.
fn append<FLBitmap: BitPattern, SLBitmap: BitPattern, const FLLEN: usize, const SLLEN: usize>(
    tlsf: &mut Tlsf<FLBitmap, SLBitmap, FLLEN, SLLEN>,
    tables: &mut Tables,
    range: Range,
) -> Answer
    requires { (s : RunState) × IsAt FLLEN SLLEN tlsf.old tables.old s }
    ensures does { (s : RunState) → IsAt FLLEN SLLEN tlsf.old tables.old s → OpLeadsOn FLLEN SLLEN tlsf.old s (Append range) result tlsf.new tables.new }
    ensures room { (ops : ℕ) → HaveRoomForOps tables.old (ops + 1) → HaveRoomForOps tables.new ops }
    ensures place { SamePlace tlsf.old.memory tlsf.new.memory }
{
    if !may_insert(tlsf, tables, range) {
        return Answer::Refused(TraceError::BadRange);
    }
    let Some(place) = ending_at(&tables.pools, range.start) else {
        return Answer::Refused(TraceError::BadRange);
    };
    let taken = tlsf.append_free_block_ptr(range);
    tables.lengthen_pool(place, taken);
    Answer::Appended(taken)
}

/// Allocates a payload and names it, unless a live one has the name.
fn alloc<FLBitmap: BitPattern, SLBitmap: BitPattern, const FLLEN: usize, const SLLEN: usize>(
    tlsf: &mut Tlsf<FLBitmap, SLBitmap, FLLEN, SLLEN>,
    tables: &mut Tables,
    name: usize,
    layout: Layout,
) -> Answer
    requires state { (s : RunState) × IsAt FLLEN SLLEN tlsf.old tables.old s }
    requires room { HaveRoomForOps tables.old 1 }
    ensures does { (s : RunState) → IsAt FLLEN SLLEN tlsf.old tables.old s → OpLeadsOn FLLEN SLLEN tlsf.old s (Alloc name layout) result tlsf.new tables.new }
    ensures room { (ops : ℕ) → HaveRoomForOps tables.old (ops + 1) → HaveRoomForOps tables.new ops }
    ensures place { SamePlace tlsf.old.memory tlsf.new.memory }
{
    if tables.names.contains_key(&name) {
        return Answer::Refused(TraceError::NameTaken);
    }
    let placed = tlsf.allocate(layout);
    if let Some(addr) = placed {
        let payload = Payload {
            addr,
            align: layout.align(),
        };
        tables.add_name(name, payload);
    }
    Answer::Placed(placed)
}

/// Does the ops, one after another, with an allocator that has no chunk yet. One answer an op follows those already there.
/// `Trim` is refused as `NotForTlsf`.
///
/// The memory stays in place, and at `Ok` each of its bytes that belongs to no block at the end is as it was.
///
/// The error is `OutOfMemory` if there is no memory for the answers or the run's own tables. No clause says that it has no other
/// cause. Then no op was done, and the answers are unchanged.
pub fn run<FLBitmap: BitPattern, SLBitmap: BitPattern, const FLLEN: usize, const SLLEN: usize>(
    alloc: Global,
    tlsf: &mut Tlsf<FLBitmap, SLBitmap, FLLEN, SLLEN>,
    ops: &[Op],
    answers: &mut Vec<Answer>,
) -> Result<(), RunError>
    requires { tlsf.old.state ≡ empty }
    ensures runs { OnOk result ((given : List Answer) × (answers.new.items ≡ answers.old.items ++ given)
        × RunsTo FLLEN SLLEN tlsf.old ops.now given tlsf.new) }
    ensures events { OnOk result ((given : List Answer) × (answers.new.items ≡ answers.old.items ++ given)
        × RunsByEvents FLLEN SLLEN (range_of tlsf.old.memory) empty ops.now given tlsf.new.state) }
    ensures refused { OnErr result ((answers.new.items ≡ answers.old.items) × (tlsf.new ≡ tlsf.old)) }
    ensures place { SamePlace tlsf.old.memory tlsf.new.memory }
{
    // What `memory_ref` says of every allocator: its memory and its class table represent its state.
    let _ = tlsf.memory_ref();
    answers.try_reserve(ops.len())?;
    let mut tables = Tables::with_room(alloc, ops.len())?;
    for op in ops {
        let answer = step(tlsf, &mut tables, *op);
        let _ = answers.push(answer);
    }
    Ok(())
}
