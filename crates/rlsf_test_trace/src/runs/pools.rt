//! Runs with many pools, which are inserted in several orders and appended to. An insert of one byte is refused if that is in a pool.

use crate::answers::{all, passes};
use rlsf_base::memory::{Memory, Range};
use rlsf_tlsf::Tlsf;
use rlsf_trace_runs::{Pools, run};
use rlsf_trace_text::{Answer, Op, TraceError};
use std::alloc::{AllocError, Global};
use std::marker::Model;
use std::num::NonZeroUsize;
use std::process::Abort;
use std::test::Fail;

/// The error if the system is out of memory.
const MEMORY: &str = "memory";

/// The memory from 4096 on has so many slots of 128 bytes. The pool of a slot begins where the slot does.
const SLOTS: usize = 37;

/// The distances from the slot of an insert to that of the next one: upward, downward, and mixed. Each order has all slots, since
/// their number is prime.
static DISTANCES: [usize; 5] = [1, 36, 2, 14, 23];

/// The offsets in a slot at which a pool may end, and those before them.
static OFFSETS: [usize; 6] = [0, 63, 64, 95, 96, 127];

/// The range of so many bytes at an offset in a slot.
fn range_in(slot: usize, offset: usize, len: usize) -> Range {
    let start = 4096 + slot % SLOTS * 128 + offset % 128;
    Range { start, len }
}

/// Ops, and what they are to answer.
#[derive(Drop)]
struct Script {
    ops: Vec<Op>,
    wanted: Vec<Answer>,
    /// How many bytes of each slot are in its pool.
    lens: [usize; SLOTS],
}

impl Script {
    fn new(rt: &impl AllocGlobal) -> Script {
        Script {
            ops: Vec::new(rt.alloc()),
            wanted: Vec::new(rt.alloc()),
            lens: [0; SLOTS],
        }
    }

    fn add(&mut self, rt: &impl Abort, op: Op, wanted: Answer) {
        self.ops.push(op).expect(rt, MEMORY);
        self.wanted.push(wanted).expect(rt, MEMORY);
    }

    /// Inserts of one byte: each is refused if the byte is in a pool, and too short if it isn't.
    fn probe(&mut self, rt: &impl Abort, slot: usize) {
        for offset in OFFSETS {
            let wanted = if offset < self.lens[slot % SLOTS] {
                Answer::Refused(TraceError::BadRange)
            } else {
                Answer::Inserted(None)
            };
            self.add(rt, Op::Insert(range_in(slot, offset, 1)), wanted);
        }
    }

    /// An insert of the first 64 bytes of a slot, which are in no pool.
    fn insert(&mut self, rt: &impl Abort, slot: usize) {
        let taken = NonZeroUsize::new(64);
        self.add(
            rt,
            Op::Insert(range_in(slot, 0, 64)),
            Answer::Inserted(taken),
        );
        self.lens[slot % SLOTS] = 64;
        self.probe(rt, slot);
    }

    /// Appends of 32 bytes: where no pool ends, which is refused, and where the slot's pool ends, if it has less than 128 bytes.
    fn append(&mut self, rt: &impl Abort, slot: usize) {
        let refused = Answer::Refused(TraceError::BadRange);
        for offset in [32, 64, 96] {
            if offset == self.lens[slot % SLOTS] {
                self.add(
                    rt,
                    Op::Append(range_in(slot, offset, 32)),
                    Answer::Appended(32),
                );
                self.lens[slot % SLOTS] = offset + 32;
                self.probe(rt, slot);
                return;
            }
            self.add(rt, Op::Append(range_in(slot, offset, 32)), refused);
        }
    }

    /// The blocks of a slot's pool, which has all of the slot: one free block before the sentinel.
    fn blocks(&mut self, rt: &impl Abort, slot: usize) {
        let pool = range_in(slot, 0, 128);
        let free = (range_in(slot, 0, 96), false);
        let refused = Answer::Refused(TraceError::BadRange);
        self.add(rt, Op::Block(pool, 0), Answer::Block(Some(free)));
        self.add(rt, Op::Block(pool, 1), Answer::Block(None));
        self.add(rt, Op::Block(range_in(slot, 0, 96), 0), refused);
        self.add(rt, Op::Block(range_in(slot, 32, 96), 0), refused);
    }
}

/// The slots in an order. After each insert there is an append to an earlier pool, to each of the first ones twice. Then each pool is
/// appended to until it has all of its slot.
fn appended_pools(rt: &(impl Abort + AllocGlobal), distance: usize) -> Script {
    let mut script = Script::new(rt);
    let distance = distance % SLOTS;
    for turn in 0..SLOTS {
        script.append(rt, turn * distance);
        script.insert(rt, turn * distance);
        script.probe(rt, turn * distance + 1);
        script.append(rt, turn / 2 * distance);
        script.probe(rt, turn / 3 * distance);
    }
    for turn in 0..2 * SLOTS {
        script.append(rt, turn * 5);
    }
    for slot in 0..SLOTS {
        script.probe(rt, slot);
        script.blocks(rt, slot);
    }
    script
}

#[test]
fn pools_in_several_orders(rt: HostRuntime) {
    for (index, distance) in DISTANCES.iter().enumerate() {
        let script = appended_pools(&rt, *distance);
        let memory = Memory::new(rt.alloc(), 4096, 8192).expect(&rt, MEMORY);
        let mut tlsf = Tlsf::<u64, u64, 59, 8>::new(memory);
        let mut answers = Vec::new(rt.alloc());
        run(rt.alloc(), &mut tlsf, &script.ops, &mut answers).expect(&rt, MEMORY);
        passes(&rt, answers.as_slice() == script.wanted.as_slice(), index);
    }
}

/// Pools that are added one after another. What is known of them is that they are in runs.
#[derive(Drop)]
struct Added {
    pools: Pools,
}

impl Model for Added {
    ghost use Rattle.std.specs.Prelude.{List};
    ghost use Rattle.rlsf_base.specs.declared.memory.range.Range.{Range};
    ghost use Rattle.rlsf_trace_runs.specs.Steps.Pools.{AreInRuns};

    ghost Value = { List Range };

    ghost view = { λ a. a.pools.ranges.items };

    ghost invariant = { λ a. AreInRuns a.pools.ranges.items a.pools.firsts.items };
}

impl Added {
    /// No pools, with room for so many.
    fn with_room(alloc: Global, count: usize) -> Result<Added, AllocError> {
        let pools = Pools::with_room(alloc, count)?;
        Ok(Added { pools })
    }

    /// Adds a pool, if there is room for it.
    fn add(&mut self, pool: Range) {
        if self.pools.ranges.len() < self.pools.ranges.capacity() {
            self.pools.add(pool);
        }
    }

    /// Adds adjacent pools of 64 bytes, from the one of a number up to that of another.
    fn add_from(&mut self, first: usize, end: usize) {
        for number in first..end {
            let start = number.saturating_mul(64);
            self.add(Range { start, len: 64 });
        }
    }

    /// How many pools there are, and where the runs of them begin.
    fn counts(&self) -> (usize, &[usize]) {
        (self.pools.ranges.len(), &self.pools.firsts)
    }
}

// As soon as two runs are equally long, the next pool makes one run of them: of 1, 3, 7 pools and so on. So a search goes through few runs.
#[test]
fn pools_are_kept_in_few_runs(rt: HostRuntime) -> Result<(), Fail> {
    let mut added = Added::with_room(rt.alloc(), 2000)?;
    added.add_from(1, 1024);
    all(&rt, &[added.counts() == (1023, &[0])]);
    added.add_from(1024, 1025);
    all(&rt, &[added.counts() == (1024, &[0, 1023])]);
    added.add_from(1025, 1034);
    all(&rt, &[added.counts() == (1033, &[0, 1023, 1030])]);
    Ok(())
}
