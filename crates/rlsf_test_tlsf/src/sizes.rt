//! Runs in pools of computed lengths. In a long enough pool nothing is refused. In a shorter pool the expected allocation is the
//! first one that is refused.
//!
//! Lengths are worked out by hand. The last 32 bytes of a pool end its chunk. 100 objects of L bytes, with the 16 before them, need
//! `32 + 100 * L`. L is rounded up to a multiple of 32, and then of one SLLENth of the power of two below it. For payloads in
//! blocks of up to S bytes, let m be the least size whose class reaches S. If n are live before each call, they need
//! `(m + 32) + n * (S + m - 32)`.

ghost use Rattle.rlsf_model_sizes.specs.SizeClass.{IsValid};

use super::pools::{all, layout_of};
use super::words::next;
use rlsf::classes::{pool_size_for_objects, pool_size_for_payloads};
use rlsf::int::BitPattern;
use rlsf::{Layout, Memory, Range, Tlsf};
use rlsf_trace_runs::run;
use rlsf_trace_text::{Answer, Op};
use std::alloc::Global;
use std::process::Abort;

/// Ops in a memory of so many bytes, and whether each has to be granted.
#[derive(Drop)]
struct Script {
    len: usize,
    ops: Vec<Op>,
    granted: Vec<bool>,
}

/// Names from 0 on, in one order.
#[derive(Clone, Copy)]
enum Order {
    Ascending,
    Descending,
    /// First every other one, and then those between them.
    Alternating,
}

/// The name at a place of an order of `count` names.
fn name_at(order: Order, count: usize, place: usize) -> usize {
    match order {
        Order::Ascending => place,
        Order::Descending => count.wrapping_sub(place).wrapping_sub(1),
        Order::Alternating => {
            let double = place.wrapping_mul(2);
            if double < count {
                double
            } else {
                double.wrapping_sub(count) | 1
            }
        }
    }
}

impl Script {
    /// A pool of so many bytes, which are all of the memory.
    fn new(rt: &(impl Abort + AllocGlobal), len: usize) -> Script {
        let mut script = Script {
            len,
            ops: Vec::new(rt.alloc()),
            granted: Vec::new(rt.alloc()),
        };
        let start = 4096;
        script.add(rt, Op::Insert(Range { start, len }), true);
        script
    }

    fn add(&mut self, rt: &(impl Abort + AllocGlobal), op: Op, granted: bool) {
        self.ops.push(op).expect(rt, "memory");
        self.granted.push(granted).expect(rt, "memory");
    }

    /// Payloads for the names at these places of an order, all of `count` then, and one for one more name, which has to be refused.
    fn fill(
        &mut self,
        rt: &(impl Abort + AllocGlobal),
        order: Order,
        count: usize,
        places: (usize, usize),
        layout: Layout,
    ) {
        for place in places.0..places.1 {
            self.add(rt, Op::Alloc(name_at(order, count, place), layout), true);
        }
        self.add(rt, Op::Alloc(count, layout), false);
    }

    /// The payloads of the names at these places of an order are deallocated.
    fn give_back(
        &mut self,
        rt: &(impl Abort + AllocGlobal),
        order: Order,
        count: usize,
        places: (usize, usize),
    ) {
        for place in places.0..places.1 {
            self.add(rt, Op::Free(name_at(order, count, place)), true);
        }
    }

    /// The index of the first op with another result.
    fn first_wrong(&self, answers: &[Answer]) -> Option<usize> {
        for (index, granted) in self.granted.iter().enumerate() {
            if answers.get(index).copied().and_then(is_granted) != Some(*granted) {
                return Some(index);
            }
        }
        None
    }
}

/// Whether an op was granted, by its answer; nothing where it was refused before any call of the allocator.
fn is_granted(answer: Answer) -> Option<bool> {
    match answer {
        Answer::Inserted(_) | Answer::Done => Some(true),
        Answer::Placed(placed) => Some(placed.is_some()),
        _ => None,
    }
}

/// Names the type of an allocator, whose bitmaps are of one type. A proof knows that it fits in memory where a caller names it.
type Shape<'a, Bits, const FLLEN: usize, const SLLEN: usize> = Option<
    &'a Tlsf<Bits, Bits, FLLEN, SLLEN>,
>;

/// Whether each op of a script has its expected result. `None` if the system is out of memory.
fn goes_so<Bits: BitPattern, const FLLEN: usize, const SLLEN: usize>(
    alloc: Global,
    script: &Script,
    _shape: Shape<'_, Bits, FLLEN, SLLEN>,
) -> Option<bool>
    requires { IsValid Bits.width Bits.width FLLEN SLLEN }
{
    let memory = Memory::new(alloc, 4096, script.len).ok()?;
    let mut tlsf = Tlsf::<Bits, Bits, FLLEN, SLLEN>::new(memory);
    let mut answers = Vec::new(alloc);
    run(alloc, &mut tlsf, script.ops.as_slice(), &mut answers).ok()?;
    Some(script.first_wrong(answers.as_slice()).is_none())
}

/// Whether each op of each script has its expected result.
fn go_so<Bits: BitPattern, const FLLEN: usize, const SLLEN: usize>(
    alloc: Global,
    scripts: &[Script],
    shape: Shape<'_, Bits, FLLEN, SLLEN>,
) -> bool
    requires { IsValid Bits.width Bits.width FLLEN SLLEN }
{
    for script in scripts {
        if goes_so(alloc, script, shape) != Some(true) {
            return false;
        }
    }
    true
}

/// Whether each op of each script has its expected result, in allocators of three types.
fn go_so_in_each(alloc: Global, scripts: &[Script]) -> bool {
    go_so::<u16, 12, 16>(alloc, scripts, None)
        && go_so::<u64, 59, 8>(alloc, scripts, None)
        && go_so::<u64, 64, 64>(alloc, scripts, None)
}

/// Whether a pool for so many payloads is so long, in allocators of these types.
fn is_length_in_each(count: usize, layout: Layout, len: usize) -> bool {
    let wanted = Some(len);
    pool_size_for_payloads::<u16, u16, 12, 16>(count, layout) == wanted
        && pool_size_for_payloads::<u64, u64, 59, 8>(count, layout) == wanted
        && pool_size_for_payloads::<u64, u64, 64, 64>(count, layout) == wanted
}

/// A pool of so many bytes holds `count` payloads. They are allocated and deallocated in an order, all of them and each half of
/// them. Whenever all are allocated, one more is refused.
fn filled_in_order(
    rt: &(impl Abort + AllocGlobal),
    order: Order,
    count: usize,
    layout: Layout,
    len: usize,
) -> Script {
    let half = count / 2;
    let mut script = Script::new(rt, len);
    script.fill(rt, order, count, (0, count), layout);
    for places in [(0, half), (half, count), (0, count)] {
        script.give_back(rt, order, count, places);
        script.fill(rt, order, count, places, layout);
    }
    script
}

static ORDERS: [Order; 3] = [Order::Ascending, Order::Descending, Order::Alternating];

/// The size of an object, the length of a pool for 100 of them, and the size to ask for.
type Hundred = (usize, usize, usize);

/// In each order, a pool for 100 objects that holds 100 of them, and one that is 32 bytes shorter and holds 99.
fn scripts_of_100(rt: &(impl Abort + AllocGlobal), pools: &[Hundred]) -> Vec<Script> {
    let mut scripts = Vec::new(rt.alloc());
    for (_, len, size) in pools {
        let object = layout_of(rt, *size, 16);
        let shorter = len.saturating_sub(32);
        for order in &ORDERS {
            for (count, len) in [(100, *len), (99, shorter)] {
                let script = filled_in_order(rt, *order, count, object, len);
                scripts.push(script).expect(rt, "memory");
            }
        }
    }
    scripts
}

/// Whether the lengths of pools for 100 objects, and the sizes to ask for, are these.
fn are_found<Bits: BitPattern, const FLLEN: usize, const SLLEN: usize>(pools: &[Hundred]) -> bool
    requires { IsValid Bits.width Bits.width FLLEN SLLEN }
{
    for (size, len, wanted) in pools {
        let found = pool_size_for_objects::<Bits, Bits, FLLEN, SLLEN>(100, *size);
        if found != Some((*len, *wanted)) {
            return false;
        }
    }
    true
}

static POOLS_12_BY_16: [Hundred; 3] = [(40, 6432, 48), (700, 73632, 720), (1100, 115232, 1136)];

static POOLS_59_BY_8: [Hundred; 3] = [(40, 6432, 48), (700, 76832, 752), (1100, 115232, 1136)];

static POOLS_64_BY_64: [Hundred; 3] = [(40, 6432, 48), (700, 73632, 720), (1100, 112032, 1104)];

#[test]
fn pools_of_100_objects(rt: HostRuntime) {
    let answers = [
        are_found::<u16, 12, 16>(&POOLS_12_BY_16),
        are_found::<u64, 59, 8>(&POOLS_59_BY_8),
        are_found::<u64, 64, 64>(&POOLS_64_BY_64),
        go_so::<u16, 12, 16>(rt.alloc(), &scripts_of_100(&rt, &POOLS_12_BY_16), None),
        go_so::<u64, 59, 8>(rt.alloc(), &scripts_of_100(&rt, &POOLS_59_BY_8), None),
        go_so::<u64, 64, 64>(rt.alloc(), &scripts_of_100(&rt, &POOLS_64_BY_64), None),
    ];
    all(&rt, &answers);
}

/// How many payloads are live at most in the random run.
const NAMES: usize = 50;

/// What a word does to the payload of a name: one that isn't live is allocated. A live one is deallocated one time of eight, and
/// else resized. Sizes go up to 700 bytes, alignments up to 64.
fn random_op(rt: &impl Abort, word: u64, live: &mut [bool; NAMES]) -> Op {
    let [name, kind, high, low, shift, ..] = word.to_be_bytes();
    let name = name as usize % NAMES;
    let size = u16::from_be_bytes([high, low]) as usize % 701;
    if !live[name] {
        live[name] = true;
        Op::Alloc(name, layout_of(rt, size, 1 << (shift % 7)))
    } else if kind % 8 == 0 {
        live[name] = false;
        Op::Free(name)
    } else {
        Op::Realloc(name, size)
    }
}

/// 100,000 random ops in a pool of so many bytes, each of which has to be granted. Passes only if there are ops before which all
/// names were live.
fn random_script(rt: &(impl Abort + AllocGlobal), len: usize) -> Script {
    let mut script = Script::new(rt, len);
    let mut live = [false; NAMES];
    let mut full: usize = 0;
    let mut word = 0x9e3779b97f4a7c15;
    for _ in 0..100_000 {
        word = next(word);
        if live == [true; NAMES] {
            full = full.wrapping_add(1);
        }
        script.add(rt, random_op(rt, word, &mut live), true);
    }
    all(rt, &[full > 0]);
    script
}

#[test]
fn random_run_without_a_refusal(rt: HostRuntime) {
    // A payload of 700 bytes at a multiple of 64 needs a block of up to 768, where a class begins. So the length is 800 bytes, and
    // 50 times 1,504.
    let greatest = layout_of(&rt, 700, 64);
    let scripts = [random_script(&rt, 76000)];
    let answers = [
        is_length_in_each(NAMES, greatest, 76000),
        go_so_in_each(rt.alloc(), &scripts),
    ];
    all(&rt, &answers);
}

/// How many payloads are live at most before a call of the run that leaves fragments.
const FRAGMENTS: usize = 15;

/// Fifteen times a payload shrinks in place to a block of 992 bytes. Then one with a block of 1024 is allocated behind it, and the
/// first is deallocated. So fifteen free blocks are left that are 32 bytes too short for the last allocation. That allocation is
/// granted or not.
fn fragments(rt: &(impl Abort + AllocGlobal), len: usize, granted: bool) -> Script {
    let mut script = Script::new(rt, len);
    let greatest = layout_of(rt, 1008, 1);
    for name in 0..FRAGMENTS {
        let fragment = FRAGMENTS + 1;
        script.add(rt, Op::Alloc(fragment, greatest), true);
        script.add(rt, Op::Realloc(fragment, 976), true);
        script.add(rt, Op::Alloc(name, greatest), true);
        script.add(rt, Op::Free(fragment), true);
    }
    script.add(rt, Op::Alloc(FRAGMENTS, greatest), granted);
    script
}

#[test]
fn greatest_beside_fragments(rt: HostRuntime) {
    // The greatest payload needs a block of 1,024 bytes, at which a class begins: 1,056 bytes, and 15 times 2,016. The last
    // allocation is granted beside the fragments, and refused in a pool that is 32 bytes shorter.
    let greatest = layout_of(&rt, 1008, 1);
    let scripts = [fragments(&rt, 31296, true), fragments(&rt, 31264, false)];
    let answers = [
        is_length_in_each(FRAGMENTS, greatest, 31296),
        go_so_in_each(rt.alloc(), &scripts),
    ];
    all(&rt, &answers);
}
