//! Runs over fixed lists of random bytes, with tables of every shape. Each run keeps beside it what it can know of the answers
//! without the allocator. It knows where payloads lie, which bytes they were filled with, and which chunks the pool has.

mod lists;

ghost use Rattle.rlsf_model_sizes.specs.SizeClass.{IsValid};

use self::lists::LISTS;
use crate::answers::passes;
use rlsf_base::memory::{Layout, Memory, Range};
use rlsf_int::BitPattern;
use rlsf_tlsf::Tlsf;
use rlsf_trace_runs::run;
use rlsf_trace_text::{Answer, Op, TraceError};
use std::num::NonZeroUsize;
use std::process::Abort;

const NAMES: usize = 8;

const MEMORY_START: usize = 4096;

const MEMORY_LEN: usize = 16384;

/// The error if the system is out of memory.
const MEMORY: &str = "memory";

/// The ops of a list, what those on the pool answer, and the chunks that the pool has at the end.
#[derive(Drop)]
struct Plan {
    ops: Vec<Op>,
    pool_answers: Vec<Answer>,
    pool: Range,
    chunks: Vec<Range>,
    most: usize,
}

/// Cuts a range into chunks of at most `most` bytes while 64 or more are left, and returns how many of its bytes they have.
fn add_chunks(rt: &impl Abort, chunks: &mut Vec<Range>, range: Range, most: usize) -> usize {
    let mut taken: usize = 0;
    for _ in 0..range.len / 64 {
        let len = (range.len / 32 * 32).wrapping_sub(taken).min(most);
        if len >= 64 {
            let start = range.start.wrapping_add(taken);
            chunks.push(Range { start, len }).expect(rt, MEMORY);
            taken = taken.wrapping_add(len);
        }
    }
    taken
}

impl Plan {
    /// An insert of a pool, whose start and length the word chooses.
    fn begin(rt: &(impl Abort + AllocGlobal), word: u32, most: usize) -> Plan {
        let [start, low, high, shift] = word.to_le_bytes();
        let skipped = (start % 32) as usize;
        let part = u16::from_le_bytes([low, high]) >> (shift % 8);
        let body = Range {
            start: MEMORY_START + 32 + (start % 64 / 32 * 32) as usize,
            len: 128 + part as usize / 16,
        };
        let mut chunks = Vec::new(rt.alloc());
        let taken = add_chunks(rt, &mut chunks, body, most);
        let start = body.start - skipped;
        let len = taken.wrapping_add(skipped);
        let mut plan = Plan {
            ops: Vec::new(rt.alloc()),
            pool_answers: Vec::new(rt.alloc()),
            pool: Range { start, len },
            chunks,
            most,
        };
        let range = Range {
            start,
            len: body.len + skipped,
        };
        plan.ask_pool(
            rt,
            Op::Insert(range),
            Answer::Inserted(NonZeroUsize::new(len)),
        );
        plan
    }

    /// Puts an op at the end.
    fn ask(&mut self, rt: &impl Abort, op: Op) {
        self.ops.push(op).expect(rt, MEMORY);
    }

    /// Puts an op on the pool at the end, and what it answers.
    fn ask_pool(&mut self, rt: &impl Abort, op: Op, answer: Answer) {
        self.ask(rt, op);
        self.pool_answers.push(answer).expect(rt, MEMORY);
    }

    /// An append of some of the memory behind the pool.
    fn append(&mut self, rt: &impl Abort, word: u32) {
        let [_, low, high, _] = word.to_le_bytes();
        let start = self.pool.start.wrapping_add(self.pool.len);
        let room = (MEMORY_START + MEMORY_LEN).saturating_sub(start);
        let len = u16::from_le_bytes([low, high]) as usize % room.min(512).saturating_add(1);
        let range = Range { start, len };
        let taken = match self.chunks.last_mut() {
            Some(last) if self.most == usize::MAX => {
                last.len = last.len.wrapping_add(len / 32 * 32);
                len / 32 * 32
            }
            _ => add_chunks(rt, &mut self.chunks, range, self.most),
        };
        self.pool.len = self.pool.len.wrapping_add(taken);
        self.ask_pool(rt, Op::Append(range), Answer::Appended(taken));
    }

    /// Frees of all names, and an iteration over the pool, in which each chunk is one free block then.
    fn end(&mut self, rt: &impl Abort) {
        for name in 0..NAMES {
            self.ask(rt, Op::Free(name));
        }
        for (index, chunk) in self.chunks.iter().enumerate() {
            let start = chunk.start;
            let len = chunk.len.wrapping_sub(32);
            let answer = Answer::Block(Some((Range { start, len }, false)));
            self.ops
                .push(Op::Block(self.pool, index))
                .expect(rt, MEMORY);
            self.pool_answers.push(answer).expect(rt, MEMORY);
        }
        let count = self.chunks.len();
        self.ask_pool(rt, Op::Block(self.pool, count), Answer::Block(None));
    }
}

/// What a word says of a payload.
#[derive(Drop)]
struct Draw {
    kind: u8,
    name: usize,
    size: usize,
    align: usize,
    byte: u8,
}

fn drawn(word: u32, scale: usize) -> Draw {
    let [kind, low, high, shape] = word.to_le_bytes();
    let part = u16::from_le_bytes([low, high]) as usize;
    Draw {
        kind,
        name: kind as usize / 8 % NAMES,
        size: part.wrapping_mul(scale) >> 16 >> (shape / 6 % 4),
        align: 1 << (shape % 6),
        byte: low,
    }
}

/// Frees a payload, and reads the first and the last byte that were asked for.
fn free_ops(draw: Draw, last: usize) -> [Op; 5] {
    let name = draw.name;
    let free = if draw.kind < 128 {
        Op::Free(name)
    } else {
        Op::FreeUnknown(name)
    };
    [
        Op::Get(name, 0),
        Op::Get(name, last),
        Op::Usable(name),
        free,
        Op::Get(name, 0),
    ]
}

/// Allocates or reallocates a payload, some without a move, and reads the first and the last requested byte. Of a payload that
/// moves, it reads those of both sizes.
fn size_ops(rt: &impl Abort, draw: Draw, old_last: usize) -> [Op; 5] {
    let name = draw.name;
    let last = draw.size.saturating_sub(1);
    if draw.kind % 8 < 3 {
        let layout = Layout::from_size_align(draw.size, draw.align).expect(rt, "a layout");
        return [
            Op::Alloc(name, layout),
            Op::Usable(name),
            Op::Fill(name, draw.byte),
            Op::Get(name, 0),
            Op::Get(name, last),
        ];
    }
    let op = if draw.byte % 4 == 0 {
        Op::ReallocNoMove(name, draw.size)
    } else {
        Op::Realloc(name, draw.size)
    };
    [
        op,
        Op::Usable(name),
        Op::Get(name, 0),
        Op::Get(name, old_last.min(last)),
        Op::Fill(name, draw.byte),
    ]
}

/// What a word does to a payload. `sizes` are the last ones of the names.
fn payload_ops(rt: &impl Abort, word: u32, scale: usize, sizes: &mut [usize; NAMES]) -> [Op; 5] {
    let draw = drawn(word, scale);
    let name = draw.name % NAMES;
    let old_last = sizes[name].saturating_sub(1);
    if draw.kind % 8 == 3 || draw.kind % 8 == 4 {
        return free_ops(draw, old_last);
    }
    sizes[name] = draw.size;
    size_ops(rt, draw, old_last)
}

/// The plan of a list, where chunks have at most `most` bytes.
fn plan_of(rt: &(impl Abort + AllocGlobal), list: &[u32; 40], most: usize) -> Plan {
    let mut plan = Plan::begin(rt, list[0], most);
    let scale = plan.pool.len.min(most);
    let mut sizes = [0; NAMES];
    for word in list.iter().skip(1) {
        if *word % 8 == 7 {
            plan.append(rt, *word);
        } else {
            for op in payload_ops(rt, *word, scale, &mut sizes) {
                plan.ask(rt, op);
            }
        }
    }
    plan.end(rt);
    plan
}

/// A live payload, as the answers show it.
#[derive(Clone, Copy)]
struct Payload {
    addr: usize,
    align: usize,
    /// As far as it is known.
    usable: usize,
    value: u8,
    /// How many bytes, from the first one on, have the value.
    filled: usize,
}

/// The name of a payload that the op is on.
fn name_of(op: Op) -> Option<usize> {
    match op {
        Op::Alloc(name, _)
        | Op::Free(name)
        | Op::FreeUnknown(name)
        | Op::Realloc(name, _)
        | Op::ReallocNoMove(name, _)
        | Op::Fill(name, _)
        | Op::Put(name, _, _)
        | Op::Get(name, _)
        | Op::Usable(name) => Some(name),
        Op::Insert(_) | Op::Append(_) | Op::Block(_, _) | Op::Trim => None,
    }
}

/// Whether the answer is right where no payload has the op's name, and the payload that has it then.
fn follow_free(op: Op, answer: Answer) -> (bool, Option<Payload>) {
    let Op::Alloc(_, layout) = op else {
        return (answer == Answer::Refused(TraceError::UnknownName), None);
    };
    let Answer::Placed(placed) = answer else {
        return (false, None);
    };
    let Some(addr) = placed else {
        return (true, None);
    };
    let payload = Payload {
        addr: addr.get(),
        align: layout.align(),
        usable: layout.size(),
        value: 0,
        filled: 0,
    };
    (true, Some(payload))
}

/// Whether the answer is right where the payload has the op's name, and the payload that has it then.
fn follow_live(payload: Payload, op: Op, answer: Answer) -> (bool, Option<Payload>) {
    let mut next = payload;
    let is_right = match op {
        Op::Alloc(_, _) => answer == Answer::Refused(TraceError::NameTaken),
        Op::Free(_) | Op::FreeUnknown(_) => return (answer == Answer::Done, None),
        Op::Realloc(_, size) => {
            let Answer::Placed(placed) = answer else {
                return (false, None);
            };
            if let Some(addr) = placed {
                next.addr = addr.get();
                next.usable = size;
                next.filled = payload.filled.min(size);
            }
            true
        }
        Op::ReallocNoMove(_, size) => {
            let Answer::Placed(placed) = answer else {
                return (false, None);
            };
            let Some(addr) = placed else {
                return (true, Some(payload));
            };
            next.usable = size;
            next.filled = payload.filled.min(size);
            addr.get() == payload.addr
        }
        Op::Fill(_, value) => {
            next.value = value;
            next.filled = payload.usable;
            answer == Answer::Done
        }
        Op::Get(_, offset) if offset < payload.filled => answer == Answer::Byte(payload.value),
        Op::Get(_, offset) if offset < payload.usable => matches!(answer, Answer::Byte(_)),
        Op::Get(_, _) => answer == Answer::Refused(TraceError::BadOffset),
        Op::Usable(_) => {
            let Answer::Usable(usable) = answer else {
                return (false, None);
            };
            next.usable = usable;
            usable >= payload.usable
        }
        _ => false,
    };
    (is_right, Some(next))
}

fn is_overlap(one: &Payload, other: &Payload) -> bool {
    one.addr < other.addr.wrapping_add(other.usable)
        && other.addr < one.addr.wrapping_add(one.usable)
}

/// Whether the payload lies at its alignment in a chunk, before the chunk's last header.
fn is_inside(payload: &Payload, chunks: &[Range]) -> bool {
    let end = payload.addr.wrapping_add(payload.usable).wrapping_add(32);
    let is_aligned = payload.addr % payload.align.max(1) == 0;
    for chunk in chunks {
        if chunk.start <= payload.addr && end <= chunk.start.wrapping_add(chunk.len) {
            return is_aligned;
        }
    }
    false
}

/// The index of the first wrong answer.
fn first_wrong(plan: &Plan, answers: &[Answer]) -> Option<usize> {
    let mut live: [Option<Payload>; NAMES] = [None; NAMES];
    let mut pool_answers = plan.pool_answers.iter();
    for (index, (op, answer)) in plan.ops.iter().zip(answers.iter()).enumerate() {
        let is_right = match name_of(*op) {
            None => pool_answers.next() == Some(answer),
            Some(name) => {
                let name = name % NAMES;
                let (is_right, payload) = match live[name] {
                    None => follow_free(*op, *answer),
                    Some(payload) => follow_live(payload, *op, *answer),
                };
                live[name] = payload;
                is_right && is_apart(payload, &plan.chunks, &live)
            }
        };
        if !is_right {
            return Some(index);
        }
    }
    None
}

/// Whether a payload lies in the chunks, and overlaps no live one but itself.
fn is_apart(payload: Option<Payload>, chunks: &[Range], live: &[Option<Payload>]) -> bool {
    let Some(payload) = payload else {
        return true;
    };
    let mut overlaps: u32 = 0;
    for other in live.iter().flatten() {
        if is_overlap(&payload, other) {
            overlaps = overlaps.wrapping_add(1);
        }
    }
    is_inside(&payload, chunks) && overlaps <= 1
}

/// Names the type of an allocator. A proof knows that it fits in memory where a caller names it.
type Shape<'a, FLBitmap, SLBitmap, const FLLEN: usize, const SLLEN: usize> = Option<
    &'a Tlsf<FLBitmap, SLBitmap, FLLEN, SLLEN>,
>;

/// The index of the first wrong answer to a list's ops.
fn wrong_of<FLBitmap: BitPattern, SLBitmap: BitPattern, const FLLEN: usize, const SLLEN: usize>(
    rt: &(impl Abort + AllocGlobal),
    list: &[u32; 40],
    _shape: Shape<'_, FLBitmap, SLBitmap, FLLEN, SLLEN>,
) -> Option<usize>
    requires { IsValid FLBitmap.width SLBitmap.width FLLEN SLLEN }
{
    let most = if FLLEN < 59 { 32 << FLLEN } else { usize::MAX };
    let plan = plan_of(rt, list, most);
    let memory = Memory::new(rt.alloc(), MEMORY_START, MEMORY_LEN).expect(rt, MEMORY);
    let mut tlsf = Tlsf::<FLBitmap, SLBitmap, FLLEN, SLLEN>::new(memory);
    let mut answers = Vec::new(rt.alloc());
    run(rt.alloc(), &mut tlsf, plan.ops.as_slice(), &mut answers).expect(rt, MEMORY);
    first_wrong(&plan, answers.as_slice())
}

/// Passes if all lists' ops have right answers.
fn lists_pass<FLBitmap: BitPattern, SLBitmap: BitPattern, const FLLEN: usize, const SLLEN: usize>(
    rt: &(impl Abort + AllocGlobal),
    shape: Shape<'_, FLBitmap, SLBitmap, FLLEN, SLLEN>,
)
    requires { IsValid FLBitmap.width SLBitmap.width FLLEN SLLEN }
{
    for (index, list) in LISTS.iter().enumerate() {
        passes(rt, wrong_of(rt, list, shape).is_none(), index);
    }
}

#[test]
fn few_classes(rt: HostRuntime) {
    lists_pass::<u8, u8, 1, 1>(&rt, None);
    lists_pass::<u8, u8, 1, 2>(&rt, None);
    lists_pass::<u8, u8, 1, 4>(&rt, None);
    lists_pass::<u8, u8, 1, 8>(&rt, None);
    lists_pass::<u8, u8, 3, 4>(&rt, None);
}

#[test]
fn rows_of_8_bits(rt: HostRuntime) {
    lists_pass::<u8, u8, 5, 4>(&rt, None);
    lists_pass::<u8, u8, 8, 1>(&rt, None);
    lists_pass::<u8, u8, 8, 8>(&rt, None);
    lists_pass::<u16, u8, 3, 4>(&rt, None);
    lists_pass::<u16, u8, 11, 4>(&rt, None);
    lists_pass::<u16, u8, 16, 4>(&rt, None);
}

#[test]
fn rows_of_16_classes(rt: HostRuntime) {
    lists_pass::<u16, u16, 3, 16>(&rt, None);
    lists_pass::<u16, u16, 11, 16>(&rt, None);
    lists_pass::<u16, u16, 16, 16>(&rt, None);
    lists_pass::<u16, u32, 3, 16>(&rt, None);
    lists_pass::<u16, u32, 11, 16>(&rt, None);
    lists_pass::<u16, u32, 16, 16>(&rt, None);
}

#[test]
fn rows_of_32_classes(rt: HostRuntime) {
    lists_pass::<u16, u32, 3, 32>(&rt, None);
    lists_pass::<u16, u32, 11, 32>(&rt, None);
    lists_pass::<u16, u32, 16, 32>(&rt, None);
    lists_pass::<u32, u32, 20, 32>(&rt, None);
    lists_pass::<u32, u32, 27, 32>(&rt, None);
    lists_pass::<u32, u32, 28, 32>(&rt, None);
    lists_pass::<u32, u32, 29, 32>(&rt, None);
    lists_pass::<u32, u32, 32, 32>(&rt, None);
}

#[test]
fn most_rows(rt: HostRuntime) {
    lists_pass::<u64, u64, 58, 8>(&rt, None);
    lists_pass::<u64, u64, 59, 8>(&rt, None);
    lists_pass::<u64, u64, 60, 8>(&rt, None);
    lists_pass::<u64, u64, 61, 8>(&rt, None);
    lists_pass::<u64, u64, 64, 8>(&rt, None);
}
