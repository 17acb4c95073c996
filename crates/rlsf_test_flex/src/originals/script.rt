//! The ops of a run, and what they have to answer.

use super::START;
use crate::calls::Call;
use rlsf_base::memory::Layout;
use rlsf_trace_text::{Answer, Op};
use std::num::NonZeroUsize;
use std::process::Abort;

/// A payload that is live.
#[derive(Clone, Copy)]
struct Live {
    name: usize,
    size: usize,
}

/// The ops of a run, and what they have to answer. Into each payload of a list's run its pattern is written, and is read before
/// it is written anew or the payload goes.
#[derive(Drop)]
pub struct Script {
    pub ops: Vec<Op>,
    pub answers: Vec<Answer>,
    live: Vec<Live>,
    // The addresses and the bytes that are left, the next ones last, and how many payloads there were.
    placed: Vec<u32>,
    bytes: Vec<u8>,
    names: usize,
}

impl Script {
    /// No ops yet. Calls that place a payload are to answer these addresses, less the space's start, 0 for none.
    pub fn new(rt: &(impl Abort + AllocGlobal), placed: &[u32]) -> Script {
        let alloc = rt.alloc();
        let mut placed = placed.to_vec(alloc).expect(rt, "memory");
        placed.reverse();
        Script {
            ops: Vec::new(alloc),
            answers: Vec::new(alloc),
            live: Vec::new(alloc),
            placed,
            bytes: Vec::new(alloc),
            names: 0,
        }
    }

    /// Whether these are the answers, and all addresses were used.
    pub fn is_answered_by(&self, answers: &[Answer]) -> bool {
        self.placed.is_empty() && answers == self.answers.as_slice()
    }

    /// Adds the calls of payloads that are live, and those of new ones.
    pub fn add_calls(&mut self, rt: &impl Abort, calls: &[Call]) {
        for call in calls {
            self.add(rt, *call);
        }
    }

    /// Adds the calls that bytes mean, up to the last complete one. Sizes are below the bound.
    pub fn add_bytes(&mut self, rt: &impl Abort, bytes: &[u8], bound: usize) {
        self.bytes.extend_from_slice(bytes).expect(rt, "memory");
        self.bytes.reverse();
        for _ in bytes {
            let Some(call) = self.next_call(bound) else {
                break;
            };
            if let Some(call) = call {
                self.add(rt, call);
            }
        }
    }

    /// The call that the next bytes mean. `Some(None)` if it needs a live payload and none is live; `None` if the bytes have ended.
    fn next_call(&mut self, bound: usize) -> Option<Option<Call>> {
        let kind = self.bytes.pop()? % 8;
        if kind <= 2 {
            let size = self.next_size(bound)?;
            let align = 1 << (self.bytes.pop()? % 6);
            return Some(Some(Call::Alloc(self.names, size, align)));
        }
        let index = usize::from(self.bytes.pop()?);
        let Some(place) = index.checked_rem(self.live.len()) else {
            return Some(None);
        };
        let name = self.live.get(place)?.name;
        if kind <= 5 {
            return Some(Some(Call::Free(name)));
        }
        Some(Some(Call::Realloc(name, self.next_size(bound)?)))
    }

    /// A size below the bound: the next three bytes are its part of it.
    fn next_size(&mut self, bound: usize) -> Option<usize> {
        let mut part: usize = 0;
        for unit in [1, 256, 65536] {
            let byte = usize::from(self.bytes.pop()?);
            part = part.wrapping_add(byte.wrapping_mul(unit));
        }
        Some(part.wrapping_mul(bound) >> 24)
    }

    fn add(&mut self, rt: &impl Abort, call: Call) {
        match call {
            Call::Alloc(name, size, align) => self.allocate(rt, name, size, align),
            Call::Free(name) => {
                if let Some(payload) = self.take(name) {
                    self.read(rt, payload, payload.size);
                    self.push(rt, Op::Free(name), Answer::Done);
                }
            }
            Call::Realloc(name, size) => self.resize(rt, name, size),
        }
    }

    fn allocate(&mut self, rt: &impl Abort, name: usize, size: usize, align: usize) {
        let layout = Layout::from_size_align(size, align).expect(rt, "a layout");
        self.names = self.names.wrapping_add(1);
        if self.place(rt, Op::Alloc(name, layout)) {
            self.live.push(Live { name, size }).expect(rt, "memory");
            self.write(rt, name, size);
        }
    }

    fn resize(&mut self, rt: &impl Abort, name: usize, size: usize) {
        let Some(place) = self.place_of(name) else {
            return;
        };
        let old = *self.live.get(place).expect(rt, "a payload");
        if self.place(rt, Op::Realloc(name, size)) {
            self.read(rt, old, size);
            self.write(rt, name, size);
            *self.live.get_mut(place).expect(rt, "a payload") = Live { name, size };
        }
    }

    /// Takes a payload out, and puts the last one in its place.
    fn take(&mut self, name: usize) -> Option<Live> {
        let place = self.place_of(name)?;
        let last = self.live.pop()?;
        match self.live.get_mut(place) {
            Some(payload) => {
                let taken = *payload;
                *payload = last;
                Some(taken)
            }
            None => Some(last),
        }
    }

    fn place_of(&self, name: usize) -> Option<usize> {
        self.live.iter().position(|payload| payload.name == name)
    }

    /// Adds an op that places a payload, and returns whether it has to find room.
    fn place(&mut self, rt: &impl Abort, op: Op) -> bool {
        let addr = match self.placed.pop().expect(rt, "an address") {
            0 => None,
            offset => NonZeroUsize::new(START.wrapping_add(offset as usize)),
        };
        self.push(rt, op, Answer::Placed(addr));
        addr.is_some()
    }

    /// Writes the pattern at the offsets of a payload of this size.
    fn write(&mut self, rt: &impl Abort, name: usize, size: usize) {
        for index in 0..number_of_offsets(size) {
            let offset = offset_at(index, size);
            self.push(rt, Op::Put(name, offset, pattern(offset)), Answer::Done);
        }
    }

    /// Reads it where it was written and is below a size.
    fn read(&mut self, rt: &impl Abort, payload: Live, below: usize) {
        for index in 0..number_of_offsets(payload.size) {
            let offset = offset_at(index, payload.size);
            if offset < below {
                let answer = Answer::Byte(pattern(offset));
                self.push(rt, Op::Get(payload.name, offset), answer);
            }
        }
    }

    fn push(&mut self, rt: &impl Abort, op: Op, answer: Answer) {
        self.ops.push(op).expect(rt, "memory");
        self.answers.push(answer).expect(rt, "memory");
    }
}

/// How many bytes of a payload of this size are written: each 61st one, and the last one.
fn number_of_offsets(size: usize) -> usize {
    if size == 0 { 0 } else { size / 61 + 2 }
}

fn offset_at(index: usize, size: usize) -> usize {
    index.wrapping_mul(61).min(size.saturating_sub(1))
}

/// The byte that is written at an offset.
fn pattern(offset: usize) -> u8 {
    ((offset % 256) as u8).reverse_bits()
}
