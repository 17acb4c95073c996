//! Ranges appended behind a pool: how many bytes are used, which addresses are allocated then, and the words in the memory.

ghost use Rattle.std.specs.Prelude.{◌≡◌, ◌≤◌, length};
ghost use Rattle.rlsf_model.specs.State.{empty};

use super::pools::{Long, Small, Step, are, layout_of, number, takes_steps, zeros};
use rlsf::int::BitPattern;
use rlsf::{Layout, Range, Tlsf};
use std::process::Abort;

/// One chunk of the first `pool` of 4096 bytes from the address 4096 on. First a payload of `size` bytes is requested. Then a range
/// of `few` and one of `many` bytes are appended behind the chunk, and the payload is requested again.
#[derive(Clone, Copy)]
struct Case {
    pool: usize,
    size: usize,
    few: usize,
    many: usize,
    /// The address of the first payload, or 0, the bytes taken of the two ranges, and the address of the second payload, or 0.
    answers: [usize; 4],
    /// The words in the memory then, and in some cases a third payload.
    then: &'static [Step],
}

/// Makes the chunk of a case, requests the payload, appends the ranges and requests it again. Returns the payload's address, or 0,
/// the bytes used of the ranges, and the second payload's address, or 0.
fn appended<FLBitmap: BitPattern, SLBitmap: BitPattern, const FLLEN: usize>(
    tlsf: &mut Tlsf<FLBitmap, SLBitmap, FLLEN, 8>,
    case: Case,
    layout: Layout,
) -> Option<[usize; 4]>
    requires state { tlsf.old.state ≡ empty }
    requires rows { 8 ≤ FLLEN }
    requires place { (tlsf.old.memory.start ≡ 4096) × (length tlsf.old.memory.bytes ≡ 4096) }
{
    let Case {
        pool,
        few,
        many,
        ..
    } = case;
    // No complete chunk, or too many bytes.
    if pool % 32 != 0 || pool < 64 || pool > 2048 || few >= 32 || many > 2048 {
        return None;
    }
    tlsf.insert_free_block(Range {
        start: 4096,
        len: pool,
    });
    let before = number(tlsf.allocate(layout));
    let start = 4096 + pool;
    let less = tlsf.append_free_block_ptr(Range { start, len: few });
    let more = tlsf.append_free_block_ptr(Range { start, len: many });
    let after = number(tlsf.allocate(layout));
    Some([before, less, more, after])
}

/// Passes if a case has its expected results in an allocator that has no pool yet.
fn goes_so<FLBitmap: BitPattern, SLBitmap: BitPattern, const FLLEN: usize>(
    rt: &impl Abort,
    tlsf: &mut Tlsf<FLBitmap, SLBitmap, FLLEN, 8>,
    case: Case,
)
    requires state { tlsf.old.state ≡ empty }
    requires rows { 8 ≤ FLLEN }
    requires place { (tlsf.old.memory.start ≡ 4096) × (length tlsf.old.memory.bytes ≡ 4096) }
{
    let answers = appended(tlsf, case, layout_of(rt, case.size, 1));
    are(rt, &answers.unwrap_or([1; 4]), &case.answers);
    takes_steps(rt, tlsf, case.then);
}

const JOINED: Case = Case {
    pool: 256,
    size: 384,
    few: 0,
    many: 256,
    answers: [0, 0, 256, 4112],
    then: &[
        Step::Word(4096, 417),
        Step::Word(4104, 0),
        Step::Word(4512, 64),
        Step::Word(4520, 4096),
        Step::Word(4576, 35),
        Step::Word(4584, 4512),
    ],
};

const BEHIND_A_USED_BLOCK: Case = Case {
    pool: 64,
    size: 0,
    few: 31,
    many: 32,
    answers: [4112, 0, 32, 4144],
    then: &[
        Step::Word(4128, 33),
        Step::Word(4136, 4096),
        Step::Word(4160, 35),
        Step::Word(4168, 4128),
        Step::Allocate(0, 1, 0),
    ],
};

const ROUNDED_DOWN: Case = Case {
    pool: 64,
    size: 0,
    few: 0,
    many: 95,
    answers: [4112, 0, 64, 4144],
    then: &[
        Step::Word(4160, 32),
        Step::Word(4168, 4128),
        Step::Word(4192, 35),
        Step::Word(4200, 4160),
    ],
};

static GROWN: [Case; 3] = [JOINED, BEHIND_A_USED_BLOCK, ROUNDED_DOWN];

#[test]
fn chunks_of_any_length_grow(rt: HostRuntime) {
    for case in &GROWN {
        goes_so(&rt, &mut Long::new(zeros(&rt, 4096, 4096)), *case);
    }
}

const NEVER_JOINED: Case = Case {
    pool: 256,
    size: 384,
    few: 0,
    many: 256,
    answers: [0, 0, 256, 0],
    then: &[
        Step::Word(4096, 224),
        Step::Word(4320, 35),
        Step::Word(4352, 224),
        Step::Word(4360, 0),
        Step::Word(4576, 35),
        Step::Word(4584, 4352),
    ],
};

const TOO_SHORT_FOR_A_CHUNK: Case = Case {
    pool: 64,
    size: 0,
    few: 31,
    many: 32,
    answers: [4112, 0, 0, 0],
    then: &[
        Step::Word(4128, 35),
        Step::Word(4136, 4096),
        Step::Word(4160, 0),
    ],
};

const CHUNK_ROUNDED_DOWN: Case = Case {
    pool: 64,
    size: 0,
    few: 0,
    many: 95,
    answers: [4112, 0, 64, 4176],
    then: &[
        Step::Word(4160, 33),
        Step::Word(4168, 0),
        Step::Word(4192, 35),
        Step::Word(4200, 4160),
    ],
};

static FOLLOWED: [Case; 3] = [NEVER_JOINED, TOO_SHORT_FOR_A_CHUNK, CHUNK_ROUNDED_DOWN];

#[test]
fn chunks_of_a_greatest_length_follow(rt: HostRuntime) {
    for case in &FOLLOWED {
        goes_so(&rt, &mut Small::new(zeros(&rt, 4096, 4096)), *case);
    }
}
