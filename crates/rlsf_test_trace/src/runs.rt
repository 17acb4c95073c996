//! Runs: what their ops answer. Most are traces, whose texts have one op a line; the others are calls of `run`.

mod pools;
mod random;

use crate::answers::all;
use crate::replays::replays;
use rlsf_base::memory::{Layout, Memory, Range};
use rlsf_tlsf::Tlsf;
use rlsf_trace_runs::{RunError, run};
use rlsf_trace_text::{Answer, Op, TraceError};
use std::num::NonZeroUsize;
use std::process::Abort;

/// Traces and their outputs. With 59 first-level rows no chunk is too long for the memory.
static RUNS: [(&[u8], &str); 15] = [
    // One answer an op.
    (
        b"8x8 4096 4096\n\
          insert 4096 96\n\
          alloc 1 0 1\n\
          alloc 2 0 1\n\
          alloc 3 0 1",
        "insert some 96\n\
         alloc 1 at 4112\n\
         alloc 2 at 4144\n\
         alloc 3 none\n\
         status 0",
    ),
    // Names are taken while live. A name whose payload found no room stays free.
    (
        b"8x8 4096 4096\n\
          insert 4096 96\n\
          alloc 1 17 1\n\
          alloc 1 0 1\n\
          alloc 2 0 1\n\
          alloc 2 0 1",
        "insert some 96\n\
         alloc 1 at 4112\n\
         refused 2 NameTaken\n\
         alloc 2 none\n\
         alloc 2 none\n\
         status 0",
    ),
    // Names are free again.
    (
        b"8x8 4096 4096\n\
          insert 4096 128\n\
          alloc 1 0 1\n\
          alloc 2 0 1\n\
          fill 1 1\n\
          fill 2 2\n\
          get 1 15\n\
          free 1\n\
          get 2 0\n\
          alloc 1 0 1\n\
          put 1 15 3\n\
          get 2 0\n\
          get 1 15",
        "insert some 128\n\
         alloc 1 at 4112\n\
         alloc 2 at 4144\n\
         fill 1 done\n\
         fill 2 done\n\
         get 1 1\n\
         free 1 done\n\
         get 2 2\n\
         alloc 1 at 4112\n\
         put 1 done\n\
         get 2 2\n\
         get 1 3\n\
         status 0",
    ),
    // Bytes are written and read up to a payload's end, and a payload is deallocated once.
    (
        b"8x8 4096 4096\n\
          insert 4096 96\n\
          alloc 1 0 1\n\
          alloc 2 0 1\n\
          fill 1 255\n\
          put 2 15 7\n\
          put 2 16 7\n\
          get 1 15\n\
          get 2 15\n\
          free 1\n\
          free 1",
        "insert some 96\n\
         alloc 1 at 4112\n\
         alloc 2 at 4144\n\
         fill 1 done\n\
         put 2 done\n\
         refused 4 BadOffset\n\
         get 1 255\n\
         get 2 7\n\
         free 1 done\n\
         refused 1 UnknownName\n\
         status 0",
    ),
    // Ranges lie in the memory and overlap no pool.
    // Bytes before the pool and behind it are free, and so is an empty range in it.
    (
        b"8x8 4096 4096\n\
          insert 4095 96\n\
          insert 8190 3\n\
          insert 18446744073709551615 1\n\
          insert 4097 127\n\
          insert 4100 64\n\
          insert 4128 1\n\
          insert 4223 64\n\
          insert 4096 32\n\
          insert 4150 0\n\
          insert 4224 64",
        "refused 3 BadRange\n\
         refused 3 BadRange\n\
         refused 3 BadRange\n\
         insert some 127\n\
         refused 3 BadRange\n\
         refused 3 BadRange\n\
         refused 3 BadRange\n\
         insert none\n\
         insert none\n\
         insert some 64\n\
         status 0",
    ),
    // Pools are found whatever their order.
    // The first byte of one, the last of another, all of a third, and what lies between them.
    (
        b"8x8 4096 4096\n\
          insert 4608 64\n\
          insert 4096 64\n\
          insert 4352 64\n\
          insert 4544 65\n\
          insert 4415 1\n\
          insert 4064 128\n\
          insert 4096 64\n\
          insert 4416 192\n\
          insert 4160 192\n\
          insert 4672 64",
        "insert some 64\n\
         insert some 64\n\
         insert some 64\n\
         refused 3 BadRange\n\
         refused 3 BadRange\n\
         refused 3 BadRange\n\
         refused 3 BadRange\n\
         insert some 192\n\
         insert some 192\n\
         insert some 64\n\
         status 0",
    ),
    // Appended bytes join the pool.
    (
        b"59x8 4096 4096\n\
          insert 4096 256\n\
          alloc 1 384 1\n\
          append 4352 256\n\
          alloc 1 384 1",
        "insert some 256\n\
         alloc 1 none\n\
         append 256\n\
         alloc 1 at 4112\n\
         status 0",
    ),
    // Where chunks have a greatest length, the range becomes a chunk of its own.
    (
        b"8x8 4096 4096\n\
          insert 4096 256\n\
          alloc 1 384 1\n\
          append 4352 256\n\
          alloc 1 384 1",
        "insert some 256\n\
         alloc 1 none\n\
         append 256\n\
         alloc 1 none\n\
         status 0",
    ),
    // Short ranges are not appended.
    (
        b"59x8 4096 4096\n\
          insert 4096 64\n\
          alloc 1 0 1\n\
          append 4160 31\n\
          append 4160 32",
        "insert some 64\n\
         alloc 1 at 4112\n\
         append 0\n\
         append 32\n\
         status 0",
    ),
    // As above, with chunks of a greatest length.
    (
        b"8x8 4096 4096\n\
          insert 4096 64\n\
          alloc 1 0 1\n\
          append 4160 31\n\
          append 4160 32",
        "insert some 64\n\
         alloc 1 at 4112\n\
         append 0\n\
         append 0\n\
         status 0",
    ),
    // Appends begin where a pool ends.
    // The pool ends at the next one's begin now.
    (
        b"59x8 4096 4096\n\
          append 4096 64\n\
          insert 4096 128\n\
          insert 4352 128\n\
          append 4223 64\n\
          append 4225 64\n\
          append 4192 64\n\
          append 4224 160\n\
          append 8192 64\n\
          append 4480 8192\n\
          append 4224 128\n\
          append 4224 64\n\
          append 4352 0\n\
          append 4480 64\n\
          insert 4500 64\n\
          append 4544 64",
        "refused 3 BadRange\n\
         insert some 128\n\
         insert some 128\n\
         refused 3 BadRange\n\
         refused 3 BadRange\n\
         refused 3 BadRange\n\
         refused 3 BadRange\n\
         refused 3 BadRange\n\
         refused 3 BadRange\n\
         append 128\n\
         refused 3 BadRange\n\
         append 0\n\
         append 64\n\
         refused 3 BadRange\n\
         append 64\n\
         status 0",
    ),
    // Payloads get other sizes.
    // There is no room, and the name keeps its payload.
    (
        b"8x8 4096 4096\n\
          insert 4096 256\n\
          alloc 1 0 1\n\
          alloc 2 40 1\n\
          alloc 3 100 1\n\
          put 2 47 9\n\
          free 1\n\
          realloc 2 70\n\
          get 2 47\n\
          realloc 2 200\n\
          get 2 47\n\
          put 2 79 1\n\
          put 2 80 1\n\
          free 2\n\
          realloc 2 0",
        "insert some 256\n\
         alloc 1 at 4112\n\
         alloc 2 at 4144\n\
         alloc 3 at 4208\n\
         put 2 done\n\
         free 1 done\n\
         realloc 2 at 4112\n\
         get 2 9\n\
         realloc 2 none\n\
         get 2 9\n\
         put 2 done\n\
         refused 4 BadOffset\n\
         free 2 done\n\
         refused 1 UnknownName\n\
         status 0",
    ),
    // Sizes have layouts. An unknown name is reported first.
    (
        b"8x8 4096 4096\n\
          insert 4096 96\n\
          alloc 1 17 1\n\
          realloc 1 9223372036854775808\n\
          realloc 1 9223372036854775807\n\
          realloc 1 0\n\
          alloc 2 0 1\n\
          realloc 9 18446744073709551615\n\
          nrealloc 1 9223372036854775808\n\
          nrealloc 1 9223372036854775807\n\
          nrealloc 9 18446744073709551615",
        "insert some 96\n\
         alloc 1 at 4112\n\
         refused 5 BadLayout\n\
         realloc 1 none\n\
         realloc 1 at 4112\n\
         alloc 2 at 4144\n\
         refused 1 UnknownName\n\
         refused 5 BadLayout\n\
         nrealloc 1 none\n\
         refused 1 UnknownName\n\
         status 0",
    ),
    // Blocks, and their usable bytes.
    (
        b"8x8 4096 4096\n\
          insert 4096 96\n\
          alloc 1 17 1\n\
          usable 1\n\
          realloc 1 0\n\
          alloc 2 0 1\n\
          block 4096 96 1\n\
          block 4096 96 2\n\
          ufree 2\n\
          block 4096 96 1\n\
          ufree 2\n\
          usable 2",
        "insert some 96\n\
         alloc 1 at 4112\n\
         usable 1 48\n\
         realloc 1 at 4112\n\
         alloc 2 at 4144\n\
         block 4128 32 used\n\
         block none\n\
         ufree 2 done\n\
         block 4128 32 free\n\
         refused 1 UnknownName\n\
         refused 1 UnknownName\n\
         status 0",
    ),
    // The ranges of `block` are those of one pool. Others are refused: outside of the memory, two pools, and parts of one. The
    // start is rounded up to that of the pool.
    (
        b"8x8 4096 4096\n\
          insert 4096 96\n\
          insert 4192 64\n\
          block 4095 97 0\n\
          block 18446744073709551615 1 0\n\
          block 4096 160 0\n\
          block 4128 64 0\n\
          block 4096 64 0\n\
          block 4192 0 0\n\
          block 4161 95 0\n\
          block 4160 96 0",
        "insert some 96\n\
         insert some 64\n\
         refused 3 BadRange\n\
         refused 3 BadRange\n\
         refused 3 BadRange\n\
         refused 3 BadRange\n\
         refused 3 BadRange\n\
         refused 3 BadRange\n\
         block 4192 32 free\n\
         refused 3 BadRange\n\
         status 0",
    ),
];

#[test]
fn lines_and_their_answers(rt: HostRuntime) {
    replays(&rt, &RUNS);
}

/// Passes if a run of the ops, with these answers there already, leaves the wanted ones.
fn leaves(rt: &(impl Abort + AllocGlobal), there: &[Answer], ops: &[Op], wanted: &[Answer]) {
    let memory = Memory::new(rt.alloc(), 4096, 4096).expect(rt, "a memory");
    let mut tlsf = Tlsf::<u8, u8, 8, 8>::new(memory);
    let mut answers = Vec::new(rt.alloc());
    answers.extend_from_slice(there).expect(rt, "memory");
    run(rt.alloc(), &mut tlsf, ops, &mut answers).expect(rt, "memory");
    all(rt, &[answers.as_slice() == wanted]);
}

#[test]
fn answers_follow_those_already_there(rt: HostRuntime) {
    let there = Answer::Placed(NonZeroUsize::new(1));
    let ops = [Op::Alloc(1, Layout::from_size_align_unchecked(0, 1))];
    leaves(&rt, &[there], &ops, &[there, Answer::Placed(None)]);
}

#[test]
fn trims_are_refused(rt: HostRuntime) {
    let pool = Range {
        start: 4096,
        len: 96,
    };
    let ops = [
        Op::Trim,
        Op::Insert(pool),
        Op::Trim,
        Op::Alloc(1, Layout::from_size_align_unchecked(1, 1)),
    ];
    // What is idle stays a pool.
    let wanted = [
        Answer::Refused(TraceError::NotForTlsf),
        Answer::Inserted(NonZeroUsize::new(96)),
        Answer::Refused(TraceError::NotForTlsf),
        Answer::Placed(NonZeroUsize::new(4112)),
    ];
    leaves(&rt, &[], &ops, &wanted);
}

#[test]
fn errors_have_numbers(rt: HostRuntime) {
    all(&rt, &[RunError::OutOfMemory as u8 == 1]);
}
