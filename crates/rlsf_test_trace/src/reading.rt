//! Tests that read traces.

use crate::answers::{all, passes};
use rlsf_base::memory::{Layout, Range};
use rlsf_trace_text::{Configuration, Fault, Op, ReplayFault, Trace};
use std::alloc::AllocError;
use std::process::Abort;

/// A trace's configuration, the start of its memory and its length.
type Head = (Configuration, usize, usize);

/// Passes if a trace with the head and the ops is read from the text.
fn reads(rt: &(impl Abort + AllocGlobal), text: &[u8], head: Head, ops: &[Op]) {
    let trace = Trace::parse(rt.alloc(), text).expect(rt, "a trace");
    let is_head = (trace.configuration, trace.start, trace.len) == head;
    all(rt, &[is_head, trace.ops.as_slice() == ops]);
}

/// A trace with room for two payloads, and three allocations.
pub(crate) const FIRST_RUN: &[u8] =
    b"8x8 4096 4096\ninsert 4096 96\nalloc 1 0 1\nalloc 2 0 1\nalloc 3 0 1\n";

/// Returns the ops of `FIRST_RUN`.
pub(crate) fn first_ops() -> [Op; 4] {
    let byte = Layout::from_size_align_unchecked(0, 1);
    [
        Op::Insert(Range {
            start: 4096,
            len: 96,
        }),
        Op::Alloc(1, byte),
        Op::Alloc(2, byte),
        Op::Alloc(3, byte),
    ]
}

#[test]
fn first_run(rt: HostRuntime) {
    let head = (Configuration::EightByEight, 4096, 4096);
    reads(&rt, FIRST_RUN, head, &first_ops());
}

#[test]
fn last_line_without_its_end(rt: HostRuntime) {
    let text = b"59x8 007 0\nalloc 18446744073709551615 2 2";
    let layout = Layout::from_size_align_unchecked(2, 2);
    let ops = [Op::Alloc(usize::MAX, layout)];
    reads(&rt, text, (Configuration::FiftyNineByEight, 7, 0), &ops);
}

static CONFIGURATIONS: [(&[u8], Head); 3] = [
    (
        b"12x16 1 18446744073709551614\n",
        (Configuration::TwelveBySixteen, 1, 18446744073709551614),
    ),
    (b"1x1 1 0", (Configuration::OneByOne, 1, 0)),
    (b"8x1 1 0", (Configuration::EightByOne, 1, 0)),
];

#[test]
fn configurations(rt: HostRuntime) {
    let no_ops: [Op; 0] = [];
    for (text, head) in &CONFIGURATIONS {
        reads(&rt, text, *head, &no_ops);
    }
}

#[test]
fn ops_on_payloads(rt: HostRuntime) {
    let text = b"8x8 4096 96\nfree 1\nfill 2 255\nput 3 4 0\nget 05 18446744073709551615\n";
    let ops = [
        Op::Free(1),
        Op::Fill(2, 255),
        Op::Put(3, 4, 0),
        Op::Get(5, usize::MAX),
    ];
    reads(&rt, text, (Configuration::EightByEight, 4096, 96), &ops);
}

#[test]
fn pools_and_payloads_grow(rt: HostRuntime) {
    // A size with which the text knows no layout is none of its faults.
    let text =
        b"59x8 4096 512\nappend 4352 256\nrealloc 1 0\nrealloc 2 18446744073709551615\nnrealloc 1 48";
    let range = Range {
        start: 4352,
        len: 256,
    };
    let ops = [
        Op::Append(range),
        Op::Realloc(1, 0),
        Op::Realloc(2, usize::MAX),
        Op::ReallocNoMove(1, 48),
    ];
    reads(
        &rt,
        text,
        (Configuration::FiftyNineByEight, 4096, 512),
        &ops,
    );
}

#[test]
fn blocks_and_their_bytes(rt: HostRuntime) {
    let text = b"8x8 4096 96\nufree 1\nusable 18446744073709551615\nblock 4096 96 02\n";
    let range = Range {
        start: 4096,
        len: 96,
    };
    let ops = [
        Op::FreeUnknown(1),
        Op::Usable(usize::MAX),
        Op::Block(range, 2),
    ];
    reads(&rt, text, (Configuration::EightByEight, 4096, 96), &ops);
}

/// Passes if line 2 of each text has this fault, which is the first one.
fn are_refused(rt: &(impl Abort + AllocGlobal), texts: &[&[u8]], fault: Fault) {
    let wanted = ReplayFault { line: 2, fault };
    for (index, text) in texts.iter().enumerate() {
        let found = Trace::parse(rt.alloc(), text).err();
        passes(rt, found == Some(wanted), index);
    }
}

static TOO_FEW_OR_MANY_WORDS: [&[u8]; 18] = [
    b"1x1 1 0\nfree",
    b"1x1 1 0\nfree 1 2",
    b"1x1 1 0\nfill x",
    b"1x1 1 0\nfill 1 2 3",
    b"1x1 1 0\nput 1 256",
    b"1x1 1 0\nput 1 2 3 4",
    b"1x1 1 0\nget 1",
    b"1x1 1 0\nget 1 2 ",
    b"1x1 1 0\nappend 1",
    b"1x1 1 0\nappend 1 2 3",
    b"1x1 1 0\nrealloc x",
    b"1x1 1 0\nrealloc 1 2 1",
    b"1x1 1 0\nnrealloc 1",
    b"1x1 1 0\nnrealloc 1 2 3",
    b"1x1 1 0\nufree 1 x",
    b"1x1 1 0\nusable",
    b"1x1 1 0\nblock x 2",
    b"1x1 1 0\nblock 1 2 3 4",
];

#[test]
fn too_few_or_many_words(rt: HostRuntime) {
    are_refused(&rt, &TOO_FEW_OR_MANY_WORDS, Fault::FieldCount);
}

static WORDS_THAT_ARE_NO_NUMBERS: [&[u8]; 23] = [
    b"1x1 1 0\nfree ",
    b"1x1 1 0\nfree 18446744073709551616",
    b"1x1 1 0\nfill x 1",
    b"1x1 1 0\nfill 1 -1",
    b"1x1 1 0\nfill 1 256",
    b"1x1 1 0\nput x 0 0",
    b"1x1 1 0\nput 1 x 0",
    b"1x1 1 0\nput 1 0 x",
    b"1x1 1 0\nput 1 0 256",
    b"1x1 1 0\nput 1 0 18446744073709551616",
    b"1x1 1 0\nget x 0",
    b"1x1 1 0\nget 1 x",
    b"1x1 1 0\nappend x 1",
    b"1x1 1 0\nappend 1 18446744073709551616",
    b"1x1 1 0\nrealloc x 1",
    b"1x1 1 0\nrealloc 1 x",
    b"1x1 1 0\nnrealloc x 1",
    b"1x1 1 0\nnrealloc 1 x",
    b"1x1 1 0\nufree x",
    b"1x1 1 0\nusable ",
    b"1x1 1 0\nblock x 1 1",
    b"1x1 1 0\nblock 1 x 1",
    b"1x1 1 0\nblock 1 1 18446744073709551616",
];

#[test]
fn words_that_are_no_numbers(rt: HostRuntime) {
    are_refused(&rt, &WORDS_THAT_ARE_NO_NUMBERS, Fault::BadNumber);
}

#[test]
fn words_that_are_no_ops(rt: HostRuntime) {
    are_refused(&rt, &[b"1x1 1 0\nFree 1"], Fault::UnknownOp);
}

/// Whether the report of a fault has these words.
fn is_told(text: Result<String, AllocError>, words: &str) -> bool {
    match text {
        Ok(text) => text.as_str() == words,
        Err(_) => false,
    }
}

#[test]
fn words_of_faults(rt: HostRuntime) {
    let refused = ReplayFault {
        line: 0,
        fault: Fault::OutOfMemory,
    };
    let answers = [
        is_told(refused.to_string(rt.alloc()), "line 0: OutOfMemory"),
        is_told(Fault::Read.to_string(rt.alloc()), "Read"),
        is_told(Fault::Write.to_string(rt.alloc()), "Write"),
    ];
    all(&rt, &answers);
}
