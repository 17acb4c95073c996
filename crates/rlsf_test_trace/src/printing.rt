//! Tests that print answers.

use crate::answers::{all, passes};
use crate::reading::first_ops;
use rlsf_base::memory::{Layout, Range};
use rlsf_trace_text::{Answer, Op, TraceError, text_of};
use std::num::NonZeroUsize;
use std::process::Abort;

/// Passes if the answers to the ops are printed as the text.
fn prints(rt: &(impl Abort + AllocGlobal), ops: &[Op], answers: &[Answer], text: &str) {
    let printed = text_of(rt.alloc(), ops, answers).expect(rt, "memory");
    all(rt, &[printed.as_str() == text]);
}

#[test]
fn first_run(rt: HostRuntime) {
    let answers = [
        Answer::Inserted(NonZeroUsize::new(96)),
        Answer::Placed(NonZeroUsize::new(4112)),
        Answer::Placed(NonZeroUsize::new(4144)),
        Answer::Placed(None),
    ];
    prints(
        &rt,
        &first_ops(),
        &answers,
        "insert some 96\nalloc 1 at 4112\nalloc 2 at 4144\nalloc 3 none\n",
    );
}

#[test]
fn refusals(rt: HostRuntime) {
    let byte = Layout::from_size_align_unchecked(0, 1);
    let range = Range { start: 0, len: 1 };
    let ops = [
        Op::Insert(range),
        Op::Insert(range),
        Op::Alloc(18446744073709551615, byte),
    ];
    let answers = [
        Answer::Inserted(None),
        Answer::Refused(TraceError::BadRange),
        Answer::Refused(TraceError::NameTaken),
    ];
    prints(
        &rt,
        &ops,
        &answers,
        "insert none\nrefused 3 BadRange\nrefused 2 NameTaken\n",
    );
    prints(&rt, &[], &[], "");
}

/// Each refusal with its number.
static NUMBERS: [(TraceError, u8); 7] = [
    (TraceError::UnknownName, 1),
    (TraceError::NameTaken, 2),
    (TraceError::BadRange, 3),
    (TraceError::BadOffset, 4),
    (TraceError::BadLayout, 5),
    (TraceError::NotForFlex, 6),
    (TraceError::NotForTlsf, 7),
];

#[test]
fn numbers_of_refusals(rt: HostRuntime) {
    for (error, number) in &NUMBERS {
        passes(&rt, error.number() == *number, usize::from(*number));
    }
}

#[test]
fn ops_on_payloads(rt: HostRuntime) {
    let ops = [
        Op::Free(9),
        Op::Fill(18446744073709551615, 7),
        Op::Put(3, 47, 255),
        Op::Put(3, 48, 255),
        Op::Get(3, 47),
        Op::Get(3, 0),
        Op::Free(3),
    ];
    let answers = [
        Answer::Refused(TraceError::UnknownName),
        Answer::Done,
        Answer::Done,
        Answer::Refused(TraceError::BadOffset),
        Answer::Byte(255),
        Answer::Byte(0),
        Answer::Done,
    ];
    prints(
        &rt,
        &ops,
        &answers,
        "refused 1 UnknownName\nfill 18446744073709551615 done\nput 3 done\nrefused 4 BadOffset\nget 3 255\nget 3 0\nfree 3 done\n",
    );
}

#[test]
fn pools_and_payloads_grow(rt: HostRuntime) {
    let range = Range {
        start: 4352,
        len: 256,
    };
    let ops = [
        Op::Append(range),
        Op::Append(range),
        Op::Append(range),
        Op::Realloc(1, 0),
        Op::Realloc(18446744073709551615, 200),
        Op::Realloc(9, 0),
        Op::Realloc(1, 18446744073709551615),
        Op::Append(range),
        Op::ReallocNoMove(1, 48),
        Op::ReallocNoMove(2, 49),
        Op::Trim,
        Op::Trim,
    ];
    let answers = [
        Answer::Appended(256),
        Answer::Appended(0),
        Answer::Refused(TraceError::BadRange),
        Answer::Placed(NonZeroUsize::new(4112)),
        Answer::Placed(None),
        Answer::Refused(TraceError::UnknownName),
        Answer::Refused(TraceError::BadLayout),
        Answer::Refused(TraceError::NotForFlex),
        Answer::Placed(NonZeroUsize::new(4112)),
        Answer::Placed(None),
        Answer::Trimmed(2),
        Answer::Refused(TraceError::NotForTlsf),
    ];
    prints(
        &rt,
        &ops,
        &answers,
        "append 256\nappend 0\nrefused 3 BadRange\nrealloc 1 at 4112\nrealloc 18446744073709551615 none\nrefused 1 UnknownName\nrefused 5 BadLayout\nrefused 6 NotForFlex\nnrealloc 1 at 4112\nnrealloc 2 none\ntrim 2\nrefused 7 NotForTlsf\n",
    );
}

#[test]
fn blocks_and_their_bytes(rt: HostRuntime) {
    let range = Range {
        start: 4096,
        len: 96,
    };
    let block = Range {
        start: 4128,
        len: 32,
    };
    let ops = [
        Op::FreeUnknown(1),
        Op::Usable(18446744073709551615),
        Op::Block(range, 1),
        Op::Block(range, 1),
        Op::Block(range, 2),
        Op::Block(range, 0),
        Op::FreeUnknown(9),
    ];
    let answers = [
        Answer::Done,
        Answer::Usable(48),
        Answer::Block(Some((block, true))),
        Answer::Block(Some((block, false))),
        Answer::Block(None),
        Answer::Refused(TraceError::BadRange),
        Answer::Refused(TraceError::UnknownName),
    ];
    prints(
        &rt,
        &ops,
        &answers,
        "ufree 1 done\nusable 18446744073709551615 48\nblock 4128 32 used\nblock 4128 32 free\nblock none\nrefused 3 BadRange\nrefused 1 UnknownName\n",
    );
}
