//! Replays: what is written for texts, how their faults are reported, and the status.

mod drops;
mod examples;
mod faults;
mod streams;

use crate::answers::passes;
use crate::reading::FIRST_RUN;
use rlsf_trace_runs::replay;
use rlsf_trace_text::status;
use std::alloc::Global;
use std::process::Abort;

/// The output for a text, the report of its fault, and the status. `None` if that is no text, or the system is out of memory.
fn replayed(alloc: Global, text: &[u8]) -> Option<String> {
    let mut reader = text;
    let mut written = Vec::new(alloc);
    let outcome = replay(alloc, &mut reader, &mut written);
    let mut told = String::from_utf8(written).ok()?;
    if let Err(fault) = outcome {
        write!(told, "{fault}, ").ok()?;
    }
    let code = status(&outcome);
    write!(told, "status {code}").ok()?;
    Some(told)
}

/// Passes if each text has the output, the report of its fault and the status beside it.
pub fn replays(rt: &(impl Abort + AllocGlobal), cases: &[(&[u8], &str)]) {
    for (index, (text, wanted)) in cases.iter().enumerate() {
        let told = replayed(rt.alloc(), text);
        passes(rt, told.as_deref() == Some(*wanted), index);
    }
}

static TEXTS: [(&[u8], &str); 18] = [
    // A first run.
    (
        FIRST_RUN,
        "insert some 96\nalloc 1 at 4112\nalloc 2 at 4144\nalloc 3 none\nstatus 0",
    ),
    // A first line alone.
    (b"8x8 4096 96", "status 0"),
    // More memory than the system has.
    (
        b"8x8 1 18446744073709551614\nalloc 1 0 1\n",
        "line 1: OutOfMemory, status 1",
    ),
    // The text's own faults come first.
    (
        b"8x8 1 18446744073709551614\nfoo 1\n",
        "line 2: UnknownOp, status 1",
    ),
    // Refused ops.
    (b"8x8 4096 96\ninsert 1 1\n", "refused 3 BadRange\nstatus 0"),
    (
        b"8x8 4096 4096\ninsert 4096 96\nalloc 1 0 1\nalloc 1 0 1\n",
        "insert some 96\nalloc 1 at 4112\nrefused 2 NameTaken\nstatus 0",
    ),
    (
        b"8x8 4096 4096\ninsert 4096 96\nalloc 1 17 1\nput 1 48 0\nget 1 48\nget 1 18446744073709551615\n",
        "insert some 96\nalloc 1 at 4112\nrefused 4 BadOffset\nrefused 4 BadOffset\nrefused 4 BadOffset\nstatus 0",
    ),
    (
        b"8x8 4096 4096\ninsert 4096 96\nfree 1\nfill 1 0\nput 1 0 0\nget 1 0\nalloc 1 0 1\nfree 1\nfree 1\n",
        "insert some 96\nrefused 1 UnknownName\nrefused 1 UnknownName\nrefused 1 UnknownName\nrefused 1 UnknownName\nalloc 1 at 4112\nfree 1 done\nrefused 1 UnknownName\nstatus 0",
    ),
    // Named payloads.
    // 48 bytes are usable.
    (
        b"8x8 4096 4096\ninsert 4096 96\nalloc 1 17 1\nfill 1 7\nget 1 47\nput 1 47 200\nget 1 47\nget 1 46\nfree 1\nalloc 1 0 1\n",
        "insert some 96\nalloc 1 at 4112\nfill 1 done\nget 1 7\nput 1 done\nget 1 200\nget 1 7\nfree 1 done\nalloc 1 at 4112\nstatus 0",
    ),
    // Pools and payloads grow.
    (
        b"59x8 4096 4096\ninsert 4096 256\nalloc 1 384 1\nappend 4352 256\nalloc 1 384 1\nappend 4097 0\n",
        "insert some 256\nalloc 1 none\nappend 256\nalloc 1 at 4112\nrefused 3 BadRange\nstatus 0",
    ),
    (
        b"8x8 4096 4096\ninsert 4096 96\nalloc 1 17 1\nrealloc 1 0\nrealloc 9 0\nrealloc 1 9223372036854775808\nrealloc 1 9223372036854775807\nalloc 2 0 1\n",
        "insert some 96\nalloc 1 at 4112\nrealloc 1 at 4112\nrefused 1 UnknownName\nrefused 5 BadLayout\nrealloc 1 none\nalloc 2 at 4144\nstatus 0",
    ),
    // The stored run of the program.
    (
        b"8x8 4096 4096\ninsert 4096 96\nalloc 1 17 1\nusable 1\nrealloc 1 0\nfree 9\nalloc 1 0 1\nalloc 2 0 1\nblock 4096 96 1\nblock 4096 96 2\n",
        "insert some 96\nalloc 1 at 4112\nusable 1 48\nrealloc 1 at 4112\nrefused 1 UnknownName\nrefused 2 NameTaken\nalloc 2 at 4144\nblock 4128 32 used\nblock none\nstatus 0",
    ),
    // Configurations. One first-level row of one class makes chunks of 64 bytes.
    (
        b"1x1 4096 4096\ninsert 4096 200\nalloc 1 0 1\n",
        "insert some 192\nalloc 1 at 4240\nstatus 0",
    ),
    // A free block of 96 bytes is in the class from 64 bytes on if a first-level row has one class. That class does not reach 96.
    (
        b"8x1 4096 128\ninsert 4096 128\nalloc 1 66 1\n",
        "insert some 128\nalloc 1 none\nstatus 0",
    ),
    (
        b"8x8 4096 128\ninsert 4096 128\nalloc 1 66 1\n",
        "insert some 128\nalloc 1 at 4112\nstatus 0",
    ),
    (
        b"12x16 4096 128\ninsert 4096 128\nalloc 1 66 1\n",
        "insert some 128\nalloc 1 at 4112\nstatus 0",
    ),
    (
        b"59x8 4096 128\ninsert 4096 128\nalloc 1 66 1\n",
        "insert some 128\nalloc 1 at 4112\nstatus 0",
    ),
    // The run has no more of the memory than the lines name. Up to 31 bytes before a pool are of its range, if they are in the memory.
    (
        b"8x8 4110 1000000\ninsert 4128 96\nblock 4110 114 0\nblock 4109 115 0\nblock 4110 114 1\nappend 4224 32\ninsert 1004110 0\ninsert 1004111 0\n",
        "insert some 96\nblock 4128 64 free\nrefused 3 BadRange\nblock none\nappend 0\ninsert none\nrefused 3 BadRange\nstatus 0",
    ),
];

#[test]
fn texts(rt: HostRuntime) {
    replays(&rt, &TEXTS);
}
