//! Readers and writers that fail, that a signal interrupts, and that take little.

use super::FIRST_RUN;
use crate::answers::all;
use rlsf_trace_runs::replay;
use rlsf_trace_text::{Fault, ReplayFault};
use std::alloc::Global;
use std::io;
use std::io::{ErrorKind, Read, Write};
use std::process::Abort;

/// A reader of a text, which fails behind it where `fails` is set.
#[derive(Drop)]
struct Source {
    text: &'static [u8],
    fails: bool,
    /// Whether a signal interrupts every other call.
    is_interrupted: bool,
    /// Whether the last call was interrupted.
    was_interrupted: bool,
}

impl Read for Source {
    fn read(&mut self, buf: &mut [u8]) -> io::Result<usize> {
        self.was_interrupted = self.is_interrupted && !self.was_interrupted;
        if self.was_interrupted {
            return Err(io::Error::from(ErrorKind::Interrupted));
        }
        if self.fails && self.text.is_empty() {
            return Err(io::Error::from(ErrorKind::BrokenPipe));
        }
        self.text.read(buf)
    }
}

/// A writer that takes so many bytes, three at a time, and then none, or fails.
#[derive(Drop)]
struct Narrow {
    taken: Vec<u8>,
    room: usize,
    fails: bool,
    /// Whether a signal interrupts every other call.
    is_interrupted: bool,
    /// Whether the last call was interrupted.
    was_interrupted: bool,
}

impl Write for Narrow {
    fn write(&mut self, buf: &[u8]) -> io::Result<usize> {
        self.was_interrupted = self.is_interrupted && !self.was_interrupted;
        if self.was_interrupted {
            return Err(io::Error::from(ErrorKind::Interrupted));
        }
        if self.room == 0 && self.fails {
            return Err(io::Error::from(ErrorKind::BrokenPipe));
        }
        let len = buf.len().min(self.room).min(3);
        self.taken.extend_from_slice(&buf[..len])?;
        self.room -= len;
        Ok(len)
    }

    fn flush(&mut self) -> io::Result<()> {
        Ok(())
    }
}

/// How a reader and a writer behave.
#[derive(Clone, Copy)]
struct Streams {
    text: &'static [u8],
    /// Whether the reader fails behind the text.
    reader_fails: bool,
    /// How many bytes the writer takes.
    room: usize,
    /// Whether the writer fails then.
    writer_fails: bool,
    /// Whether a signal interrupts every other call of both.
    is_interrupted: bool,
}

/// The fault of a replay.
fn fault_of(alloc: Global, reader: &mut Source, writer: &mut Narrow) -> Option<ReplayFault> {
    replay(alloc, reader, writer).err()
}

/// Passes if a replay over the streams has this fault or none, and these bytes were written. All of the text is read.
fn leaves(
    rt: &impl Abort,
    alloc: Global,
    streams: Streams,
    fault: Option<ReplayFault>,
    written: &[u8],
) {
    let mut reader = Source {
        text: streams.text,
        fails: streams.reader_fails,
        is_interrupted: streams.is_interrupted,
        was_interrupted: false,
    };
    let mut writer = Narrow {
        taken: Vec::new(alloc),
        room: streams.room,
        fails: streams.writer_fails,
        is_interrupted: streams.is_interrupted,
        was_interrupted: false,
    };
    let found = fault_of(alloc, &mut reader, &mut writer);
    let answers = [
        found == fault,
        writer.taken.as_slice() == written,
        reader.text.is_empty(),
    ];
    all(rt, &answers);
}

const NOT_READ: Option<ReplayFault> = Some(ReplayFault {
    line: 0,
    fault: Fault::Read,
});

const NOT_WRITTEN: Option<ReplayFault> = Some(ReplayFault {
    line: 0,
    fault: Fault::Write,
});

const FIRST_OUTPUT: &[u8] = b"insert some 96\nalloc 1 at 4112\nalloc 2 at 4144\nalloc 3 none\n";

/// Streams of the first run, without faults.
const STREAMS: Streams = Streams {
    text: FIRST_RUN,
    reader_fails: false,
    room: FIRST_OUTPUT.len(),
    writer_fails: true,
    is_interrupted: false,
};

/// A text that makes no pool.
const NO_POOL: Streams = Streams {
    text: b"8x8 4096 96\ninsert 4096 0\n",
    ..STREAMS
};

static CASES: [(Streams, Option<ReplayFault>, &[u8]); 11] = [
    (
        Streams {
            text: b"8x8 1 2\n",
            ..STREAMS
        },
        None,
        b"",
    ),
    (
        Streams {
            text: b"",
            reader_fails: true,
            room: usize::MAX,
            ..STREAMS
        },
        NOT_READ,
        b"",
    ),
    (
        Streams {
            text: b"",
            reader_fails: true,
            room: 99,
            ..STREAMS
        },
        NOT_READ,
        b"",
    ),
    // As above, with a failure behind a complete trace.
    (
        Streams {
            reader_fails: true,
            room: 99,
            ..STREAMS
        },
        NOT_READ,
        b"",
    ),
    // The writer takes three bytes at a time, so it is interrupted many times.
    (
        Streams {
            is_interrupted: true,
            ..STREAMS
        },
        None,
        FIRST_OUTPUT,
    ),
    (
        Streams {
            room: 15,
            ..NO_POOL
        },
        None,
        b"insert none\n",
    ),
    (
        Streams {
            room: 12,
            ..NO_POOL
        },
        None,
        b"insert none\n",
    ),
    (
        Streams {
            room: 12,
            writer_fails: false,
            ..NO_POOL
        },
        None,
        b"insert none\n",
    ),
    (
        Streams {
            room: 11,
            ..NO_POOL
        },
        NOT_WRITTEN,
        b"insert none",
    ),
    (
        Streams {
            room: 10,
            writer_fails: false,
            ..NO_POOL
        },
        NOT_WRITTEN,
        b"insert non",
    ),
    (Streams { room: 0, ..NO_POOL }, NOT_WRITTEN, b""),
];

/// Passes if each replay has the expected result beside its streams.
fn leave_so(rt: &(impl Abort + AllocGlobal), cases: &[(Streams, Option<ReplayFault>, &[u8])]) {
    for (streams, fault, written) in cases {
        leaves(rt, rt.alloc(), *streams, *fault, written);
    }
}

#[test]
fn faults_and_interruptions(rt: HostRuntime) {
    leave_so(&rt, &CASES);
}

#[test]
fn writers_without_room(rt: HostRuntime) {
    for room in 0..FIRST_OUTPUT.len() {
        let streams = Streams { room, ..STREAMS };
        leaves(&rt, rt.alloc(), streams, NOT_WRITTEN, &FIRST_OUTPUT[..room]);
    }
}

/// Texts of three lines, without a fault and with one in the last line.
static THREE_LINES: [&[u8]; 2] = [
    b"8x8 4096 96\ninsert 4096 96\nalloc 1 0 1\n",
    b"8x8 4096 96\ninsert 4096 96\nalloc 1 0 3\n",
];

#[test]
fn readers_that_fail(rt: HostRuntime) {
    for lines in &THREE_LINES {
        for len in 0..=lines.len() {
            let streams = Streams {
                text: &lines[..len],
                reader_fails: true,
                ..STREAMS
            };
            leaves(&rt, rt.alloc(), streams, NOT_READ, b"");
        }
    }
}
