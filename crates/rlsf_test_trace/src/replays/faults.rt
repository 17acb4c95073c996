//! Faults of texts, and the lines that have them.

use super::replays;

static FIRST_LINES: [(&[u8], &str); 24] = [
    (b"", "line 1: FieldCount, status 1"),
    (b"\n", "line 1: FieldCount, status 1"),
    (b"8x8 4096", "line 1: FieldCount, status 1"),
    (b"8x8 4096 96 ", "line 1: FieldCount, status 1"),
    (b"8x8  4096 96", "line 1: FieldCount, status 1"),
    (b" 8x8 4096 96", "line 1: FieldCount, status 1"),
    (b"8x9 x 96", "line 1: Config, status 1"),
    (b"8X8 4096 96", "line 1: Config, status 1"),
    (b" 4096 96", "line 1: Config, status 1"),
    (b"8x8\r 4096 96", "line 1: Config, status 1"),
    (b"8x8 4096 96\r\n", "line 1: BadNumber, status 1"),
    (b"8x8 4096 \n", "line 1: BadNumber, status 1"),
    (b"8x8 +1 96", "line 1: BadNumber, status 1"),
    (b"8x8 4096 \xff", "line 1: BadNumber, status 1"),
    (b"8x8 0 18446744073709551616", "line 1: BadNumber, status 1"),
    (
        b"8x8 1 000000000000000000001",
        "line 1: BadNumber, status 1",
    ),
    (b"8x8 0 18446744073709551615", "line 1: ZeroStart, status 1"),
    (b"8x8 00000000000000000000 0", "line 1: ZeroStart, status 1"),
    (b"8x8 1 18446744073709551615", "line 1: TooLong, status 1"),
    (b"9x9 0 0", "line 1: Config, status 1"),
    (b"8x8  4096", "line 1: BadNumber, status 1"),
    (
        b"8x8 4096 18446744073709551616",
        "line 1: BadNumber, status 1",
    ),
    (b"8x8 0 0", "line 1: ZeroStart, status 1"),
    (b"8x8 18446744073709551615 1", "line 1: TooLong, status 1"),
];

static OTHER_LINES: [(&[u8], &str); 24] = [
    (b"8x8 4096 96\n\n", "line 2: UnknownOp, status 1"),
    (b"8x8 4096 96\n insert 1 1\n", "line 2: UnknownOp, status 1"),
    (b"8x8 4096 96\nInsert 1 1\n", "line 2: UnknownOp, status 1"),
    (b"8x8 4096 96\ninsert\t1 1\n", "line 2: UnknownOp, status 1"),
    // The text has no line for a trim.
    (b"8x8 4096 96\ntrim\n", "line 2: UnknownOp, status 1"),
    (b"8x8 4096 96\n\xff\n", "line 2: UnknownOp, status 1"),
    (b"8x8 4096 96\n\xff", "line 2: UnknownOp, status 1"),
    (b"8x8 4096 96\r\ninsert", "line 1: BadNumber, status 1"),
    (b"8x8 4096 96\ninsert", "line 2: FieldCount, status 1"),
    (
        b"8x8 4096 96\ninsert 1  1\n",
        "line 2: FieldCount, status 1",
    ),
    (
        b"8x8 4096 96\ninsert x 1 1\n",
        "line 2: FieldCount, status 1",
    ),
    (b"8x8 4096 96\ninsert 4096", "line 2: FieldCount, status 1"),
    (b"8x8 4096 96\nalloc 1 1\n", "line 2: FieldCount, status 1"),
    (b"8x8 4096 96\nalloc 1  0 1", "line 2: FieldCount, status 1"),
    (b"8x8 4096 96\ninsert  1\n", "line 2: BadNumber, status 1"),
    (
        b"8x8 4096 96\ninsert 1 1\r\n",
        "line 2: BadNumber, status 1",
    ),
    (
        b"8x8 4096 96\nalloc -1 1 3\n",
        "line 2: BadNumber, status 1",
    ),
    (
        b"8x8 4096 96\nalloc 18446744073709551616 1 1",
        "line 2: BadNumber, status 1",
    ),
    (b"8x8 4096 96\nalloc 1 0 1\r", "line 2: BadNumber, status 1"),
    (b"8x8 4096 96\nfill 1 256", "line 2: BadNumber, status 1"),
    (
        b"8x8 4096 96\nalloc 1 9223372036854775808 1",
        "line 2: BadLayout, status 1",
    ),
    (
        b"8x8 4096 96\ninsert 4096 96\nalloc 1 0 3",
        "line 3: BadLayout, status 1",
    ),
    (
        b"8x8 4096 96\ninsert 4096 96\nalloc 1 0 0\nfoo",
        "line 3: BadLayout, status 1",
    ),
    (
        b"8x8 4096 96\ninsert 4096 96\n\ninsert",
        "line 3: UnknownOp, status 1",
    ),
];

#[test]
fn faults_of_first_lines(rt: HostRuntime) {
    replays(&rt, &FIRST_LINES);
}

#[test]
fn faults_of_other_lines(rt: HostRuntime) {
    replays(&rt, &OTHER_LINES);
}
