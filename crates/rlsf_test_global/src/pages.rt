//! What the page source provides.

use crate::answers::all;
use rlsf_base::memory::Range;
use rlsf_flex::FlexSource;
use rlsf_global::Source;

/// The start and the length of a range, or two zeros for none.
fn numbers(answer: Option<Range>) -> [usize; 2] {
    match answer {
        Some(range) => [range.start, range.len],
        None => [0, 0],
    }
}

#[test]
fn whole_pages_from_the_rounded_start(rt: HostRuntime) {
    let mut source = Source::<()>::new(Range {
        start: 65537,
        len: 196608,
    });
    let ranges = [
        numbers(source.alloc(64)),
        numbers(source.alloc(65568)),
        numbers(source.alloc(65536)),
        numbers(source.alloc(32)),
    ];
    let expected = [[65568, 65536], [0, 0], [131104, 65536], [0, 0]];
    all(&rt, &[ranges == expected]);
}

#[test]
fn no_page_in_the_space(rt: HostRuntime) {
    let mut short = Source::<()>::new(Range {
        start: 65536,
        len: 65535,
    });
    let mut last = Source::<()>::new(Range {
        start: usize::MAX - 20,
        len: 10,
    });
    let ranges = [numbers(short.alloc(32)), numbers(last.alloc(32))];
    all(&rt, &[ranges == [[0, 0], [0, 0]]]);
}
