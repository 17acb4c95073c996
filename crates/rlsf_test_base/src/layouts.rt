//! Tests of layouts.

use crate::answers::{all, passes};
use rlsf_base::memory::Layout;

const HALF: usize = 1 << 63;

/// A size, an alignment, and whether there is such a layout.
static ASKED: [(usize, usize, bool); 4] = [
    (1, 3, false),
    (1, 0, false),
    (HALF - 16, 16, true),
    (HALF - 15, 16, false),
];

#[test]
fn layouts(rt: HostRuntime) {
    for (size, align, is_layout) in &ASKED {
        let layout = Layout::from_size_align(*size, *align);
        passes(&rt, layout.is_ok() == *is_layout, *size);
    }
}

#[test]
fn sizes_and_alignments(rt: HostRuntime) {
    let layout = Layout::from_size_align_unchecked(20, 16);
    let padded = layout.pad_to_align();
    let is_padded = padded.pad_to_align() == padded;
    let numbers = [layout.size(), layout.align(), padded.size(), padded.align()];
    all(&rt, &[numbers == [20, 16, 32, 16], is_padded]);
}
