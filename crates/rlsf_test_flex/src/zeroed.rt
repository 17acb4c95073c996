//! Payloads that are allocated with zeros, in memory that had other bytes.

use crate::heaps::{all, number};
use rlsf_base::memory::{Layout, Memory, Range};
use rlsf_flex::{BumpSource, FlexTlsf};

/// Chunks of any length.
type Long = FlexTlsf<BumpSource, u64, u64, 59, 8>;

/// All addresses of the memory.
const ALL: Range = Range {
    start: 4096,
    len: 131072,
};

/// Sizes and alignments, and address and number of usable bytes of the first payload of a range that begins at 4096.
const ZEROED: [[usize; 4]; 6] = [
    [0, 1, 4112, 16],
    [1, 1, 4112, 16],
    [17, 16, 4112, 48],
    [65536, 64, 4160, 65536],
    [0, 4096, 8192, 0],
    [65536, 4096, 8192, 65536],
];

/// Leaves other bytes than zeros in the range that comes: a payload that has nearly all of it is filled and deallocated.
fn dirty(flex: &mut Long) -> Option<()> {
    let layout = Layout::from_size_align_unchecked(100000, 1);
    let addr = flex.allocate(layout)?;
    flex.payload_mut(addr).fill(255);
    flex.deallocate(addr, layout.align());
    Some(())
}

/// Whether a payload that is allocated with zeros lies at this address and has so many usable bytes, all of which are 0. It is
/// deallocated.
fn is_zeroed(flex: &mut Long, layout: Layout, place: usize, usable: usize) -> bool {
    let Some(addr) = flex.allocate_zeroed(layout) else {
        return false;
    };
    let bytes = flex.payload(addr);
    let is_right = bytes.len() == usable && bytes.iter().all(|byte| *byte == 0);
    flex.deallocate(addr, layout.align());
    is_right && addr.get() == place
}

#[test]
fn payloads_are_allocated_with_zeros(rt: HostRuntime) {
    let memory = Memory::new(rt.alloc(), ALL.start, ALL.len).expect(&rt, "memory");
    let mut flex = Long::new(memory, BumpSource::new(ALL));
    for [size, align, place, usable] in ZEROED {
        let layout = Layout::from_size_align(size, align).expect(&rt, "a layout");
        let is_dirty = dirty(&mut flex).is_some();
        all(
            &rt,
            &[is_dirty, is_zeroed(&mut flex, layout, place, usable)],
        );
    }
    let refused = flex.allocate_zeroed(Layout::from_size_align_unchecked(131072, 1));
    all(&rt, &[number(refused) == 0]);
}
