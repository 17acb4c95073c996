//! A bump source: the addresses that an allocator over it returns.

use crate::heaps::{all, number};
use rlsf_base::memory::{Layout, Memory, Range};
use rlsf_flex::{BumpSource, FlexTlsf};
use std::alloc::Global;

/// The addresses of four payloads of one byte over 223 bytes from the address 4097 on, 0 for none.
fn placed(alloc: Global) -> Option<[usize; 4]> {
    let space = Range {
        start: 4097,
        len: 223,
    };
    let memory = Memory::new(alloc, space.start, space.len).ok()?;
    let mut flex = FlexTlsf::<_, u16, u16, 12, 16>::new(memory, BumpSource::new(space));
    let layout = Layout::from_size_align_unchecked(1, 1);
    Some([
        number(flex.allocate(layout)),
        number(flex.allocate(layout)),
        number(flex.allocate(layout)),
        number(flex.allocate(layout)),
    ])
}

#[test]
fn bump_source_provides_and_grows_twice(rt: HostRuntime) {
    // A payload of one byte needs a block of 32 bytes, and a pool of 64. The range begins at 4128, the first multiple of 32 behind
    // 4097. It ends at 4192, then at 4256, and then at 4320, where the space ends. Each part has a payload behind 16 bytes.
    let addresses = placed(rt.alloc()).unwrap_or([0; 4]);
    all(&rt, &[addresses == [4144, 4208, 4272, 0]]);
}
