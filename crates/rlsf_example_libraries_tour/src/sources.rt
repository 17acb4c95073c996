//! Two payloads of an allocator that asks a source of the caller's own for memory.
#![tactic(auto)]

ghost use Rattle.std.specs.Prelude.{◌≡◌, ◌<◌, [], ◌∷◌, IfSome};

use rlsf::{FlexTlsf, Layout, Memory, Range};
use rlsf_example_functions::RationedSource;
use std::alloc::Global;
use std::io;

/// An allocator whose source provides two ranges.
type Rationed = FlexTlsf<RationedSource, u16, u16, 12, 16>;

/// Returns an allocator that begins without a pool. `None` if the system is out of memory.
fn over_two_ranges(alloc: Global) -> Option<Rationed> {
    let memory = Memory::new(alloc, 65536, 65536).ok()?;
    let space = Range {
        start: 65536,
        len: 65536,
    };
    Some(FlexTlsf::new(memory, RationedSource::new(space, 2)))
}

/// Allocates two payloads, and writes both. Returns the first byte of each, and deallocates both.
fn pair_of_bytes(flex: &mut Rationed, layout: Layout) -> Option<[u8; 2]>
    requires { 0 < layout.size }
    ensures { IfSome result (λ bytes. bytes ≡ 7 ∷ 9 ∷ []) }
{
    let first = flex.allocate(layout)?;
    let second = flex.allocate(layout)?;
    flex.payload_mut(first).fill(7);
    flex.payload_mut(second).fill(9);
    let bytes = [flex.payload(first)[0], flex.payload(second)[0]];
    flex.deallocate(first, layout.align());
    flex.deallocate(second, layout.align());
    Some(bytes)
}

pub(crate) fn main(rt: HostRuntime) -> io::Result<()> {
    let layout = Layout::from_size_align_unchecked(100, 8);
    let bytes = over_two_ranges(rt.alloc()).and_then(|mut flex| pair_of_bytes(&mut flex, layout));
    println!(rt; "two payloads: {bytes:?}")
}
