//! Allocators that ask a source for their memory.

ghost use Rattle.std.specs.Prelude.{◌≡◌, ◌<◌, IfSome};

use crate::source::RationedSource;
use rlsf::{BumpSource, FlexTlsf, Layout, Memory, Range, Source};
use std::alloc::Global;

/// An allocator over whole pages that begins with no pool. `None` if the system is out of memory.
pub fn over_pages(alloc: Global, len: usize) -> Option<FlexTlsf<Source<()>, u16, u16, 12, 16>> {
    let memory = Memory::new(alloc, 65536, len).ok()?;
    let space = Range { start: 65536, len };
    Some(FlexTlsf::new(memory, Source::new(space)))
}

/// An allocator over one range that grows. `None` if the system is out of memory.
pub fn over_one_range(alloc: Global, len: usize) -> Option<FlexTlsf<BumpSource, u16, u16, 12, 16>> {
    let memory = Memory::new(alloc, 65536, len).ok()?;
    let space = Range { start: 65536, len };
    Some(FlexTlsf::new(memory, BumpSource::new(space)))
}

/// An allocator over a source that provides `left` ranges. `None` if the system is out of memory.
pub fn over_rations(
    alloc: Global,
    len: usize,
    left: usize,
) -> Option<FlexTlsf<RationedSource, u16, u16, 12, 16>> {
    let memory = Memory::new(alloc, 65536, len).ok()?;
    let space = Range { start: 65536, len };
    Some(FlexTlsf::new(memory, RationedSource::new(space, left)))
}

/// Allocates a payload, fills it and reads it at an offset, wherever its memory comes from. Returns what it read, which is what it
/// wrote.
pub fn filled(
    flex: &mut FlexTlsf<Source<()>, u16, u16, 12, 16>,
    layout: Layout,
    byte: u8,
    offset: usize,
) -> Option<u8>
    requires { offset < layout.size }
    ensures { IfSome result (λ read. read ≡ byte) }
{
    let addr = flex.allocate(layout)?;
    flex.payload_mut(addr).fill(byte);
    let read = flex.payload(addr)[offset];
    flex.deallocate(addr, layout.align());
    Some(read)
}
