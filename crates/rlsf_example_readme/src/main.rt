//! The program that the README shows.
#![tactic(auto)]

ghost use Rattle.std.specs.Prelude.{◌≡◌, IfSome};

use rlsf::{Layout, Memory, Range, Tlsf};
use std::alloc::Global;
use std::io;

/// An allocator with one pool of `len` bytes.
fn with_pool(alloc: Global, len: usize) -> Option<Tlsf<u16, u16, 12, 16>> {
    let mut pool = Tlsf::new(Memory::new(alloc, 4096, len).ok()?);
    pool.insert_free_block(Range { start: 4096, len });
    Some(pool)
}

/// The last byte of a payload that was filled with sevens.
fn last_byte(pool: &mut Tlsf<u16, u16, 12, 16>) -> Option<u8>
    ensures { IfSome result (λ byte. byte ≡ 7) }
{
    let layout = Layout::from_size_align(100, 8).ok()?;
    let addr = pool.allocate(layout)?;
    pool.payload_mut(addr).fill(7);
    let byte = pool.payload(addr)[99];
    pool.deallocate(addr, layout.align());
    Some(byte)
}

fn main(rt: HostRuntime) -> io::Result<()> {
    let byte = with_pool(rt.alloc(), 65536).and_then(|mut pool| last_byte(&mut pool));
    println!(rt; "{byte:?}")
}
