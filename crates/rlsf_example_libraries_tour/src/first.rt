//! The first calls of a program: it makes a pool, allocates payloads, fills and reads them, resizes one, and deallocates them. None of
//! these functions has a proof file.

ghost use Rattle.std.specs.Prelude.{◌≡◌, ◌<◌, IfSome, Some};
ghost use Rattle.rlsf.specs.Words.{align_at, at};

use crate::error::TourError;
use rlsf::{Addr, Layout, Memory, MemoryError, Range, Tlsf};
use std::alloc::Global;

/// Chunks of up to 131,072 bytes, in 12 first-level rows of 16 classes.
type Pool = Tlsf<u16, u16, 12, 16>;

/// An allocator over so many bytes from the address 4096 on, all of which are its pool.
fn with_pool(alloc: Global, len: usize) -> Result<Pool, MemoryError> {
    let memory = Memory::new(alloc, 4096, len)?;
    let mut pool = Pool::new(memory);
    pool.insert_free_block(Range { start: 4096, len });
    Ok(pool)
}

/// Allocates a payload, fills it with a byte, reads it at an offset, and deallocates it. Returns what was read: what was written.
fn filled(pool: &mut Pool, layout: Layout, byte: u8, offset: usize) -> Option<u8>
    requires { offset < layout.size }
    ensures { IfSome result (λ read. read ≡ byte) }
{
    let addr = pool.allocate(layout)?;
    pool.payload_mut(addr).fill(byte);
    let read = pool.payload(addr)[offset];
    pool.deallocate(addr, layout.align());
    Some(read)
}

/// Resizes a payload, reads its first byte, and deallocates it. Returns `None` if there is no room; then it is deallocated, too.
fn resized(pool: &mut Pool, addr: Addr, layout: Layout, longer: Layout) -> Option<u8>
    requires live { align_at pool.old.state (at addr) ≡ Some layout.align }
    requires align { longer.align ≡ layout.align }
    requires some { 0 < longer.size }
{
    let Some(moved) = pool.reallocate(addr, longer) else {
        pool.deallocate(addr, layout.align());
        return None;
    };
    let kept = pool.payload(moved)[0];
    pool.deallocate(moved, longer.align());
    Some(kept)
}

/// Allocates two payloads, fills both and reads the first byte of each. Deallocates the second one, and resizes the first and reads it
/// again. Returns `None` if there is no room; then both are deallocated, too.
fn two(pool: &mut Pool, small: Layout, large: Layout, longer: Layout) -> Option<[u8; 3]>
    requires align { longer.align ≡ small.align }
    requires some { (0 < small.size) × (0 < large.size) × (0 < longer.size) }
{
    let first = pool.allocate(small)?;
    let Some(second) = pool.allocate(large) else {
        pool.deallocate(first, small.align());
        return None;
    };
    pool.payload_mut(first).fill(7);
    pool.payload_mut(second).fill(9);
    let reads = [pool.payload(first)[0], pool.payload(second)[0]];
    pool.deallocate(second, large.align());
    let kept = resized(pool, first, small, longer)?;
    Some([reads[0], reads[1], kept])
}

/// Writes and reads three payloads.
pub(crate) fn show(rt: &(impl Print + AllocGlobal)) -> Result<(), TourError> {
    let mut pool = with_pool(rt.alloc(), 65536)?;
    let small = Layout::from_size_align(100, 8)?;
    let large = Layout::from_size_align(1000, 64)?;
    let longer = Layout::from_size_align(500, 8)?;
    let Some(reads) = two(&mut pool, small, large, longer) else {
        return Err(TourError::NoRoom);
    };
    let [first, second, kept] = reads;
    println!(rt; "the first payload held {first}, the second {second}")?;
    println!(rt; "with another size the first held {kept}")?;
    let Some(read) = filled(&mut pool, small, 3, 99) else {
        return Err(TourError::NoRoom);
    };
    println!(rt; "a third held {read}\n")?;
    Ok(())
}
