//! The one pool of an allocator of collections, and of a tenant: all of its memory but what the heap keeps for itself. Tenants that are
//! refused, that have a long range, and that share a pool.
ghost use Rattle.std.specs.Prelude.{◌≡◌};

use crate::answers::all;
use rlsf_base::memory::{OpenMemory, Range};
use rlsf_heap::Heap;
use rlsf_local_heap::{LocalHeap, Tenant};
use std::alloc::{Allocator, Global};
use std::process::Abort;

/// Chunks of any length.
type Large = Box<Heap<u64, u64, 59, 8>>;

/// 12 rows of 16 classes, with chunks of up to 131,072 bytes.
type Small = Heap<u16, u16, 12, 16>;

/// A heap over a range of another's memory.
type Room = Tenant<u16, u16, 12, 16>;

/// The same, of any length.
type LargeRoom = Tenant<u64, u64, 59, 8>;

/// Whether a vector alone in a heap gets room for so many bytes, and for no more. For 0 bytes, whether it gets none.
fn takes<A: Allocator + Copy>(alloc: A, bytes: usize) -> bool {
    let Ok(mut vector) = Vec::<u8, A>::with_capacity(alloc, 1) else {
        return bytes == 0;
    };
    let is_refused = vector.reserve_exact(bytes.saturating_add(1)).is_err();
    is_refused && vector.reserve_exact(bytes).is_ok() && vector.capacity() == bytes
}

// A length, and the bytes that a vector gets in a heap of so many. The length is rounded down to a multiple of 32, and 32 bytes are the
// sentinel's and 16 the block's. There is no pool below 64 bytes.
static LENGTHS: [(usize, usize); 10] = [
    (0, 0),
    (63, 0),
    (64, 16),
    (95, 16),
    (96, 48),
    (4096, 4048),
    (1 << 20, 1048528),
    ((1 << 20) + 1, 1048528),
    (1 << 21, 2097104),
    (1 << 25, 33554384),
];

#[test]
fn a_new_allocator_of_collections_has_all_of_its_memory(rt: HostRuntime) {
    for (len, bytes) in LENGTHS.iter() {
        let heap = LocalHeap::<Large>::new(rt.alloc(), *len).expect(&rt, "memory");
        all(&rt, &[heap.size() == *len, takes(&heap, *bytes)]);
    }
}

// A length, that of the tenant's range, which with 16 more is a multiple of 32, and the bytes that a vector gets there.
static RANGES: [(usize, usize, usize); 10] = [
    (0, 16, 0),
    (48, 48, 0),
    (49, 80, 16),
    (1001, 1008, 944),
    (2032, 2032, 1968),
    (2033, 2064, 2000),
    (20000, 20016, 19952),
    (40000, 40016, 39952),
    (65536, 65552, 65488),
    (100003, 100016, 99952),
];

/// A heap with a pool of 131,072 bytes.
fn lessor(rt: &(impl Abort + AllocGlobal)) -> Small {
    let memory = OpenMemory::reserve(rt.alloc(), 4096, 131072).expect(rt, "memory");
    let mut pool = Small::new(memory);
    pool.insert_free_block_ptr(Range {
        start: 4096,
        len: 131072,
    });
    pool
}

/// Passes if a tenant of `len` bytes has a range of `size`, of which a vector gets `bytes`, and ends.
fn has_its_range(
    rt: &(impl Abort + AllocGlobal),
    pool: &mut Small,
    (len, size, bytes): (usize, usize, usize),
) {
    let room = Room::new(pool, rt.alloc(), len).expect(rt, "room");
    let is_size = room.heap().size() == size;
    let is_taken = takes(room.heap(), bytes);
    all(rt, &[is_size, is_taken, pool.live() == 1, room.end(pool)]);
}

#[test]
fn a_tenant_has_all_of_its_range(rt: HostRuntime) {
    let mut pool = lessor(&rt);
    for row in RANGES.iter() {
        has_its_range(&rt, &mut pool, *row);
    }
    // The pool is one free block again, in the last class of the last row.
    let first = pool.first_free(11, 15).map_or(0, |addr| addr.get());
    all(&rt, &[pool.live() == 0, first == 4096]);
}

/// Whether a pool of `lessor` has so many live payloads and, if there is none, its one free block.
fn has_live(pool: &Small, live: usize) -> bool {
    let first = pool.first_free(11, 15).map_or(0, |addr| addr.get());
    pool.live() == live && (live > 0 || first == 4096)
}

/// Whether a pool refuses a tenant of `len` bytes, and has as many live payloads as before then.
fn refuses(alloc: Global, pool: &mut Small, len: usize, live: usize) -> bool
    ensures { pool.new.identity ≡ pool.old.identity }
{
    let is_refused = Room::new(pool, alloc, len).is_none();
    is_refused && has_live(pool, live)
}

// The last class of blocks begins at 126,976 bytes, and a payload has 16 bytes before it. A range of 100,003 leaves a block of 31,008 bytes,
// whose class begins at 30,720.
#[test]
fn a_refused_tenant_leaves_no_payload(rt: HostRuntime) {
    let mut pool = lessor(&rt);
    let empty = [
        refuses(rt.alloc(), &mut pool, 126961, 0),
        refuses(rt.alloc(), &mut pool, 1 << 58, 0),
        refuses(rt.alloc(), &mut pool, usize::MAX, 0),
    ];
    let room = Room::new(&mut pool, rt.alloc(), 100003).expect(&rt, "room");
    let beside = [
        refuses(rt.alloc(), &mut pool, 30705, 1),
        refuses(rt.alloc(), &mut pool, 65536, 1),
    ];
    let ended = room.end(&mut pool);
    all(&rt, &empty);
    all(&rt, &beside);
    all(&rt, &[ended, has_live(&pool, 0)]);
}

/// Passes if a tenant of a range of so many bytes ends, and leaves no payload.
fn comes_and_goes(
    rt: &(impl Abort + AllocGlobal),
    pool: &mut Heap<u64, u64, 59, 8>,
    len: usize,
    bytes: usize,
) {
    let room = LargeRoom::new(pool, rt.alloc(), len).expect(rt, "room");
    let is_taken = takes(room.heap(), bytes);
    all(rt, &[is_taken, pool.live() == 1, room.end(pool)]);
    all(rt, &[pool.live() == 0]);
}

// A range of so many bytes has 16 more, and 64 are the sentinel's, the block's and those that are left over. Two of the longest don't fit.
#[test]
fn a_tenant_of_a_long_range_ends(rt: HostRuntime) {
    let memory = OpenMemory::reserve(rt.alloc(), 4096, 1 << 22).expect(&rt, "memory");
    let mut pool = Heap::new(memory);
    pool.insert_free_block_ptr(Range {
        start: 4096,
        len: 1 << 22,
    });
    comes_and_goes(&rt, &mut pool, 1 << 17, 131024);
    comes_and_goes(&rt, &mut pool, 1 << 20, 1048528);
    comes_and_goes(&rt, &mut pool, 3 << 20, 3145680);
    comes_and_goes(&rt, &mut pool, 3 << 20, 3145680);
}

/// Passes if a tenant lives beside others in a pool, and ends.
fn nest(rt: &(impl Abort + AllocGlobal), pool: &mut Small) {
    let first = Room::new(pool, rt.alloc(), 20000).expect(rt, "room");
    let second = Room::new(pool, rt.alloc(), 20000).expect(rt, "room");
    let third = Room::new(pool, rt.alloc(), 2033).expect(rt, "room");
    let fourth = Room::new(pool, rt.alloc(), 20000).expect(rt, "room");
    let all_live = has_live(pool, 4);
    let taken = [
        takes(first.heap(), 19952),
        takes(second.heap(), 19952),
        takes(third.heap(), 2000),
        takes(fourth.heap(), 19952),
    ];
    let ended = [
        third.end(pool),
        first.end(pool),
        fourth.end(pool),
        second.end(pool),
    ];
    all(rt, &taken);
    all(rt, &ended);
    all(rt, &[all_live, has_live(pool, 0)]);
}

#[test]
fn four_tenants_share_a_pool(rt: HostRuntime) {
    nest(&rt, &mut lessor(&rt));
}
