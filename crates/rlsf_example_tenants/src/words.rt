//! Words that are counted in a heap of a fixed size, and in a tenant of a pool.
#![tactic(auto)]

use rlsf_heaps::{Heap, LocalHeap, OpenMemory, Range, Tenant};
use std::alloc::{AllocError, Allocator, Global};
use std::collections::BTreeMap;
use std::io;

/// 12 rows of 16 classes, with chunks of up to 131,072 bytes.
pub(crate) type Small = Heap<u16, u16, 12, 16>;

/// The words of a text, and how often each occurs.
pub(crate) type Counts<A> = BTreeMap<String<A>, u64, A>;

/// Counts the words of a text. Each word and each entry is in memory of the allocator.
pub(crate) fn count<A: Allocator + Copy>(alloc: A, text: &str) -> Result<Counts<A>, AllocError> {
    let mut counts = Counts::new(alloc);
    for word in text.split(' ') {
        let before = counts.get(word).copied().unwrap_or(0);
        let key = String::from_str(alloc, word)?;
        if counts.insert(key, before.saturating_add(1)).is_err() {
            return Err(AllocError);
        }
    }
    Ok(counts)
}

/// Counts the words of a text. Returns how often "the" occurs.
fn occurrences<A: Allocator + Copy>(alloc: A, text: &str) -> Option<u64> {
    count(alloc, text).ok()?.get("the").copied()
}

/// Counts in a heap of 16,384 bytes. Returns how often "the" occurs.
fn in_heap(alloc: Global, text: &str) -> Option<u64> {
    let heap = LocalHeap::<Box<Small>>::new(alloc, 16384).ok()?;
    occurrences(&heap, text)
}

/// Counts in a tenant, which has 8,176 bytes of a pool. Also returns whether the tenant ended: then the pool has the bytes again.
fn in_tenant(alloc: Global, text: &str) -> Option<(u64, bool)> {
    let memory = OpenMemory::reserve(alloc, 4096, 16384).ok()?;
    let mut pool = Small::new(memory);
    pool.insert_free_block_ptr(Range {
        start: 4096,
        len: 16384,
    });
    let tenant = Tenant::new(&mut pool, alloc, 8176)?;
    let counted = occurrences(tenant.heap(), text)?;
    Some((counted, tenant.end(&mut pool)))
}

pub(crate) fn main(rt: HostRuntime) -> io::Result<()> {
    let text = "the cat saw the dog";
    println!(rt; "in a heap: {:?}", in_heap(rt.alloc(), text))?;
    println!(rt; "in a tenant that ended: {:?}", in_tenant(rt.alloc(), text))
}
