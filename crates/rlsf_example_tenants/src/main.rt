//! Programs of one thread over heaps, and of std's collections. None has a proof file.
//!
//! `pair` and `words` are complete: each can be the `main.rt` of a crate of its own. `pair` writes two payloads at once, and makes one
//! longer; `words` counts words in a heap and in a tenant. `sized` has allocations that are never refused, and `partitions` 1,004 in pools by
//! size. In this file two tenants of one
//! memory have strings and maps, each in a range of its own. One fills its range, and ends. The other goes on, and the range serves the
//! next tenant.
#![tactic(auto)]

ghost use Rattle.std.specs.Prelude.{◌≡◌};
ghost use Rattle.rlsf_heaps.specs.Words.{lessor};

mod lent;
mod pair;
mod partitions;
mod sized;
mod words;

use rlsf_heaps::{OpenMemory, Range, Tenant};
use std::alloc::{Allocator, Global};
use std::io;
use words::{Counts, Small, count};

/// A tenant's heap, over a range of the pool.
type Room = Tenant<u16, u16, 12, 16>;

/// The addresses of the one memory. It has room for the two tenants, and for no third one.
const POOL: Range = Range {
    start: 4096,
    len: 20480,
};

/// How many bytes the shop may use. With its header that is a block of 2,048 bytes, which is free for a block of as many later.
const SHOP: usize = 2032;

/// How many bytes the blog may use.
const BLOG: usize = 16384;

/// The heap whose payloads are the ranges of the tenants.
fn pool(alloc: Global) -> Option<Small> {
    let memory = OpenMemory::reserve(alloc, POOL.start, POOL.len).ok()?;
    let mut pool = Small::new(memory);
    pool.insert_free_block_ptr(POOL);
    Some(pool)
}

/// Pushes numbers until the allocator refuses one. Returns how many it took.
fn fill<A: Allocator + Copy>(alloc: A) -> usize {
    let mut numbers = Vec::new(alloc);
    for n in 0..100_000u64 {
        if numbers.push(n).is_err() {
            break;
        }
    }
    numbers.len()
}

/// Whether the pool has room for another shop.
fn has_room(pool: &mut Small, alloc: Global) -> bool
    ensures { pool.new.identity ≡ pool.old.identity }
{
    match Room::new(pool, alloc, SHOP) {
        Some(room) => room.end(pool),
        None => false,
    }
}

/// Ends the shop, once it filled its range. Another shop has room only afterwards.
fn end(rt: &(impl Print + AllocGlobal), pool: &mut Small, shop: Room) -> Result<(), io::Error>
    requires { lessor shop.lease ≡ pool.old.identity }
    ensures { pool.new.identity ≡ pool.old.identity }
{
    // Room for numbers is doubled, and that for 256 of them is more than the range has.
    let taken = fill(shop.heap());
    println!(rt;
        "numbers that filled the shop, and its blocks afterwards: {taken}, {}",
        shop.heap().live()
    )?;
    let before = has_room(pool, rt.alloc());
    let ended = shop.end(pool);
    let after = has_room(pool, rt.alloc());
    println!(rt; "the shop has ended: {ended}")?;
    println!(rt; "room for another shop before and after: {before}, {after}")
}

/// Prints how many words there are, and how often one of them occurs.
fn print_counts<A: Allocator + Copy>(rt: &impl Print, counts: &Counts<A>) -> Result<(), io::Error> {
    println!(rt; "the blog has {} words", counts.len())?;
    println!(rt;
        "\"the\" occurs {} times",
        counts.get("the").copied().unwrap_or(0)
    )
}

/// Counts the words for the blog, and ends the shop while the counts are in the blog's range.
fn serve<A: Allocator + Copy>(
    rt: &(impl Print + AllocGlobal),
    pool: &mut Small,
    shop: Room,
    blog: A,
) -> Result<(), io::Error>
    requires { lessor shop.lease ≡ pool.old.identity }
    ensures { pool.new.identity ≡ pool.old.identity }
{
    let Ok(counts) = count(blog, "the cat saw the dog") else {
        return rt.println("the blog has no room");
    };
    end(rt, pool, shop)?;
    print_counts(rt, &counts)
}

fn show(rt: &(impl Print + AllocGlobal)) -> Result<(), io::Error> {
    let Some(mut pool) = pool(rt.alloc()) else {
        return rt.println("no memory");
    };
    let Some(shop) = Room::new(&mut pool, rt.alloc(), SHOP) else {
        return rt.println("no room for the shop");
    };
    let Some(blog) = Room::new(&mut pool, rt.alloc(), BLOG) else {
        return rt.println("no room for the blog");
    };
    serve(rt, &mut pool, shop, blog.heap())?;
    let ended = blog.end(&mut pool);
    println!(rt;
        "the blog has ended: {ended}, and {} ranges are out",
        pool.live()
    )
}

fn main(rt: HostRuntime) -> io::Result<()> {
    lent::main(rt)?;
    pair::main(rt)?;
    partitions::main(rt)?;
    sized::main(rt)?;
    words::main(rt)?;
    show(&rt)
}
