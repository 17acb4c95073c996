//! Loops over the addresses of many payloads, which a `Vec` keeps.

ghost use Rattle.std.specs.Prelude.{◌≡◌, ◌<◌, ◌+◌, ◌%◌, length, IfSome, OnSome};
ghost use Rattle.rlsf.specs.Live.{AreLive};
ghost use Rattle.rlsf.specs.Words.{live_count};
ghost use Rattle.rlsf_example_functions.specs.Stored.{AreNumbered};

use crate::pools::Pool;
use rlsf::{Addr, Layout};

/// Allocates `count` payloads, and puts their addresses behind the others. `None` if the pool or the system is out of memory.
#[tactic(auto, using(rlsf::specs::Live::live_more))]
pub fn allocate_all(
    pool: &mut Pool,
    layout: Layout,
    count: usize,
    addrs: &mut Vec<Addr>,
) -> Option<()>
    requires live { AreLive pool.old.state layout.align addrs.old.items }
    ensures live { AreLive pool.new.state layout.align addrs.new.items }
    ensures len { OnSome result (length addrs.new.items ≡ length addrs.old.items + count) }
{
    for _ in 0..count {
        addrs.reserve(1).ok()?;
        addrs.push_reserved(pool.allocate(layout)?);
    }
    Some(())
}

/// Fills each payload with the low byte of its index.
#[tactic(auto, using(crate::proofs::Numbered::numbered_none))]
pub fn fill_all(pool: &mut Pool, align: usize, addrs: &[Addr])
    requires { AreLive pool.old.state align addrs.now }
    ensures live { AreLive pool.new.state align addrs.now }
    ensures numbered { AreNumbered pool.new.state addrs.now (length addrs.now) }
{
    for index in 0..addrs.len() {
        fill_next(pool, align, addrs, index);
    }
}

/// Fills the payload behind those that are filled.
#[tactic(auto, using(rlsf::specs::Live::live_at, rlsf::specs::Live::live_kept, crate::proofs::Numbered::numbered_more))]
fn fill_next(pool: &mut Pool, align: usize, addrs: &[Addr], index: usize)
    requires live { AreLive pool.old.state align addrs.now }
    requires numbered { AreNumbered pool.old.state addrs.now index }
    requires index { index < length addrs.now }
    ensures live { AreLive pool.new.state align addrs.now }
    ensures numbered { AreNumbered pool.new.state addrs.now (index + 1) }
{
    pool.payload_mut(addrs[index]).fill((index % 256) as u8);
}

/// The first byte of a payload, by its index: the low byte of that. `None` if the payload has no byte.
#[tactic(auto, using(rlsf::specs::Live::live_at, crate::proofs::Numbered::numbered_byte))]
pub fn read_back(pool: &Pool, align: usize, addrs: &[Addr], index: usize) -> Option<u8>
    requires live { AreLive pool.now.state align addrs.now }
    requires numbered { AreNumbered pool.now.state addrs.now (length addrs.now) }
    requires index { index < length addrs.now }
    ensures { IfSome result (λ byte. byte ≡ index % 256) }
{
    pool.payload(addrs[index]).first().copied()
}

/// Frees all payloads.
#[tactic(auto, using(rlsf::specs::Live::live_last, rlsf::specs::Live::live_front))]
pub fn free_all(pool: &mut Pool, align: usize, mut addrs: Vec<Addr>)
    requires { AreLive pool.old.state align addrs.items }
    ensures { live_count pool.old.state ≡ live_count pool.new.state + length addrs.items }
{
    while let Some(addr) = addrs.pop() {
        pool.deallocate(addr, align);
    }
}
