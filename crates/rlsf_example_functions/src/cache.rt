//! A cache of the latest messages.

ghost use Rattle.std.specs.Prelude.{◌≡◌, ◌<◌, ◌≤◌, [], IfSome, drop, length, nat_eq, if◌then◌else◌};
ghost use Rattle.rlsf.specs.Live.{AddsPayload};

use crate::bytes::write_front;
use crate::pools::{Pool, with_pool};
use rlsf::{Addr, Layout};
use std::alloc::Global;
use std::collections::VecDeque;
use std::marker::Model;

/// The latest messages, as many as the list has room for.
#[derive(Drop)]
pub struct Cache {
    pool: Pool,
    layout: Layout,
    addrs: VecDeque<Addr>,
}

impl Model for Cache {
    ghost use Rattle.std.specs.Prelude.{◌≡◌, ◌<◌, ◌-◌, length};
    ghost use Rattle.std.specs.VecDeque.{deque_capacity};
    ghost use Rattle.rlsf.specs.Live.{AreLive, payloads_at};
    ghost use Rattle.rlsf.specs.Words.{IsSizedFor, live_count};
    ghost use Rattle.rlsf_example_functions.specs.Cache.{Shown, shown};

    ghost Value = { Shown };

    ghost view = { λ c. shown (payloads_at c.pool.state c.addrs.items) (deque_capacity c.addrs) c.layout.size };

    ghost invariant = { λ c. IsSizedFor 16 (deque_capacity c.addrs - 1) c.layout.size c.layout.align c.pool.state
        × (live_count c.pool.state ≡ length c.addrs.items)
        × (0 < deque_capacity c.addrs)
        × AreLive c.pool.state c.layout.align c.addrs.items };
}

impl Cache {
    /// A cache for the latest `capacity` messages, each of up to the layout's bytes. `None` if the system is out of memory.
    #[tactic(auto, using(rlsf::specs::Live::live_none, rlsf::specs::Live::payloads_none))]
    pub fn new(alloc: Global, capacity: usize, layout: Layout) -> Option<Cache>
        requires { 0 < capacity }
        ensures { IfSome result (λ c. (c.payloads ≡ []) × (c.capacity ≡ capacity) × (c.longest ≡ layout.size)) }
    {
        let addrs = VecDeque::with_capacity(alloc, capacity).ok()?;
        let pool = with_pool(alloc, capacity - 1, layout)?;
        Some(Cache {
            pool,
            layout,
            addrs,
        })
    }

    /// Puts one more message behind the others, in place of the oldest one if the cache is full. It is never refused.
    ///
    /// The message isn't longer than the longest that the cache is made for.
    pub fn put(&mut self, message: &[u8])
        requires { length message.now ≤ self.old.longest }
        ensures behind { let old = self.old in AddsPayload (if nat_eq (length old.payloads) old.capacity then drop 1 old.payloads else old.payloads) message.now self.new.payloads }
        ensures bounds { (self.new.capacity ≡ self.old.capacity) × (self.new.longest ≡ self.old.longest) }
    {
        self.make_room();
        self.add(message);
    }

    /// Frees the oldest message if the cache is full.
    #[tactic(auto, using(rlsf::specs::Live::live_first, rlsf::specs::Live::live_rest, rlsf::specs::Live::payloads_len, rlsf::specs::Live::payloads_rest))]
    fn make_room(&mut self)
        ensures room { length self.new.payloads < self.new.capacity }
        ensures payloads { let old = self.old in self.new.payloads ≡ (if nat_eq (length old.payloads) old.capacity then drop 1 old.payloads else old.payloads) }
        ensures bounds { (self.new.capacity ≡ self.old.capacity) × (self.new.longest ≡ self.old.longest) }
    {
        if self.addrs.len() == self.addrs.capacity() {
            let oldest = self.addrs.pop_front().unwrap();
            self.pool.deallocate(oldest, self.layout.align());
        }
    }

    /// Puts one more message behind the others, where there is room.
    #[tactic(auto, using(rlsf::specs::Live::live_more, rlsf::specs::Live::live_kept, rlsf::specs::Live::payloads_len, rlsf::specs::Live::payloads_more))]
    fn add(&mut self, message: &[u8])
        requires room { length self.old.payloads < self.old.capacity }
        requires short { length message.now ≤ self.old.longest }
        ensures behind { AddsPayload self.old.payloads message.now self.new.payloads }
        ensures bounds { (self.new.capacity ≡ self.old.capacity) × (self.new.longest ≡ self.old.longest) }
    {
        let addr = self.pool.allocate(self.layout).unwrap();
        write_front(self.pool.payload_mut(addr), message);
        self.addrs.push_back_reserved(addr);
    }
}
