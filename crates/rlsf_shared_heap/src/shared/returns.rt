//! The payloads that other threads returned to the owner of a heap, in a list under a lock.
ghost use Rattle.std.specs.Prelude.{◌≡◌, [], IfErr, IfOk, IfSome};
ghost use Rattle.rlsf_heap.specs.Heap.{IsWritten};
ghost use Rattle.rlsf_shared_heap.specs.SharedReallocation.{IsReallocation};

use crate::shared::heap_identity::HeapIdentity;
use crate::shared::held::{Held, Identified, Named};
use crate::shared::lock::{Lock, open};
use crate::shared::payload::{SharedPayload, ThreadHeap};
use rlsf_heap::{Heap, Payload};
use rlsf_int::BitPattern;
use std::alloc::{AllocError, Global};
use std::marker::{Brand, Model};
use std::sync::Wait;
use std::thread;

/// Payloads of one heap. Contracts see it as the identity of that heap.
#[derive(Drop)]
pub(crate) struct PayloadList {
    payloads: Vec<Payload>,
    heap: HeapIdentity,
}

impl Model for PayloadList {
    ghost use Rattle.std.specs.Prelude.{◌≡◌, All};
    ghost use Rattle.rlsf_heap.specs.Heap.{Identity, IsWritten};

    ghost Value = { Identity };

    ghost view = { λ p. p.heap.identity };

    ghost invariant = { λ p. All (λ x. (x.identity ≡ p.heap.identity) × IsWritten x) p.payloads.items };
}

impl Identified for PayloadList {
    ghost identity = { λ p. p };
}

impl PayloadList {
    /// Returns a list of no payloads of `heap`.
    fn new(heap: HeapIdentity, payloads: Vec<Payload>) -> PayloadList
        requires { payloads.items ≡ [] }
        ensures { result ≡ heap.identity }
    {
        PayloadList { payloads, heap }
    }

    /// Adds a payload, or returns it if there is no room for it.
    fn put(&mut self, payload: Payload) -> Result<(), Payload>
        requires identity { payload.identity ≡ self.old }
        requires written { IsWritten payload }
        ensures same { self.new ≡ self.old }
        ensures back { IfErr result (λ p. (p.identity ≡ self.old) × IsWritten p) }
    {
        if self.payloads.len() == self.payloads.capacity() {
            return Err(payload);
        }
        self.payloads.push_reserved(payload);
        Ok(())
    }

    /// Removes the payload that was added last, if there is one.
    fn take(&mut self) -> Option<Payload>
        ensures same { self.new ≡ self.old }
        ensures payload { IfSome result (λ p. (p.identity ≡ self.old) × IsWritten p) }
    {
        self.payloads.pop()
    }
}

impl<Name: Named> Held<PayloadList, Name> {
    fn put(&mut self, payload: Payload) -> Result<(), Payload>
        requires identity { payload.identity ≡ Name.name }
        requires written { IsWritten payload }
        ensures { IfErr result (λ p. (p.identity ≡ Name.name) × IsWritten p) }
    {
        self.value.put(payload)
    }

    fn take(&mut self) -> Option<Payload>
        ensures { IfSome result (λ p. (p.identity ≡ Name.name) × IsWritten p) }
    {
        self.value.take()
    }
}

/// Adds a payload to the list behind the lock, whose identity is `Name`'s. Returns it if another thread has the lock, or if there is no
/// room for it.
fn put<Name: Named>(lock: &Lock<PayloadList>, payload: Payload) -> Result<(), Payload>
    requires lock { lock.now ≡ Name.name }
    requires identity { payload.identity ≡ Name.name }
    requires written { IsWritten payload }
    ensures { IfErr result (λ p. (p.identity ≡ Name.name) × IsWritten p) }
{
    let mutex = open::<PayloadList, Name>(lock);
    match mutex.try_lock() {
        Some(mut list) => list.put(payload),
        None => Err(payload),
    }
}

/// Removes a payload from the list behind the lock, whose identity is `Name`'s, if there is one and no other thread has the lock.
fn take<Name: Named>(lock: &Lock<PayloadList>) -> Option<Payload>
    requires { lock.now ≡ Name.name }
    ensures { IfSome result (λ p. (p.identity ≡ Name.name) × IsWritten p) }
{
    let mutex = open::<PayloadList, Name>(lock);
    let mut list = mutex.try_lock()?;
    list.take()
}

/// Calls `f` while this thread has the lock, whose identity is `Name`'s. Returns `None` if another thread has it.
fn while_held<Name: Named, T, F: FnOnce() -> T>(lock: &Lock<PayloadList>, f: F) -> Option<T>
    requires lock { lock.now ≡ Name.name }
    requires call { F.pre f }
    ensures { IfSome result (λ value. F.post f value) }
{
    let mutex = open::<PayloadList, Name>(lock);
    let list = mutex.try_lock()?;
    let value = f();
    drop(list);
    Some(value)
}

/// The lent payloads of an `OwnerHeap` that other threads returned, in a list. The owner deallocates them later.
///
/// The list has room for as many payloads as may be lent at once, so that returning one never asks the system for memory. No thread
/// sleeps on its lock: one that finds it taken yields its processor and tries again. So the owner wakes no thread when it leaves the lock.
#[derive(Drop)]
pub struct Returns {
    lock: Lock<PayloadList>,
    room: usize,
}

impl Model for Returns {
    ghost use Rattle.rlsf_shared_heap.specs.Owners.{ReturnsView};

    ghost Value = { ReturnsView };

    ghost view = { λ r. record { identity = r.lock; room = r.room } };
}

impl Returns {
    /// Creates a list for payloads of `heap`, of which at most `room` can be lent at once.
    ///
    /// Returns an error if the system has no memory for it.
    ///
    /// Asks the system for that many places, and never again.
    ///
    /// From `crates/rlsf_example_real_time/src/main.rt`:
    ///
    /// ```
    /// let mut returns = Returns::new(alloc, &heap, LENT).ok()?;
    /// let mut owner = OwnerHeap::new(heap, &mut returns);
    /// ```
    pub fn new<FLBitmap: BitPattern, SLBitmap: BitPattern, const FLLEN: usize, const SLLEN: usize>(
        alloc: Global,
        heap: &Heap<FLBitmap, SLBitmap, FLLEN, SLLEN>,
        room: usize,
    ) -> Result<Self, AllocError>
        ensures identity { IfOk result (λ r. r.identity ≡ heap.now.identity) }
        ensures room { IfOk result (λ r. r.room ≡ room) }
    {
        let payloads = Vec::with_capacity(alloc, room)?;
        Ok(Returns {
            lock: Lock::new(PayloadList::new(HeapIdentity::of(heap), payloads)),
            room,
        })
    }

    /// Returns how many payloads can be lent at once.
    ///
    /// Completes in constant time. It takes no lock.
    pub fn room(&self) -> usize
        ensures { result ≡ self.now.room }
    {
        self.room
    }

    // Adds a payload, or returns it if another thread has the lock, or if there is no room for it.
    fn try_put(&self, payload: Payload) -> Result<(), Payload>
        requires identity { payload.identity ≡ self.now.identity }
        requires written { IsWritten payload }
        ensures { IfErr result (λ p. (p.identity ≡ self.now.identity) × IsWritten p) }
    {
        put::<Brand>(&self.lock, payload)
    }

    // Adds a payload. Tries again while another thread has the lock, and would while there is no room, so no payload is lost.
    fn put<R: Wait>(&self, rt: &R, payload: Payload)
        requires identity { payload.identity ≡ self.now.identity }
        requires written { IsWritten payload }
    {
        let mut left = payload;
        for _ in rt.forever() {
            match self.try_put(left) {
                Ok(()) => return,
                Err(back) => left = back,
            }
            thread::yield_now();
        }
        unreachable!()
    }

    // Removes a payload, if there is one and no other thread has the lock.
    pub(crate) fn take(&self) -> Option<Payload>
        ensures { IfSome result (λ p. (p.identity ≡ self.now.identity) × IsWritten p) }
    {
        take::<Brand>(&self.lock)
    }

    // Calls `f` while this thread has the lock.
    fn while_held<T, F: FnOnce() -> T>(&self, f: F) -> Option<T>
        requires { F.pre f }
        ensures { IfSome result (λ value. F.post f value) }
    {
        while_held::<Brand, T, F>(&self.lock, f)
    }
}

impl ThreadHeap for Returns {
    ghost identity = { λ r. r.identity };

    /// Returns a payload to the owner, which deallocates it later.
    fn deallocate<R: Wait>(&self, rt: &R, payload: Payload) {
        self.put(rt, payload)
    }

    /// Returns the payload as the error: only the owner changes the size of a payload.
    fn reallocate<R: Wait>(
        &self,
        rt: &R,
        payload: Payload,
        size: usize,
    ) -> Result<Payload, Payload> {
        let _ = rt;
        let _ = size;
        Err(payload)
    }
}

impl<'h> SharedPayload<'h, Returns> {
    /// Calls `f` while this thread has the lock under which the payload is returned. Returns `None` if another thread has it.
    ///
    /// It is for tests: meanwhile the owner is as beside a thread that the system stopped while it returned a payload.
    pub fn while_returns_are_held<T, F: FnOnce() -> T>(&self, f: F) -> Option<T>
        requires { F.pre f }
        ensures { IfSome result (λ value. F.post f value) }
    {
        self.heap().while_held(f)
    }
}

// Takes only values that are `Send` and `Sync`.
fn crosses<T: Send + Sync>(value: T) -> T {
    value
}

// That this call is proved shows that the list is `Send` and `Sync`.
fn crossed(returns: Returns) -> Returns {
    crosses(returns)
}
