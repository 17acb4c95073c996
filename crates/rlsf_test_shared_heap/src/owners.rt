//! A heap whose thread never waits: what it deallocates, how many payloads it lends, and that it goes on while another thread has the
//! list of those that came back.
ghost use Rattle.std.specs.Prelude.{◌≡◌, IfSome};

use crate::answers::{all, are};
use crate::queue::nap;
use crate::shared_rows::{Shared, is_whole, shared_heap};
use rlsf_base::memory::Layout;
use rlsf_shared_heap::{OwnerHeap, Returns, SharedPayload};
use std::sync::Wait;
use std::sync::atomic::{AtomicU64, Ordering};
use std::test::Fail;
use std::thread::{Threads, join};

/// A heap of one thread.
pub(crate) type Owner<'r> = OwnerHeap<'r, u16, u16, 12, 16>;

/// A payload that it lent.
pub(crate) type Lent<'r> = SharedPayload<'r, Returns>;

/// Lends a payload.
fn lend<'r>(owner: &mut Owner<'r>, size: usize) -> Option<Lent<'r>>
    ensures heap { owner.new.heap.identity ≡ owner.old.heap.identity }
    ensures own { IfSome result (λ p. p.identity ≡ owner.old.heap.identity) }
{
    owner.allocate_lent(Layout::from_size_align(size, 16).ok()?)
}

/// Allocates a payload that isn't lent, and deallocates it. Returns its address, or 0.
fn allocate(owner: &mut Owner<'_>, size: usize) -> usize
    ensures { owner.new.heap.identity ≡ owner.old.heap.identity }
{
    let Ok(layout) = Layout::from_size_align(size, 16) else {
        return 0;
    };
    let Some(mut payload) = owner.allocate(layout) else {
        return 0;
    };
    payload.fill(3);
    let addr = payload.addr();
    owner.deallocate(payload);
    addr
}

/// Lends as many payloads as it can, up to nine, and frees all of them. Returns how many.
fn lend_and_free<R: Wait>(rt: &R, owner: &mut Owner<'_>) -> usize {
    let payloads = [
        lend(owner, 100),
        lend(owner, 100),
        lend(owner, 100),
        lend(owner, 100),
        lend(owner, 100),
        lend(owner, 100),
        lend(owner, 100),
        lend(owner, 100),
        lend(owner, 100),
    ];
    let count = payloads.iter().flatten().count();
    for payload in payloads.into_iter().flatten() {
        payload.free(rt);
    }
    count
}

/// Deallocates payloads that came back, by allocations of both kinds and by itself. Returns what each call returns, and how many are lent
/// behind it.
fn collect_all<'r>(owner: &mut Owner<'r>) -> Option<[usize; 10]> {
    let before = owner.lent();
    let addr = allocate(owner, 100);
    let two_less = owner.lent();
    let last = lend(owner, 100)?;
    let last_addr = last.addr();
    let one_less = owner.lent();
    let one = owner.collect(1);
    let rest = owner.collect(9);
    let only_last = owner.lent();
    owner.take_back(last);
    let none = allocate(owner, 100);
    Some([
        before,
        addr,
        two_less,
        last_addr,
        one_less,
        one,
        rest,
        only_last,
        owner.lent(),
        none,
    ])
}

/// Whether the heap of an owner that has lent nothing has its one free block.
fn is_idle(owner: Owner<'_>) -> bool {
    match owner.try_into_heap() {
        Ok(heap) => is_whole(Shared::new(heap)),
        Err(_) => false,
    }
}

// The payload that came back last is deallocated first, and each block has 128 bytes.
#[test]
fn an_allocation_deallocates_two_that_came_back(rt: HostRuntime) -> Result<(), Fail> {
    let heap = shared_heap(rt.alloc())?.into_inner();
    let mut returns = Returns::new(rt.alloc(), &heap, 7)?;
    are(&rt, &[returns.room()], &[7]);
    let mut owner = OwnerHeap::new(heap, &mut returns);
    are(&rt, &[lend_and_free(&rt, &mut owner)], &[7]);
    let found = collect_all(&mut owner).unwrap_or([0; 10]);
    let expected = [7, 66192, 5, 65936, 4, 1, 2, 1, 0, 65552];
    are(&rt, &found, &expected);
    all(&rt, &[is_idle(owner)]);
    Ok(())
}

/// Lends nearly all of the heap, and gets it back. Returns the addresses of payloads as long as that, lent or not: of one while the first
/// one is out, and of those behind that.
fn most_at_once<R: Wait>(rt: &R, owner: &mut Owner<'_>) -> Option<[usize; 4]> {
    let first = lend(owner, 126_000)?;
    let out = allocate(owner, 126_000);
    first.free(rt);
    let own = allocate(owner, 126_000);
    let second = lend(owner, 126_000)?;
    second.free(rt);
    let third = lend(owner, 126_000)?;
    let addr = third.addr();
    owner.take_back(third);
    Some([out, own, addr, owner.lent()])
}

// The heap has no room but that of the payload that came back.
#[test]
fn an_allocation_gets_what_came_back(rt: HostRuntime) -> Result<(), Fail> {
    let heap = shared_heap(rt.alloc())?.into_inner();
    let mut returns = Returns::new(rt.alloc(), &heap, 2)?;
    let mut owner = OwnerHeap::new(heap, &mut returns);
    let found = most_at_once(&rt, &mut owner).unwrap_or([1; 4]);
    are(&rt, &found, &[0, 65552, 65552, 0]);
    all(&rt, &[is_idle(owner)]);
    Ok(())
}

/// Lends a payload that was allocated as its own. Deallocates it if that is refused. Returns whether it is.
fn is_lending_refused<R: Wait>(rt: &R, owner: &mut Owner<'_>) -> bool
    ensures { owner.new.heap.identity ≡ owner.old.heap.identity }
{
    let Some(mut payload) = owner.allocate(Layout::from_size_align_unchecked(33, 64)) else {
        return false;
    };
    payload.fill(3);
    match owner.lend(payload) {
        Ok(lent) => {
            lent.free(rt);
            false
        }
        Err(payload) => {
            owner.deallocate(payload);
            true
        }
    }
}

/// Lends until the list has no more room. Returns what is refused, and how many are lent.
fn fill_list<R: Wait>(rt: &R, owner: &mut Owner<'_>) -> Option<[usize; 6]> {
    let first = lend(owner, 100)?;
    let second = lend(owner, 1001)?;
    let third = lend(owner, 100).is_none() as usize;
    let own = is_lending_refused(rt, owner) as usize;
    let full = owner.lent();
    owner.take_back(second);
    let one = owner.lent();
    let again = is_lending_refused(rt, owner) as usize;
    first.free(rt);
    Some([third, own, full, one, again, owner.lent()])
}

/// Returns an owner while it has lent a payload.
fn is_refused_while_lent<'r>(owner: Owner<'r>) -> Option<Owner<'r>> {
    match owner.try_into_heap() {
        Ok(_) => None,
        Err(owner) => Some(owner),
    }
}

#[test]
fn as_many_are_lent_as_the_list_has_room_for(rt: HostRuntime) -> Result<(), Fail> {
    let heap = shared_heap(rt.alloc())?.into_inner();
    let mut returns = Returns::new(rt.alloc(), &heap, 2)?;
    let mut owner = OwnerHeap::new(heap, &mut returns);
    let found = fill_list(&rt, &mut owner).unwrap_or([9; 6]);
    are(&rt, &found, &[1, 1, 2, 1, 0, 2]);
    let Some(mut owner) = is_refused_while_lent(owner) else {
        return Err(Fail::new("the heap of lent payloads"));
    };
    let left = owner.collect(1);
    are(&rt, &[left, owner.collect(2), owner.collect(1)], &[1, 1, 0]);
    all(&rt, &[is_idle(owner)]);
    Ok(())
}

#[test]
fn no_payload_is_lent_without_a_list(rt: HostRuntime) -> Result<(), Fail> {
    let heap = shared_heap(rt.alloc())?.into_inner();
    let mut returns = Returns::new(rt.alloc(), &heap, 0)?;
    let mut owner = OwnerHeap::new(heap, &mut returns);
    let is_lent = lend(&mut owner, 0).is_some();
    let refused = is_lending_refused(&rt, &mut owner);
    all(&rt, &[!is_lent, refused, owner.lent() == 0, is_idle(owner)]);
    Ok(())
}

/// How often the owner allocates and deallocates while another thread has its list.
const ROUNDS: usize = 10_000;

/// Allocates and deallocates, until a payload lies at another address than `addr`. Returns how often it went.
fn rounds(owner: &mut Owner<'_>, addr: usize) -> usize {
    for n in 0..ROUNDS {
        if allocate(owner, 1 + n % 1000) != addr {
            return n;
        }
    }
    ROUNDS
}

/// Whether the one thread has the list, and whether the other one is done: 1 if so.
#[derive(Drop)]
struct Signs {
    held: AtomicU64,
    done: AtomicU64,
}

/// Waits until a sign isn't 0.
fn wait_for<R: Wait>(rt: &R, sign: &AtomicU64) {
    for _ in rt.forever() {
        if sign.load(Ordering::SeqCst) != 0 {
            return;
        }
        nap(rt);
    }
    unreachable!()
}

/// Has the list until the owner is done. Returns whether it had it.
fn hold<'r, R: Wait>(rt: &R, payload: &Lent<'r>, signs: &Signs) -> bool {
    let held = payload.while_returns_are_held(|| {
        signs.held.store(1, Ordering::SeqCst);
        wait_for(rt, &signs.done);
    });
    signs.held.store(1, Ordering::SeqCst);
    held.is_some()
}

/// The owner's calls while another thread has the list. Returns how often it allocated, how many that came back it deallocated, and how
/// many are lent.
fn go_on<R: Wait>(rt: &R, owner: &mut Owner<'_>, signs: &Signs) -> [usize; 3] {
    wait_for(rt, &signs.held);
    let rounds = rounds(owner, 65808);
    let collected = owner.collect(9);
    let found = [rounds, collected, owner.lent()];
    signs.done.store(1, Ordering::SeqCst);
    found
}

/// Lends two payloads, gets one of them back, and has the list held by another thread. Returns 1 if that thread had it, what `go_on`
/// returns, and how many come back at the end.
fn beside_a_holder<R: Threads + Wait + Sync>(rt: &R, owner: &mut Owner<'_>) -> Option<[usize; 5]> {
    let held = lend(owner, 100)?;
    let back = lend(owner, 100)?;
    back.free(rt);
    let signs = Signs {
        held: AtomicU64::new(0),
        done: AtomicU64::new(0),
    };
    let (was_held, [rounds, collected, lent]) = join(
        rt,
        || hold(rt, &held, &signs),
        || go_on(rt, owner, &signs),
    );
    held.free(rt);
    Some([was_held as usize, rounds, collected, lent, owner.collect(9)])
}

// Two blocks of 128 bytes are lent from 65536 on, so those of the owner begin at 65792.
#[test]
fn an_owner_goes_on_while_another_thread_has_its_list(rt: HostRuntime) -> Result<(), Fail> {
    let heap = shared_heap(rt.alloc())?.into_inner();
    let mut returns = Returns::new(rt.alloc(), &heap, 2)?;
    let mut owner = OwnerHeap::new(heap, &mut returns);
    let found = beside_a_holder(&rt, &mut owner).unwrap_or([9; 5]);
    are(&rt, &found, &[1, ROUNDS, 0, 2, 2]);
    all(&rt, &[is_idle(owner)]);
    Ok(())
}
