//! A pool of objects that own their bytes: as many are out as the capacity, and not one more.

ghost use Rattle.std.specs.Prelude.{◌≡◌, IfSome};
ghost use Rattle.rlsf_heap.specs.Heap.{IsWritten};

use crate::pools::all;
use rlsf::Layout;
use rlsf_example_libraries::OwnedObjects;
use rlsf_heap::Payload;
use std::alloc::Global;

/// Whether each byte of an object is this one.
fn are(object: &Payload, byte: u8) -> bool
    requires { IsWritten object.now }
{
    object.as_slice().iter().all(|found| *found == byte)
}

/// Takes an object, and makes each of its bytes this one.
fn filled(pool: &mut OwnedObjects, byte: u8) -> Option<Payload>
    ensures object { IfSome result (λ object. (object.identity ≡ pool.new.identity) × IsWritten object) }
    ensures identity { pool.new.identity ≡ pool.old.identity }
{
    let mut object = pool.take()?;
    object.as_mut_slice().fill(byte);
    Some(object)
}

/// Exchanges an object for another one. Returns that, and whether it is long enough and each of its bytes is 0.
fn taken_anew(pool: &mut OwnedObjects, object: Payload) -> Option<(Payload, bool)>
    requires { object.identity ≡ pool.old.identity }
    ensures object { IfSome result (λ r. r.0.identity ≡ pool.new.identity) }
    ensures identity { pool.new.identity ≡ pool.old.identity }
{
    pool.give_back(object);
    let again = pool.take()?;
    // Of 100 bytes, with 16 more, an object takes a block of 128.
    let is_right = are(&again, 0) && again.len() == 112;
    Some((again, is_right))
}

/// Exchanges the second of three objects of a pool that has no more, and returns all to it. Returns whether all goes as it should.
fn exchanged_of(
    pool: &mut OwnedObjects,
    first: Payload,
    second: Payload,
    third: Payload,
) -> Option<bool>
    requires first { (first.identity ≡ pool.old.identity) × IsWritten first }
    requires second { (second.identity ≡ pool.old.identity) × IsWritten second }
    requires third { (third.identity ≡ pool.old.identity) × IsWritten third }
{
    let full = pool.take().is_none() && pool.len() == 3;
    let kept = are(&first, 1) && are(&second, 2) && are(&third, 3);
    let (again, is_new) = taken_anew(pool, second)?;
    pool.give_back(first);
    pool.give_back(third);
    pool.give_back(again);
    Some(full && kept && is_new && pool.len() == 0)
}

/// Takes three objects of a pool that has no more, writes all, and exchanges one. Returns whether all goes as it should.
fn exchanged(pool: &mut OwnedObjects) -> Option<bool> {
    let first = filled(pool, 1)?;
    let second = filled(pool, 2)?;
    let third = filled(pool, 3)?;
    exchanged_of(pool, first, second, third)
}

/// A pool for so many objects of 100 bytes. `None` if the system is out of memory.
fn pool_of(alloc: Global, capacity: usize) -> Option<OwnedObjects> {
    let layout = Layout::from_size_align_unchecked(100, 8);
    OwnedObjects::new(alloc, layout, capacity).ok()
}

/// Whether a pool for three objects is empty at first, and all goes as it should two times.
fn is_exchanged_twice(pool: &mut OwnedObjects) -> Option<bool> {
    let is_new = pool.capacity() == 3 && pool.len() == 0;
    let first = exchanged(pool)?;
    let second = exchanged(pool)?;
    Some(is_new && first && second)
}

/// As above, for a new pool. `None` also if the system is out of memory.
fn exchanged_twice(alloc: Global) -> Option<bool> {
    let mut pool = pool_of(alloc, 3)?;
    is_exchanged_twice(&mut pool)
}

/// Whether a pool for no objects refuses one.
fn refuses(alloc: Global) -> Option<bool> {
    let mut pool = pool_of(alloc, 0)?;
    Some(pool.take().is_none())
}

#[test]
fn as_many_are_out_as_the_capacity(rt: HostRuntime) {
    let answers = [
        exchanged_twice(rt.alloc()) == Some(true),
        refuses(rt.alloc()) == Some(true),
        // Too many objects for any memory.
        pool_of(rt.alloc(), usize::MAX).is_none(),
    ];
    all(&rt, &answers);
}
