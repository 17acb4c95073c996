//! A lock that is known by the identity of its value.
ghost use Rattle.std.specs.Prelude.{◌≡◌};
ghost use Rattle.std.specs.Mem.{manually_drop_value};
ghost use Rattle.rlsf_heap.specs.Heap.{Identity};
ghost use Rattle.rlsf_shared_heap.specs.Locks.{lock_owns, lock_shares};

use crate::shared::held::{Held, Identified, Named};
use std::marker::{Brand, Move, Owns, Send, Sync};
use std::mem::ManuallyDrop;
use std::sync::Mutex;

/// A mutex whose value keeps its identity. Contracts see it as that identity.
///
/// Of the value under a `Mutex` only the invariant of its type is known, and no type can name an identity. So each call reads
/// the lock as a mutex of a type whose parameter `Name` represents the identity.
pub(crate) struct Lock<T: Identified> {
    mutex: Mutex<Held<T, Brand>>,
}

impl<T: Identified> Owns for Lock<T> {
    ghost Value = { Identity };

    ghost shr_at = { λ i. lock_shares T.row T.identity i };
}

impl<T: Identified> Move for Lock<T> {
    ghost own_val = { λ i. lock_owns T.row T.identity i };
}

impl<T: Identified + Drop> Drop for Lock<T> {
    fn drop(self) {
        drop(self.into_inner());
    }
}

unsafe impl<T: Identified + Send> Send for Lock<T> {}

unsafe impl<T: Identified + Send> Sync for Lock<T> {}

/// Returns the mutex, whose values have the lock's identity.
pub(crate) fn open<T: Identified, Name: Named>(
    lock: &Lock<T>,
) -> &ManuallyDrop<Mutex<Held<T, Name>>>
    requires { lock.now ≡ Name.name }
{
    unsafe { &*(lock as *const Lock<T> as *const ManuallyDrop<Mutex<Held<T, Name>>>) }
}

/// Makes a lock of a mutex whose values have one identity.
fn close<T: Identified, Name: Named>(mutex: ManuallyDrop<Mutex<Held<T, Name>>>) -> Lock<T>
    ensures { result ≡ Name.name }
{
    let place = &raw const mutex as *const Lock<T>;
    unsafe { place.read() }
}

/// Consumes the lock, and returns its mutex.
fn reopen<T: Identified, Name: Named>(
    lock: ManuallyDrop<Lock<T>>,
) -> ManuallyDrop<ManuallyDrop<Mutex<Held<T, Name>>>>
    requires { manually_drop_value lock ≡ Name.name }
{
    let place = &raw const lock as *const ManuallyDrop<ManuallyDrop<Mutex<Held<T, Name>>>>;
    unsafe { place.read() }
}

/// Returns a lock round a value that has the identity of `Name`.
fn lock_named<T: Identified, Name: Named>(value: T) -> Lock<T>
    requires { T.identity value ≡ Name.name }
    ensures { result ≡ Name.name }
{
    close::<T, Name>(unsafe { ManuallyDrop::new_unchecked(Mutex::new(Held::new(value))) })
}

/// Consumes a lock that has the identity of `Name`, and returns its value.
fn unlock_named<T: Identified, Name: Named>(lock: Lock<T>) -> T
    requires { lock ≡ Name.name }
    ensures { T.identity result ≡ Name.name }
{
    let mutex = reopen::<T, Name>(unsafe { ManuallyDrop::new_unchecked(lock) });
    ManuallyDrop::into_inner(ManuallyDrop::into_inner(mutex))
        .into_inner()
        .into_inner()
}

impl<T: Identified> Lock<T> {
    /// Returns a lock round a value.
    pub(crate) fn new(value: T) -> Lock<T>
        ensures { result ≡ T.identity value }
    {
        lock_named::<T, Brand>(value)
    }

    /// Consumes the lock, and returns its value.
    pub(crate) fn into_inner(self) -> T
        ensures { T.identity result ≡ self }
    {
        unlock_named::<T, Brand>(self)
    }
}
