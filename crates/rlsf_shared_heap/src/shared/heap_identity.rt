//! HeapIdentity heap a list of payloads belongs to, as ghost data: it takes no bytes and no time.
ghost use Rattle.std.specs.Prelude.{◌≡◌};
ghost use Rattle.std.specs.Borrow.{ftrue};
ghost use Rattle.rlsf_heap.specs.Heap.{Identity};

use crate::shared::held::{Identified, Named};
use std::marker::{Brand, Model, Send, Sync};

/// The identity of a heap.
#[derive(Drop)]
pub(crate) struct HeapIdentity {
    pub(crate) ghost identity: { Identity },
}

impl Model for HeapIdentity {
    ghost also_owns = { λ _. ftrue };
}

unsafe impl Send for HeapIdentity {}

unsafe impl Sync for HeapIdentity {}

impl HeapIdentity {
    /// Returns the identity of `heap`.
    pub(crate) fn of<T: Identified>(heap: &T) -> HeapIdentity
        ensures { result.identity ≡ T.identity heap.now }
    {
        named::<T, Brand>(heap)
    }

    // Returns an identity, which the caller's proof chooses.
    fn new() -> HeapIdentity
        ghost of: { Identity }
        ensures { result.identity ≡ of }
    {
        HeapIdentity {}
    }
}

/// Returns the identity of `heap`, which is `Name`'s.
fn named<T: Identified, Name: Named>(heap: &T) -> HeapIdentity
    requires { T.identity heap.now ≡ Name.name }
    ensures { result.identity ≡ Name.name }
{
    let _ = heap;
    HeapIdentity::new()
}
