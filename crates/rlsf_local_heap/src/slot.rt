//! A cell that holds a value, or nothing while the value is in use.
ghost use Rattle.std.specs.Prelude.{◌≡◌, IfSome};
ghost use base.Fml.{fex, fsep, ftrue};
ghost use Rattle.rlsf_local_heap.specs.Constants.{Constants};
ghost use Rattle.rlsf_local_heap.specs.Ownership.{behind_a_ref};

use std::marker::{Move, Owns};

/// A heap that can be put into a slot: which heap it is, and its chunks, don't change there.
pub trait Identified {
    ghost constants: { Self → Constants };
}

/// A place for one value, which is replaced through a `&`. It stays the place of that value: what is put there has the
/// constants of what was there first.
pub struct Slot<T: Identified> {
    value: Option<T>,
}

impl<T: Identified> Owns for Slot<T> {
    ghost Value = { Constants };

    ghost shr_at = { λ r. behind_a_ref Fields (λ i. fex (IfSome i.value (λ x. T.constants x ≡ r)) (λ _. ftrue)) };
}

impl<T: Identified> Move for Slot<T> {
    ghost own_val = { λ r vs. fex Inside (λ i. fsep (Fields.own_val i vs) (fex (IfSome i.value (λ x. T.constants x ≡ r)) (λ _. ftrue))) };
}

impl<T: Identified> Slot<T> {
    /// Creates a slot that holds `value`.
    ///
    /// Takes constant time: the value is moved.
    pub fn new(value: T) -> Slot<T>
        ensures { result ≡ T.constants value }
    {
        Slot { value: Some(value) }
    }

    /// Puts `value` into the slot, and returns what was there.
    ///
    /// Takes constant time: the value is moved.
    pub fn replace(&self, value: Option<T>) -> Option<T>
        requires { IfSome value (λ x. T.constants x ≡ self.now) }
        ensures { IfSome result (λ x. T.constants x ≡ self.now) }
    {
        let place = &raw const self.value as *mut Option<T>;
        unsafe {
            let old = place.read();
            place.write(value);
            old
        }
    }

    /// Consumes the slot, and returns what is there.
    ///
    /// Takes constant time: the value is moved.
    pub fn into_inner(self) -> Option<T>
        ensures { IfSome result (λ x. T.constants x ≡ self) }
    {
        let Slot { value } = self;
        value
    }
}
