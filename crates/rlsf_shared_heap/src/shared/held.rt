//! The value under a lock. It keeps the identity by which its lock is known.
ghost use Rattle.std.specs.Prelude.{◌≡◌};
ghost use Rattle.rlsf_heap.specs.Heap.{Identity};

use rlsf_heap::Heap;
use rlsf_int::BitPattern;
use std::marker::{Brand, Model, PhantomData};

/// A value with an identity. No call changes it.
pub(crate) trait Identified {
    ghost identity: { Self → Identity };
}

impl<FLBitmap: BitPattern, SLBitmap: BitPattern, const FLLEN: usize, const SLLEN: usize> Identified
    for Heap<FLBitmap, SLBitmap, FLLEN, SLLEN> {
    ghost identity = { λ h. h.identity };
}

/// The identity by which a lock is known. A proof chooses it at each call that passes `Brand`.
pub(crate) trait Named {
    ghost name: { Identity };
}

impl Named for Brand {
    ghost use Rattle.rlsf_shared_heap.specs.Nameless.{nameless};

    ghost name = { nameless };
}

/// A value under a lock. The lock is known by the identity of `Name`.
pub(crate) struct Held<T: Identified, Name: Named> {
    pub(crate) value: T,
    name: PhantomData<Name>,
}

impl<T: Identified, Name: Named> Model for Held<T, Name> {
    ghost Value = { T };

    ghost view = { λ h. h.value };

    ghost invariant = { λ h. T.identity h.value ≡ Name.name };

    ghost inverse = { λ value. record { value = value; name = record {} } };
}

impl<T: Identified, Name: Named> Held<T, Name> {
    /// Returns the value, ready for its lock.
    pub(crate) fn new(value: T) -> Held<T, Name>
        requires { T.identity value ≡ Name.name }
        ensures { result ≡ value }
    {
        Held {
            value,
            name: PhantomData,
        }
    }

    /// Consumes the holder, and returns its value.
    pub(crate) fn into_inner(self) -> T
        ensures { T.identity result ≡ Name.name }
    {
        let Held { value, name: _ } = self;
        value
    }
}
