//! The block of a memory: its address, the owner of its bytes, and the right to deallocate it.
ghost use Rattle.std.specs.Prelude.{◌≡◌, ℕ, ◌+◌, ◌-◌, ◌*◌, ◌^◌, ◌<◌, ◌≤◌, eqb, if◌then◌else◌, List, [], ◌∷◌, length, IfSome};
ghost use Rattle.std.specs.Borrow.{sem};
ghost use base.Fml.{ftrue};
ghost use denote.RawPtr.{Ptr, null_ptr, ◌+ₚ◌};
ghost use Rattle.rlsf_base.specs.Out.{Change, kept_at};
ghost use Rattle.rlsf_base.specs.Changes.{AreBytesHere, IsOwn, came_raw, left};
ghost use Rattle.rlsf_base.specs.Steps.Ownership.{IsInBlock, bytes_at_pointer, bytes_own, bytes_lent, deed_owns, lent_at, room_at, units_for, units_from, units_own};

use std::alloc::Allocator;
use std::marker::{Model, PhantomData, Send, Sync};
use std::slice;

/// The place at which the block begins. It owns nothing.
#[derive(Clone, Copy)]
pub(crate) struct Base {
    pub(crate) ptr: *mut u8,
}

unsafe impl Send for Base {}

unsafe impl Sync for Base {}

/// The owner of the block's bytes from its place `skip` on. It takes no space: the memory holds the pointer and the
/// length.
pub(crate) struct Bytes {
    pub(crate) mark: PhantomData<*const u8>,
    ghost at: { Ptr },
    ghost skip: { ℕ },
    ghost bytes: { List ℕ },
    ghost out: { List Change },
    // Of bytes that were taken out: where the owner's begin from which they were taken, and how many it has.
    ghost of: { ℕ × ℕ },
    // The number of the block's units of 16 bytes: none where the block isn't aligned to 16.
    ghost units: { ℕ },
}

impl Model for Bytes {
    ghost also_owns = { λ b. bytes_own b.at b.skip b.bytes b.out b.units };

    ghost also_shares = { λ b _ κ. bytes_lent b.at b.skip b.bytes b.out κ };
}

unsafe impl Send for Bytes {}

unsafe impl Sync for Bytes {}

/// Room for `count` units of 16 bytes of the block, aligned to 16, from its unit `first` on. It takes no space.
pub(crate) struct Units {
    pub(crate) mark: PhantomData<*const u8>,
    ghost at: { Ptr },
    ghost first: { ℕ },
    ghost count: { ℕ },
    // Where the bytes of their memory begin, and how many it has.
    ghost of: { ℕ × ℕ },
}

impl Model for Units {
    ghost also_owns = { λ u. units_own u.at u.first u.count };
}

unsafe impl Send for Units {}

/// The right to deallocate, with `alloc`, the block of `units` units of 16 bytes at `at`, for the `len` bytes from `skip` on. It
/// takes no space.
pub(crate) struct Deed<A: Allocator> {
    mark: PhantomData<*const A>,
    ghost at: { Ptr },
    ghost units: { ℕ },
    ghost skip: { ℕ },
    ghost len: { ℕ },
    ghost alloc: { A },
}

impl<A: Allocator> Model for Deed<A> {
    ghost also_owns = { λ d. deed_owns (A.dealloc_token d.alloc) d.at d.units d.skip d.len };

    ghost also_shares = { λ _ _ _. ftrue };
}

unsafe impl<A: Allocator + Send> Send for Deed<A> {}

// A `&` to it holds nothing.
unsafe impl<A: Allocator> Sync for Deed<A> {}

/// Allocates a block of `units` units of 16 bytes, aligned to 16, and keeps the `len` bytes from the byte `skip` on, which are raw. Returns `None` if the
/// allocator refuses.
pub(crate) fn allocate<A: Allocator>(
    alloc: &A,
    units: usize,
    skip: usize,
    len: usize,
) -> Option<(Base, Bytes, Deed<A>)>
    requires { (units * 16 < 2 ^ 63) × (skip + len ≤ units * 16) }
    ensures bytes { IfSome result (λ r. (r.1.at ≡ r.0.ptr) × (r.1.skip ≡ skip) × (length r.1.bytes ≡ len) × (r.1.out ≡ came_raw 0 len []) × (r.1.units ≡ units)) }
    ensures deed { IfSome result (λ r. (r.2.at ≡ r.0.ptr) × (r.2.units ≡ units) × (r.2.skip ≡ skip) × (r.2.len ≡ len) × (r.2.alloc ≡ alloc.now)) }
{
    match alloc.allocate(units * 16, 16) {
        Ok(ptr) => Some((
            Base { ptr },
            Bytes { mark: PhantomData },
            Deed { mark: PhantomData },
        )),
        Err(_) => None,
    }
}

/// Deallocates the block.
pub(crate) fn deallocate<A: Allocator>(
    alloc: &A,
    base: Base,
    units: usize,
    bytes: Bytes,
    deed: Deed<A>,
)
    requires bytes { (bytes.at ≡ base.ptr) × (bytes.units ≡ units) × IsOwn bytes.out 0 (length bytes.bytes) × (units * 16 < 2 ^ 63) }
    requires deed { (deed.at ≡ base.ptr) × (deed.units ≡ units) × (deed.skip ≡ bytes.skip) × (deed.len ≡ length bytes.bytes) × (deed.alloc ≡ alloc.now) }
{
    let Bytes { mark: _ } = bytes;
    let Deed { mark: _ } = deed;
    unsafe { alloc.deallocate(base.ptr, units * 16, 16) }
}

/// Returns the parts of no block: there is no byte, and nothing to deallocate.
pub(crate) fn no_block<A: Allocator>(_alloc: &A, skip: usize) -> (Base, Bytes, Deed<A>)
    ensures { (result.1.at ≡ result.0.ptr) × (result.1.skip ≡ skip) × (result.1.bytes ≡ []) × (result.2.at ≡ null_ptr) × (result.1.out ≡ []) × (result.1.units ≡ units_for skip 0) }
{
    let none: [u8; 0] = [];
    let ptr = &raw const none as *mut u8;
    (
        Base { ptr },
        Bytes { mark: PhantomData },
        Deed { mark: PhantomData },
    )
}

/// Consumes bytes of which no block is to be deallocated.
pub(crate) fn forget<A: Allocator>(bytes: Bytes, deed: Deed<A>)
    requires { deed.at ≡ null_ptr }
{
    let Bytes { mark: _ } = bytes;
    let Deed { mark: _ } = deed;
}

/// Returns the owner of the caller's bytes at `block`, which are to have the addresses from `start` on.
pub(crate) unsafe fn adopt(block: *mut u8, start: usize) -> Bytes
    ghost bytes: { List ℕ }
    requires* { sem 𝓛 (bytes_at_pointer block start bytes) }
    ensures { (result.at ≡ block) × (result.skip ≡ 0) × (result.bytes ≡ bytes) × (result.out ≡ []) × (result.units ≡ units_from start (length bytes)) }
{
    let _ = block;
    let _ = start;
    Bytes { mark: PhantomData }
}

/// Returns the owner of the caller's room for `len` bytes at `block`, which are to have the addresses from `start` on. They
/// are raw.
pub(crate) unsafe fn adopt_room(block: *mut u8, start: usize, len: usize) -> Bytes
    requires* { sem 𝓛 (room_at block start len) ∗ ⌜ len < 2 ^ 63 ⌝ }
    ensures { (result.at ≡ block) × (result.skip ≡ 0) × (length result.bytes ≡ len) × (result.out ≡ came_raw 0 len []) × (result.units ≡ units_from start len) }
{
    let _ = block;
    let _ = start;
    let _ = len;
    Bytes { mark: PhantomData }
}

/// Returns the owner of none of the `len` bytes at `block`, which are to have the addresses from `start` on: all are out.
pub(crate) fn adopt_none(block: *mut u8, start: usize, len: usize) -> Bytes
    requires { IsInBlock block × (len < 2 ^ 63) }
    ensures { (result.at ≡ block) × (result.skip ≡ 0) × (length result.bytes ≡ len) × (result.out ≡ left 0 len []) × (result.units ≡ units_from start len) }
{
    let _ = block;
    let _ = start;
    let _ = len;
    Bytes { mark: PhantomData }
}

/// What a memory was made of: its block, its addresses and its bytes. It owns the bytes, and `release` or `release_room`
/// hands them to the caller.
pub struct RawParts {
    pub(crate) base: Base,
    /// The address of the first byte.
    pub start: usize,
    /// The number of bytes.
    pub len: usize,
    pub(crate) bytes: Bytes,
}

impl RawParts {
    ghost use Rattle.rlsf_base.specs.RawParts.{LiesAtBlock};

    /// Returns the block. Its `len` bytes are the caller's from now on, with the values that they have.
    ///
    /// Each byte must be here.
    pub fn release(self) -> *mut u8
        requires { (self.bytes.at ≡ self.base.ptr) × (self.bytes.skip ≡ 0) × (self.bytes.out ≡ []) × (self.bytes.units ≡ units_from self.start (length self.bytes.bytes)) }
        ensures* handed { sem 𝓛 (bytes_at_pointer result self.start self.bytes.bytes) }
        ensures block { result ≡ self.base.ptr }
    {
        let RawParts {
            base,
            start: _,
            len: _,
            bytes,
        } = self;
        let Bytes { mark: _ } = bytes;
        base.ptr
    }

    /// Returns the block. Of its bytes those that aren't out are the caller's from now on.
    pub fn release_lent(self) -> *mut u8
        requires { LiesAtBlock self }
        ensures* handed { sem 𝓛 (lent_at result self.start self.bytes.bytes self.bytes.out) }
        ensures block { result ≡ self.base.ptr }
    {
        let RawParts {
            base,
            start: _,
            len: _,
            bytes,
        } = self;
        let Bytes { mark: _ } = bytes;
        base.ptr
    }

    /// Returns the block. Its room for `len` bytes is the caller's from now on. The bytes have no values.
    ///
    /// No byte may be out.
    pub fn release_room(self) -> *mut u8
        requires place { LiesAtBlock self }
        requires own { IsOwn self.bytes.out 0 self.len }
        ensures* handed { sem 𝓛 (room_at result self.start self.len) }
        ensures block { result ≡ self.base.ptr }
    {
        let RawParts {
            base,
            start: _,
            len: _,
            bytes,
        } = self;
        let Bytes { mark: _ } = bytes;
        base.ptr
    }
}

impl Base {
    /// Returns the place that `ptr` points to.
    pub(crate) fn at(ptr: *mut u8) -> Base
        ensures { result.ptr ≡ ptr }
    {
        Base { ptr }
    }
}

impl<A: Allocator> Deed<A> {
    /// Gives the right up: the block is never deallocated.
    pub(crate) fn end(self) {
        let Deed { mark: _ } = self;
    }
}

impl Bytes {
    ghost use Rattle.rlsf_base.specs.Steps.LentParts.{lends_part};
    ghost use Rattle.rlsf_base.specs.Steps.Owners.{Has, HasHere, HasOwn, OwnsValues, IsPartOf, AreUnitsOf, Becomes, GivesOut, TakesBack, TakesBackRoom, values_in, changes_with, values_with};

    /// Consumes the owner: the bytes are nobody's.
    pub(crate) fn end(self) {
        let Bytes { mark: _ } = self;
    }

    /// Consumes the owner. What it owns is the caller's from now on.
    pub(crate) fn into_raw(self)
        ensures* handed { sem 𝓛 (bytes_own self.at self.skip self.bytes self.out self.units) }
    {
        let Bytes { mark: _ } = self;
    }

    /// Returns the owner of what `into_raw` passed to the caller.
    pub(crate) unsafe fn from_raw() -> Bytes
        ghost of: { Ptr × ℕ × List ℕ × List Change × (ℕ × ℕ) × ℕ }
        requires* { sem 𝓛 (bytes_own of.0 of.1 of.2 of.3 of.5) }
        ensures { OwnsValues result of.0 of.1 of.2 of.3 of.5 × (result.of ≡ of.4) }
    {
        Bytes { mark: PhantomData }
    }

    /// Returns the place of the first byte as that at which the block begins, and the owner of the same bytes there. It has
    /// the units only if the block began there before.
    pub(crate) fn from_first(self, base: Base, skip: usize) -> (Base, Bytes)
        requires { (base.ptr ≡ self.at) × (self.skip ≡ skip) }
        ensures { (result.0.ptr ≡ base.ptr +ₚ skip) × OwnsValues result.1 result.0.ptr 0 self.bytes self.out (if eqb skip 0 then self.units else 0) }
    {
        let Bytes { mark: _ } = self;
        let ptr = unsafe { base.ptr.add(skip) };
        (Base { ptr }, Bytes { mark: PhantomData })
    }

    /// Writes the byte at the place `place` of the block. It may not be out, and is then here. No other byte changes.
    pub(crate) fn write(&mut self, base: Base, place: usize, byte: u8)
        requires { (base.ptr ≡ self.old.at) × HasOwn self.old place 1 }
        ensures { Becomes self.old self.new (values_with self.old place 1 (byte ∷ [])) (changes_with self.old place 1) }
    {
        unsafe { base.ptr.add(place).write(byte) }
    }

    /// Writes the eight bytes from the place `place` of the block on. None may be out, and they are then here. No other byte
    /// changes.
    #[inline(always)]
    pub(crate) fn write_word(&mut self, base: Base, place: usize, word: [u8; 8])
        requires { (base.ptr ≡ self.old.at) × HasOwn self.old place 8 }
        ensures { Becomes self.old self.new (values_with self.old place 8 word) (changes_with self.old place 8) }
    {
        unsafe { (base.ptr.add(place) as *mut [u8; 8]).write(word) }
    }

    /// Writes the 16 bytes from the place `place` of the block on. None may be out, and they are then here. No other byte
    /// changes.
    #[inline(always)]
    pub(crate) fn write_unit(&mut self, base: Base, place: usize, unit: [u8; 16])
        requires { (base.ptr ≡ self.old.at) × HasOwn self.old place 16 }
        ensures { Becomes self.old self.new (values_with self.old place 16 unit) (changes_with self.old place 16) }
    {
        unsafe { (base.ptr.add(place) as *mut [u8; 16]).write(unit) }
    }

    /// Replaces the list of changes by `out`. Each byte must have the same state by both. No byte changes.
    #[inline(always)]
    pub(crate) fn recount(&mut self)
        ghost out: { List Change }
        requires { (k : ℕ) → k < length self.old.bytes → kept_at self.old.out k ≡ kept_at out k }
        ensures { Becomes self.old self.new self.old.bytes out }
    {}

    /// Empties the list of changes. Each byte must be here. No byte changes.
    #[inline(always)]
    pub(crate) fn settle(&mut self)
        requires { AreBytesHere self.old.out 0 (length self.old.bytes) }
        ensures { Becomes self.old self.new self.old.bytes [] }
    {
        self.recount();
    }

    /// Returns the `len` bytes from the place `place` of the block on. They must be here.
    #[inline(always)]
    pub(crate) fn slice(&self, base: Base, place: usize, len: usize) -> &[u8]
        requires { (base.ptr ≡ self.now.at) × HasHere self.now place len }
        ensures { result.now ≡ values_in self.now place len }
    {
        unsafe { slice::from_raw_parts(base.ptr.add(place), len) }
    }

    /// Returns the `len` bytes that begin `ahead` bytes behind the first of `units`, to which `from` points. They must be here.
    #[inline(always)]
    pub(crate) fn slice_ahead(&self, from: Base, units: &Units, ahead: usize, len: usize) -> &[u8]
        requires { (from.ptr ≡ self.now.at +ₚ units.now.first * 16) × HasHere self.now (units.now.first * 16 + ahead) len }
        ensures { result.now ≡ values_in self.now (units.now.first * 16 + ahead) len }
    {
        let _ = units;
        unsafe { slice::from_raw_parts(from.ptr.add(ahead), len) }
    }

    /// Returns the `len` bytes from the place `place` of the block on, for reading and writing. They must be here.
    #[inline(always)]
    pub(crate) fn slice_mut(&mut self, base: Base, place: usize, len: usize) -> &mut [u8]
        requires { (base.ptr ≡ self.old.at) × HasHere self.old place len }
        ensures* writes_back { sem 𝓛 (lends_part self.entry (place - self.old.skip) len result) }
        ensures value { result.now ≡ values_in self.old place len }
    {
        unsafe { slice::from_raw_parts_mut(base.ptr.add(place), len) }
    }

    /// Takes the `len` bytes from the place `place` of the block on out of this owner, and returns their owner. None may be
    /// out. Each keeps its state, and its value.
    #[inline(always)]
    pub(crate) fn take_out(&mut self, place: usize, len: usize) -> Bytes
        requires { HasOwn self.old place len }
        ensures { IsPartOf self.old result place len × GivesOut self.old self.new place len }
    {
        Bytes { mark: PhantomData }
    }

    /// Puts bytes of this block back, which are here, with the values that they have in `part`. They were out.
    #[inline(always)]
    pub(crate) fn put_back(&mut self, part: Bytes)
        requires { (part.at ≡ self.old.at) × Has self.old part.skip (length part.bytes) × AreBytesHere part.out 0 (length part.bytes) × (part.units ≡ self.old.units) }
        ensures { TakesBack self.old self.new part.skip part.bytes }
    {
        let Bytes { mark: _ } = part;
    }

    /// Puts bytes of this block back. They were out, and are then raw.
    #[inline(always)]
    pub(crate) fn put_room(&mut self, part: Bytes)
        requires { (part.at ≡ self.old.at) × Has self.old part.skip (length part.bytes) × IsOwn part.out 0 (length part.bytes) × (part.units ≡ self.old.units) }
        ensures { TakesBackRoom self.old self.new part.skip (length part.bytes) }
    {
        let Bytes { mark: _ } = part;
    }

    /// Takes the `count` units from the unit `first` of the block on out of this owner, as room that is aligned to 16. Their bytes may
    /// be raw. `of` names the memory that they are of.
    #[inline(always)]
    pub(crate) fn take_units(&mut self, first: usize, count: usize) -> Units
        ghost of: { ℕ × ℕ }
        requires { HasOwn self.old (first * 16) (count * 16) × (first + count ≤ self.old.units) }
        ensures { AreUnitsOf self.old result first count of × GivesOut self.old self.new (first * 16) (count * 16) }
    {
        Units { mark: PhantomData }
    }

    /// Takes units of the block back that were taken out of this owner: their bytes are raw from now on.
    #[inline(always)]
    pub(crate) fn put_units(&mut self, units: Units)
        requires { (units.at ≡ self.old.at) × Has self.old (units.first * 16) (units.count * 16) × (units.first + units.count ≤ self.old.units) }
        ensures { TakesBackRoom self.old self.new (units.first * 16) (units.count * 16) }
    {
        let Units { mark: _ } = units;
    }
}
