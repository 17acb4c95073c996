//! The allocator that many callers share, behind one lock.

ghost use Rattle.std.specs.Prelude.{◌≡◌, [], ◌∷◌, OnErr};
ghost use Rattle.rlsf_base.specs.Layout.{IsLayout};
ghost use Rattle.rlsf_global.specs.Refusals.{RefusesOnlyBy};
ghost use Rattle.rlsf_model_global.specs.declared.error.GlobalError.TheVariants.{NoRoom, OutOfRange, TableMemory, UnknownAddress, WrongLayout};

use crate::locked::Locked;
use rlsf_base::memory::{Addr, Layout, Memory};
use rlsf_flex::{GlobalTlsfOptions, SmallGlobalTlsfOptions};
use rlsf_model_global::GlobalError;
use std::alloc::Global;
use std::sync::{Mutex, Wait};

/// An allocator that many callers share. Each call but `new` takes the lock once, and makes one call of `Locked` while it holds the lock.
///
/// The contract of that call describes the change of the value. No clause here can state it, since other callers may hold the lock before
/// and after.
#[derive(Drop)]
pub struct GlobalTlsf<Options: GlobalTlsfOptions = ()> {
    locked: Mutex<Locked<Options>>,
}

/// A `GlobalTlsf` with less code: each reallocation moves the payload, and pools are not joined.
pub type SmallGlobalTlsf = GlobalTlsf<SmallGlobalTlsfOptions>;

impl<Options: GlobalTlsfOptions> GlobalTlsf<Options> {
    /// Creates an allocator whose source has the complete memory as its space. Nothing is live.
    ///
    /// The system is asked nothing: the first `alloc` asks it for the codes of the table. No other call asks it.
    ///
    /// Completes in constant time.
    ///
    /// From `crates/rlsf_example_global/src/main.rt`:
    ///
    /// ```
    /// let memory = Memory::new(alloc, 65536, 262144).ok()?;
    /// Some(GlobalTlsf::new(alloc, memory))
    /// ```
    pub fn new(alloc: Global, memory: Memory) -> Self {
        GlobalTlsf {
            locked: Mutex::new(Locked::new(alloc, memory)),
        }
    }

    /// Allocates a payload for a layout, as `Locked::alloc` does. Returns its address.
    ///
    /// Refuses, and changes nothing:
    ///
    /// - `TableMemory` if the system is out of memory for the codes of the table. Then nothing else was tried. Once a call got
    ///   them, none returns this.
    /// - else `NoRoom` exactly if there is no room and no memory came.
    ///
    /// Waits for the lock, and has it as long as `Locked::alloc` takes: at most 27 word accesses if there is room.
    ///
    /// From `crates/rlsf_example_global/src/main.rt`:
    ///
    /// ```
    /// let layout = Layout::from_size_align_unchecked(64, 8);
    /// let longer = Layout::from_size_align_unchecked(1000, 8);
    /// let addr = shared.alloc(rt, layout)?;
    /// ```
    #[tactic(auto, using(crate::proofs::Refusals::allocates_refuses))]
    pub fn alloc<R: Wait>(&self, rt: &R, layout: Layout) -> Result<Addr, GlobalError>
        ensures refusals { RefusesOnlyBy (NoRoom ∷ TableMemory ∷ []) result }
    {
        self.locked.lock(rt).alloc(layout)
    }

    /// Deallocates a payload whose last layout is `layout`, as `Locked::dealloc` does.
    ///
    /// Refuses, and changes nothing:
    ///
    /// - `UnknownAddress` exactly if the address isn't live.
    /// - else `WrongLayout` exactly if `layout` isn't the last layout of the payload.
    ///
    /// An address that was deallocated and allocated again with the same layout is live, so a call with it can't be refused.
    ///
    /// Waits for the lock, and has it as long as `Locked::dealloc` takes: at most 32 word accesses.
    ///
    /// From `crates/rlsf_example_global/src/main.rt`:
    ///
    /// ```
    /// shared.dealloc(rt, addr, longer)?;
    /// Ok(u64::from_le_bytes(bytes))
    /// ```
    #[tactic(auto, using(crate::proofs::Refusals::deallocates_as_refuses))]
    pub fn dealloc<R: Wait>(&self, rt: &R, addr: Addr, layout: Layout) -> Result<(), GlobalError>
        ensures refusals { RefusesOnlyBy (UnknownAddress ∷ WrongLayout ∷ []) result }
    {
        self.locked.lock(rt).dealloc(addr, layout)
    }

    /// Changes the size of a payload whose last layout is `layout`, and keeps its alignment, as `Locked::realloc` does. Returns its
    /// address. The first bytes, as many as both sizes have, are kept.
    ///
    /// Refuses, and changes nothing:
    ///
    /// - `UnknownAddress` exactly if the address isn't live.
    /// - else `WrongLayout` exactly if `layout` isn't the last layout of the payload.
    /// - else `NoRoom` exactly if there is no room and no memory came.
    ///
    /// `new_size` is the size of a layout with that alignment.
    ///
    /// Waits for the lock, and has it as long as `Locked::realloc` takes: at most 66 word accesses if there is room, and its copy.
    ///
    /// From `crates/rlsf_example_global/src/main.rt`:
    ///
    /// ```
    /// let addr = shared.realloc(rt, addr, layout, longer.size())?;
    /// ```
    #[tactic(auto, using(crate::proofs::Refusals::reallocates_as_refuses))]
    pub fn realloc<R: Wait>(
        &self,
        rt: &R,
        addr: Addr,
        layout: Layout,
        new_size: usize,
    ) -> Result<Addr, GlobalError>
        requires { IsLayout new_size layout.align }
        ensures refusals { RefusesOnlyBy (UnknownAddress ∷ WrongLayout ∷ NoRoom ∷ []) result }
    {
        self.locked.lock(rt).realloc(addr, layout, new_size)
    }

    /// Changes the size of a payload whose last layout is `layout` without moving it, and keeps its alignment, as
    /// `Locked::reallocate_no_move` does. Returns its address.
    ///
    /// Refuses, and changes nothing:
    ///
    /// - `UnknownAddress` exactly if the address isn't live.
    /// - else `WrongLayout` exactly if `layout` isn't the last layout of the payload.
    /// - else `NoRoom` exactly if the bytes there don't suffice.
    ///
    /// `new_size` is the size of a layout with that alignment.
    ///
    /// Waits for the lock, and has it as long as `Locked::reallocate_no_move` takes: at most 25 word accesses.
    ///
    /// From `crates/rlsf_test_global/src/at_once.rt`:
    ///
    /// ```
    /// let third = shared.reallocate_no_move(rt, second, longer, 40)?;
    /// shared.read_payload(rt, third, 0, &mut found)?;
    /// ```
    #[tactic(auto, using(crate::proofs::Refusals::reallocates_there_refuses))]
    pub fn reallocate_no_move<R: Wait>(
        &self,
        rt: &R,
        addr: Addr,
        layout: Layout,
        new_size: usize,
    ) -> Result<Addr, GlobalError>
        requires { IsLayout new_size layout.align }
        ensures refusals { RefusesOnlyBy (UnknownAddress ∷ WrongLayout ∷ NoRoom ∷ []) result }
    {
        self.locked
            .lock(rt)
            .reallocate_no_move(addr, layout, new_size)
    }

    /// Reads `bytes.len()` bytes of a payload into `bytes`, from an offset on, as `Locked::read_payload` does.
    ///
    /// Returns `UnknownAddress` exactly if the address isn't live, else `OutOfRange` exactly if the bytes go past the usable ones. Then
    /// `bytes` is unchanged.
    ///
    /// Waits for the lock, and has it as long as `Locked::read_payload` takes.
    ///
    /// From `crates/rlsf_example_global/src/main.rt`:
    ///
    /// ```
    /// let mut bytes = [0; 8];
    /// shared.read_payload(rt, addr, 0, &mut bytes)?;
    /// ```
    #[tactic(auto, using(crate::proofs::Refusals::reads_refuses, crate::proofs::Refusals::refused_read_leaves))]
    pub fn read_payload<R: Wait>(
        &self,
        rt: &R,
        addr: Addr,
        offset: usize,
        bytes: &mut [u8],
    ) -> Result<(), GlobalError>
        ensures refusals { RefusesOnlyBy (UnknownAddress ∷ OutOfRange ∷ []) result }
        ensures refused { OnErr result (bytes.new ≡ bytes.old) }
    {
        self.locked.lock(rt).read_payload(addr, offset, bytes)
    }

    /// Overwrites bytes of a payload, from an offset on, as `Locked::write_payload` does. Its other bytes are unchanged, and so is
    /// everything else.
    ///
    /// Returns `UnknownAddress` exactly if the address isn't live, else `OutOfRange` exactly if the bytes go past the usable ones. Then
    /// nothing changes.
    ///
    /// Waits for the lock, and has it as long as `Locked::write_payload` takes.
    ///
    /// From `crates/rlsf_example_global/src/main.rt`:
    ///
    /// ```
    /// let addr = shared.alloc(rt, layout)?;
    /// shared.write_payload(rt, addr, 0, &number.to_le_bytes())?;
    /// ```
    #[tactic(auto, using(crate::proofs::Refusals::writes_refuses))]
    pub fn write_payload<R: Wait>(
        &self,
        rt: &R,
        addr: Addr,
        offset: usize,
        bytes: &[u8],
    ) -> Result<(), GlobalError>
        ensures refusals { RefusesOnlyBy (UnknownAddress ∷ OutOfRange ∷ []) result }
    {
        self.locked.lock(rt).write_payload(addr, offset, bytes)
    }
}

/// The calls of C's allocation functions, through a shared reference.
pub trait CAlloc {
    /// Allocates a payload for a layout. Returns its address.
    ///
    /// Refuses, and changes nothing:
    ///
    /// - `TableMemory` if the system is out of memory for the codes of the table. Then nothing else was tried. Once a call got
    ///   them, none returns this.
    /// - else `NoRoom` exactly if there is no room and no memory came.
    ///
    /// Waits for the lock, and has it as long as `Locked::allocate` takes.
    ///
    /// From `crates/rlsf_test_global/src/at_once.rt`:
    ///
    /// ```
    /// let other = shared.allocate(rt, layout)?;
    /// let other = shared.reallocate(rt, other, longer)?;
    /// shared.deallocate(rt, other)?;
    /// ```
    fn allocate<R: Wait>(&self, rt: &R, layout: Layout) -> Result<Addr, GlobalError>
        ensures refusals { RefusesOnlyBy (NoRoom ∷ TableMemory ∷ []) result };

    /// Deallocates a payload. Returns `UnknownAddress` exactly if the address isn't live. Then nothing changes.
    ///
    /// An address that was deallocated and allocated again is live, so a call with it can't be refused.
    ///
    /// Waits for the lock, and has it as long as `Locked::deallocate` takes.
    fn deallocate<R: Wait>(&self, rt: &R, addr: Addr) -> Result<(), GlobalError>
        ensures refusals { RefusesOnlyBy (UnknownAddress ∷ []) result };

    /// Moves a payload into a new one, which is allocated for another layout while the old one is still live. Then deallocates the old one.
    /// Returns the new address. As many of the first bytes as both sizes have are kept.
    ///
    /// Refuses, and changes nothing:
    ///
    /// - `UnknownAddress` exactly if the address isn't live.
    /// - else `NoRoom` exactly if there is no room and no memory came.
    ///
    /// Waits for the lock, and has it as long as `Locked::reallocate` takes.
    fn reallocate<R: Wait>(
        &self,
        rt: &R,
        addr: Addr,
        new_layout: Layout,
    ) -> Result<Addr, GlobalError>
        ensures refusals { RefusesOnlyBy (UnknownAddress ∷ NoRoom ∷ []) result };

    /// Returns the number of usable bytes of a payload: those requested, and less than 32 more.
    ///
    /// Returns `UnknownAddress` exactly if the address isn't live.
    ///
    /// Waits for the lock, and has it as long as `Locked::allocation_usable_size` takes.
    fn allocation_usable_size<R: Wait>(&self, rt: &R, addr: Addr) -> Result<usize, GlobalError>
        ensures refusals { RefusesOnlyBy (UnknownAddress ∷ []) result };
}

/// Each call takes the lock once, and makes the call of `Locked` with the same name.
impl<Options: GlobalTlsfOptions> CAlloc for GlobalTlsf<Options> {
    #[tactic(auto, using(crate::proofs::Refusals::allocates_refuses))]
    fn allocate<R: Wait>(&self, rt: &R, layout: Layout) -> Result<Addr, GlobalError> {
        self.locked.lock(rt).allocate(layout)
    }

    #[tactic(auto, using(crate::proofs::Refusals::deallocates_refuses))]
    fn deallocate<R: Wait>(&self, rt: &R, addr: Addr) -> Result<(), GlobalError> {
        self.locked.lock(rt).deallocate(addr)
    }

    #[tactic(auto, using(crate::proofs::Refusals::reallocates_refuses))]
    fn reallocate<R: Wait>(
        &self,
        rt: &R,
        addr: Addr,
        new_layout: Layout,
    ) -> Result<Addr, GlobalError> {
        self.locked.lock(rt).reallocate(addr, new_layout)
    }

    #[tactic(auto, using(crate::proofs::Refusals::usable_refuses))]
    fn allocation_usable_size<R: Wait>(&self, rt: &R, addr: Addr) -> Result<usize, GlobalError> {
        self.locked.lock(rt).allocation_usable_size(addr)
    }
}
