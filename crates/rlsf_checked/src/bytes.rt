//! The bytes of payloads that the allocator itself writes.

ghost use Rattle.std.specs.Prelude.{◌≡◌, ◌≤◌, ◌+◌, ◌&&◌, length, nat_le, replicate, IfErr, IfOk, IsOk, OnOk};
ghost use Rattle.std.specs.List.{splice};
ghost use Rattle.rlsf_base.specs.Addr.{at};
ghost use Rattle.rlsf_model.specs.Allocate.{Allocates};
ghost use Rattle.rlsf_model.specs.Callers.{align_at, bytes_at, copied_over};
ghost use Rattle.rlsf_model.specs.Run.{Fills};
ghost use Rattle.rlsf_model.specs.Sized.{live_bytes};
ghost use Rattle.rlsf_tlsf.specs.Allocator.{Steps};
ghost use Rattle.rlsf_tlsf.specs.Bounds.{KeepsAllBounds, KeepsBounds, TakesRoom};
ghost use Rattle.rlsf_tlsf.specs.Results.{IsAllocatedWithZeros};
ghost use Rattle.rlsf_checked.specs.Answers.{addr_in, copy_answer, if_live};
ghost use Rattle.rlsf_checked.specs.declared.error.CheckedError.TheVariants.{NoRoom};
ghost use Rattle.rlsf_checked.specs.Results.{KeepsCheckedFrame, KeepsCheckedFrameCopying, KeepsCheckedFrameInPlace, RefusesUnchanged, RefusesUntouched};

use crate::checked::CheckedTlsf;
use crate::error::CheckedError;
use crate::marks::mark_of;
use rlsf_base::memory::{Addr, Layout};
use rlsf_int::BitPattern;

impl<
    FLBitmap: BitPattern,
    SLBitmap: BitPattern,
    const FLLEN: usize,
    const SLLEN: usize,
> CheckedTlsf<FLBitmap, SLBitmap, FLLEN, SLLEN> {
    /// Copies the first `len` bytes of the payload at `from` over the first `len` bytes of the payload at `to`. The other bytes of the
    /// payload at `to` are unchanged, and so is everything else. `from` and `to` may be the same.
    ///
    /// Returns `UnknownAddress` exactly if no payload is live at one of the addresses, else `OutOfRange` exactly if one of the payloads has
    /// fewer than `len` usable bytes. Then nothing changes.
    ///
    /// Takes time proportional to `len`: `len` bytes are copied, without a word access.
    pub fn copy(&mut self, from: Addr, to: Addr, len: usize) -> Result<(), CheckedError>
        ensures step { OnOk result (Steps FLLEN SLLEN self.old.heap self.new.heap (Fills self.old.heap.state (at to)
            (copied_over self.old.heap.state (at from) (at to) len))) }
        ensures result { OnOk result (bytes_at self.new.heap.state (at to) ≡ copied_over self.old.heap.state (at from) (at to) len) }
        ensures bounds { KeepsAllBounds SLLEN self.old.heap.state self.new.heap.state }
        ensures blocks { live_bytes self.new.heap.state ≡ live_bytes self.old.heap.state }
        ensures refused { RefusesUntouched self.old self.new (result ≡ copy_answer self.old.heap.state (at from) (at to) len) result }
        ensures frame { KeepsCheckedFrameCopying (at to) len self.old self.new result }
        ensures touches { self.new.heap.memory.touches ≡ self.old.heap.memory.touches }
    {
        let Some(_) = self.alignment(from) else {
            return Err(CheckedError::UnknownAddress);
        };
        let Some(_) = self.alignment(to) else {
            return Err(CheckedError::UnknownAddress);
        };
        let first = self.heap.allocation_usable_size(from);
        let second = self.heap.allocation_usable_size(to);
        if !both_reach(len, first, second) {
            return Err(CheckedError::OutOfRange);
        }
        self.heap.copy_payload(from, to, len);
        Ok(())
    }

    /// Overwrites all usable bytes of a payload with a value. Everything else is unchanged.
    ///
    /// Returns `UnknownAddress` exactly if no payload is live at the address. Then nothing changes.
    ///
    /// Takes time proportional to the usable bytes: at most 3 word accesses, whatever the pools contain. No byte is copied.
    pub fn fill(&mut self, addr: Addr, value: u8) -> Result<(), CheckedError>
        ensures step { OnOk result (Steps FLLEN SLLEN self.old.heap self.new.heap (Fills self.old.heap.state (at addr)
            (replicate (length (bytes_at self.old.heap.state (at addr))) value))) }
        ensures result { OnOk result (bytes_at self.new.heap.state (at addr) ≡ replicate (length (bytes_at self.old.heap.state (at addr))) value) }
        ensures bounds { KeepsAllBounds SLLEN self.old.heap.state self.new.heap.state }
        ensures blocks { live_bytes self.new.heap.state ≡ live_bytes self.old.heap.state }
        ensures refused { RefusesUntouched self.old self.new (result ≡ if_live (align_at self.old.heap.state (at addr)) tt) result }
        ensures frame { KeepsCheckedFrameInPlace (at addr) self.old self.new }
        ensures touches { self.new.heap.memory.touches ≤ self.old.heap.memory.touches + 3 }
    {
        let Some(_) = self.alignment(addr) else {
            return Err(CheckedError::UnknownAddress);
        };
        fill_all(self.heap.payload_mut(addr), value);
        Ok(())
    }

    /// Allocates a payload for a layout, as `allocate` does, and fills all its usable bytes with zeros. Returns its address.
    ///
    /// Returns `NoRoom` exactly if `allocate` does. Then nothing changes.
    ///
    /// At most 30 word accesses, whatever the pools contain, and time proportional to the usable bytes. No byte is copied.
    pub fn allocate_zeroed(&mut self, layout: Layout) -> Result<Addr, CheckedError>
        ensures step { Steps FLLEN SLLEN self.old.heap self.new.heap (Allocates SLLEN self.old.heap.state layout.size layout.align (addr_in result)) }
        ensures result { IfOk result (λ addr. IsAllocatedWithZeros self.old.heap.state self.new.heap.state layout.size layout.align (at addr)) }
        ensures room { TakesRoom SLLEN self.old.heap.state self.new.heap.state layout.size layout.align (IsOk result) }
        ensures bounds { KeepsBounds SLLEN self.old.heap.state self.new.heap.state layout.size layout.align }
        ensures refused { RefusesUnchanged self.old self.new (IfErr result (λ e. e ≡ NoRoom)) result }
        ensures frame { KeepsCheckedFrame self.old self.new }
        ensures touches { self.new.heap.memory.touches ≤ self.old.heap.memory.touches + 30 }
    {
        let Some(addr) = self.heap.allocate_zeroed(layout) else {
            return Err(CheckedError::NoRoom);
        };
        self.marks.set(addr.get(), mark_of(layout.align()));
        Ok(addr)
    }
}

/// Returns whether two payloads both have `len` bytes.
fn both_reach(len: usize, first: usize, second: usize) -> bool
    ensures { result ≡ (nat_le len first && nat_le len second) }
{
    len <= first && len <= second
}

/// Overwrites all bytes with a value.
fn fill_all(bytes: &mut [u8], value: u8)
    ensures { bytes.new ≡ replicate (length bytes.old) value }
{
    bytes.fill(value);
}

/// Overwrites bytes of a payload, from an offset on.
pub(crate) fn write_at(payload: &mut [u8], offset: usize, bytes: &[u8])
    requires { offset + length bytes.now ≤ length payload.old }
    ensures bytes { payload.new ≡ splice payload.old offset (offset + length bytes.now) bytes.now }
    ensures len { length payload.new ≡ length payload.old }
{
    payload[offset..offset + bytes.len()].copy_from_slice(bytes);
}
