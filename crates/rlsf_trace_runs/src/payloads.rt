//! The ops on named payloads.

ghost use Rattle.std.specs.Prelude.{◌≡◌, ℕ, ◌+◌, nat_eq, Some, IfSome};
ghost use Rattle.std.specs.HashMap.{get};
ghost use Rattle.rlsf_base.specs.Space.{SamePlace};
ghost use Rattle.rlsf_model.specs.Callers.{align_at};
ghost use Rattle.rlsf_trace_text.specs.declared.op.Op.TheVariants.{Free, FreeUnknown, Realloc, ReallocNoMove, Fill, Put, Get, Usable};
ghost use Rattle.rlsf_trace_runs.specs.Names.{address};
ghost use Rattle.rlsf_trace_runs.specs.Runs.{RunState};
ghost use Rattle.rlsf_trace_runs.specs.Steps.Tables.{HaveRoomForOps, IsAt, OpLeadsOn};

use crate::names::Payload;
use crate::tables::Tables;
use rlsf_base::memory::Layout;
use rlsf_int::BitPattern;
use rlsf_tlsf::Tlsf;
use rlsf_trace_text::{Answer, TraceError};

/// The live payload of a name. Only the contract speaks of the allocator, in which the payload is live.
fn payload_of<FLBitmap: BitPattern, SLBitmap: BitPattern, const FLLEN: usize, const SLLEN: usize>(
    _tlsf: &Tlsf<FLBitmap, SLBitmap, FLLEN, SLLEN>,
    tables: &Tables,
    name: usize,
) -> Option<Payload>
    requires { (s : RunState) × IsAt FLLEN SLLEN _tlsf.now tables.now s }
    ensures value { result ≡ get nat_eq tables.now.names name }
    ensures live { IfSome result (λ p. align_at _tlsf.now.state (address p) ≡ Some p.align) }
{
    tables.payload(name)
}

/// Gives the payload of a name back, unless no live one has it. The name is free again.
pub(crate) fn free<
    FLBitmap: BitPattern,
    SLBitmap: BitPattern,
    const FLLEN: usize,
    const SLLEN: usize,
>(tlsf: &mut Tlsf<FLBitmap, SLBitmap, FLLEN, SLLEN>, tables: &mut Tables, name: usize) -> Answer
    requires { (s : RunState) × IsAt FLLEN SLLEN tlsf.old tables.old s }
    ensures does { (s : RunState) → IsAt FLLEN SLLEN tlsf.old tables.old s → OpLeadsOn FLLEN SLLEN tlsf.old s (Free name) result tlsf.new tables.new }
    ensures room { (ops : ℕ) → HaveRoomForOps tables.old (ops + 1) → HaveRoomForOps tables.new ops }
    ensures place { SamePlace tlsf.old.memory tlsf.new.memory }
{
    let Some(payload) = payload_of(tlsf, tables, name) else {
        return Answer::Refused(TraceError::UnknownName);
    };
    let _ = tables.take_name(name);
    tlsf.deallocate(payload.addr, payload.align);
    Answer::Done
}

/// Gives the payload of a name back without telling its alignment, unless no live one has it. The name is free again.
pub(crate) fn free_unknown<
    FLBitmap: BitPattern,
    SLBitmap: BitPattern,
    const FLLEN: usize,
    const SLLEN: usize,
>(tlsf: &mut Tlsf<FLBitmap, SLBitmap, FLLEN, SLLEN>, tables: &mut Tables, name: usize) -> Answer
    requires { (s : RunState) × IsAt FLLEN SLLEN tlsf.old tables.old s }
    ensures does { (s : RunState) → IsAt FLLEN SLLEN tlsf.old tables.old s → OpLeadsOn FLLEN SLLEN tlsf.old s (FreeUnknown name) result tlsf.new tables.new }
    ensures room { (ops : ℕ) → HaveRoomForOps tables.old (ops + 1) → HaveRoomForOps tables.new ops }
    ensures place { SamePlace tlsf.old.memory tlsf.new.memory }
{
    let Some(payload) = payload_of(tlsf, tables, name) else {
        return Answer::Refused(TraceError::UnknownName);
    };
    let _ = tables.take_name(name);
    tlsf.deallocate_unknown_align(payload.addr);
    Answer::Done
}

/// Gives the payload of a name another size, unless no live one has it or no layout has that size with its alignment. Where
/// there is no room for it, the name keeps its payload as it is.
pub(crate) fn realloc<
    FLBitmap: BitPattern,
    SLBitmap: BitPattern,
    const FLLEN: usize,
    const SLLEN: usize,
>(
    tlsf: &mut Tlsf<FLBitmap, SLBitmap, FLLEN, SLLEN>,
    tables: &mut Tables,
    name: usize,
    size: usize,
) -> Answer
    requires state { (s : RunState) × IsAt FLLEN SLLEN tlsf.old tables.old s }
    requires room { HaveRoomForOps tables.old 1 }
    ensures does { (s : RunState) → IsAt FLLEN SLLEN tlsf.old tables.old s → OpLeadsOn FLLEN SLLEN tlsf.old s (Realloc name size) result tlsf.new tables.new }
    ensures room { (ops : ℕ) → HaveRoomForOps tables.old (ops + 1) → HaveRoomForOps tables.new ops }
    ensures place { SamePlace tlsf.old.memory tlsf.new.memory }
{
    let Some(old) = payload_of(tlsf, tables, name) else {
        return Answer::Refused(TraceError::UnknownName);
    };
    let Ok(layout) = Layout::from_size_align(size, old.align) else {
        return Answer::Refused(TraceError::BadLayout);
    };
    let placed = tlsf.reallocate(old.addr, layout);
    if let Some(addr) = placed {
        let align = old.align;
        tables.add_name(name, Payload { addr, align });
    }
    Answer::Placed(placed)
}

/// Resizes the payload of a name in place. Refused if no live payload has the name, or if no layout has that size with its
/// alignment. If there is no room, the payload is unchanged. The name keeps its payload in each case.
pub(crate) fn realloc_no_move<
    FLBitmap: BitPattern,
    SLBitmap: BitPattern,
    const FLLEN: usize,
    const SLLEN: usize,
>(
    tlsf: &mut Tlsf<FLBitmap, SLBitmap, FLLEN, SLLEN>,
    tables: &Tables,
    name: usize,
    size: usize,
) -> Answer
    requires { (s : RunState) × IsAt FLLEN SLLEN tlsf.old tables.now s }
    ensures does { (s : RunState) → IsAt FLLEN SLLEN tlsf.old tables.now s → OpLeadsOn FLLEN SLLEN tlsf.old s (ReallocNoMove name size) result tlsf.new tables.now }
    ensures place { SamePlace tlsf.old.memory tlsf.new.memory }
{
    let Some(payload) = payload_of(tlsf, tables, name) else {
        return Answer::Refused(TraceError::UnknownName);
    };
    let Ok(layout) = Layout::from_size_align(size, payload.align) else {
        return Answer::Refused(TraceError::BadLayout);
    };
    Answer::Placed(tlsf.reallocate_no_move(payload.addr, layout))
}

/// Sets every usable byte of the payload of a name, unless no live one has it.
pub(crate) fn fill<
    FLBitmap: BitPattern,
    SLBitmap: BitPattern,
    const FLLEN: usize,
    const SLLEN: usize,
>(
    tlsf: &mut Tlsf<FLBitmap, SLBitmap, FLLEN, SLLEN>,
    tables: &Tables,
    name: usize,
    byte: u8,
) -> Answer
    requires { (s : RunState) × IsAt FLLEN SLLEN tlsf.old tables.now s }
    ensures does { (s : RunState) → IsAt FLLEN SLLEN tlsf.old tables.now s → OpLeadsOn FLLEN SLLEN tlsf.old s (Fill name byte) result tlsf.new tables.now }
    ensures place { SamePlace tlsf.old.memory tlsf.new.memory }
{
    let Some(payload) = payload_of(tlsf, tables, name) else {
        return Answer::Refused(TraceError::UnknownName);
    };
    tlsf.payload_mut(payload.addr).fill(byte);
    Answer::Done
}

/// Sets the byte at an offset of the payload of a name. Refused if no live payload has the name, or if the offset isn't below its
/// usable size.
pub(crate) fn put<
    FLBitmap: BitPattern,
    SLBitmap: BitPattern,
    const FLLEN: usize,
    const SLLEN: usize,
>(
    tlsf: &mut Tlsf<FLBitmap, SLBitmap, FLLEN, SLLEN>,
    tables: &Tables,
    name: usize,
    offset: usize,
    byte: u8,
) -> Answer
    requires { (s : RunState) × IsAt FLLEN SLLEN tlsf.old tables.now s }
    ensures does { (s : RunState) → IsAt FLLEN SLLEN tlsf.old tables.now s → OpLeadsOn FLLEN SLLEN tlsf.old s (Put name offset byte) result tlsf.new tables.now }
    ensures place { SamePlace tlsf.old.memory tlsf.new.memory }
{
    let Some(payload) = payload_of(tlsf, tables, name) else {
        return Answer::Refused(TraceError::UnknownName);
    };
    if offset >= tlsf.payload(payload.addr).len() {
        return Answer::Refused(TraceError::BadOffset);
    }
    tlsf.payload_mut(payload.addr)[offset] = byte;
    Answer::Done
}

/// Reads the byte at an offset of the payload of a name. Refused if no live payload has the name, or if the offset isn't below its
/// usable size.
pub(crate) fn get<
    FLBitmap: BitPattern,
    SLBitmap: BitPattern,
    const FLLEN: usize,
    const SLLEN: usize,
>(
    tlsf: &Tlsf<FLBitmap, SLBitmap, FLLEN, SLLEN>,
    tables: &Tables,
    name: usize,
    offset: usize,
) -> Answer
    requires { (s : RunState) × IsAt FLLEN SLLEN tlsf.now tables.now s }
    ensures { (s : RunState) → IsAt FLLEN SLLEN tlsf.now tables.now s → OpLeadsOn FLLEN SLLEN tlsf.now s (Get name offset) result tlsf.now tables.now }
{
    let Some(payload) = payload_of(tlsf, tables, name) else {
        return Answer::Refused(TraceError::UnknownName);
    };
    match tlsf.payload(payload.addr).get(offset) {
        Some(byte) => Answer::Byte(*byte),
        None => Answer::Refused(TraceError::BadOffset),
    }
}

/// How many bytes of the payload of a name are usable, unless no live one has it.
pub(crate) fn usable<
    FLBitmap: BitPattern,
    SLBitmap: BitPattern,
    const FLLEN: usize,
    const SLLEN: usize,
>(tlsf: &Tlsf<FLBitmap, SLBitmap, FLLEN, SLLEN>, tables: &Tables, name: usize) -> Answer
    requires { (s : RunState) × IsAt FLLEN SLLEN tlsf.now tables.now s }
    ensures { (s : RunState) → IsAt FLLEN SLLEN tlsf.now tables.now s → OpLeadsOn FLLEN SLLEN tlsf.now s (Usable name) result tlsf.now tables.now }
{
    match payload_of(tlsf, tables, name) {
        Some(payload) => Answer::Usable(tlsf.allocation_usable_size(payload.addr)),
        None => Answer::Refused(TraceError::UnknownName),
    }
}
