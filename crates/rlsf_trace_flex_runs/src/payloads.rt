//! The ops on named payloads.

ghost use Rattle.std.specs.Prelude.{ℕ, ◌≡◌, ◌+◌, ◌≤◌, true, false, nat_eq, Some, IfSome};
ghost use Rattle.std.specs.HashMap.{get, spare};
ghost use Rattle.rlsf_model.specs.Callers.{align_at};
ghost use Rattle.rlsf_trace_runs.specs.Names.{address};
ghost use Rattle.rlsf_trace_flex_runs.specs.Steps.Names.{IsFlexAt, LeadsOn};
ghost use Rattle.rlsf_trace_text.specs.declared.op.Op.TheVariants.{Alloc, Free, FreeUnknown, Realloc, ReallocNoMove, Fill, Put, Get, Usable};

use rlsf_base::memory::Layout;
use rlsf_flex::{FlexSource, FlexTlsf};
use rlsf_int::BitPattern;
use rlsf_trace_runs::Payload;
use rlsf_trace_text::{Answer, TraceError};
use std::collections::HashMap;

/// The live payload of a name. Only the contract speaks of the allocator, in which the payload is live.
fn payload_of<
    S: FlexSource,
    FLBitmap: BitPattern,
    SLBitmap: BitPattern,
    const FLLEN: usize,
    const SLLEN: usize,
>(
    _flex: &FlexTlsf<S, FLBitmap, SLBitmap, FLLEN, SLLEN>,
    names: &HashMap<usize, Payload>,
    name: usize,
) -> Option<Payload>
    requires { IsFlexAt FLLEN SLLEN S.terms S.owes _flex.now names.now }
    ensures value { result ≡ get nat_eq names.now name }
    ensures live { IfSome result (λ p. align_at _flex.now.state.machine (address p) ≡ Some p.align) }
{
    names.get(&name).copied()
}

/// Allocates a payload and names it, unless a live one has the name. A name whose payload found no room stays free.
pub(crate) fn alloc<
    S: FlexSource,
    FLBitmap: BitPattern,
    SLBitmap: BitPattern,
    const FLLEN: usize,
    const SLLEN: usize,
>(
    flex: &mut FlexTlsf<S, FLBitmap, SLBitmap, FLLEN, SLLEN>,
    names: &mut HashMap<usize, Payload>,
    name: usize,
    layout: Layout,
) -> Answer
    requires state { IsFlexAt FLLEN SLLEN S.terms S.owes flex.old names.old }
    requires room { 1 ≤ spare names.old }
    ensures does { LeadsOn FLLEN SLLEN S.terms S.owes S.leads flex.old names.old (Alloc name layout) result flex.new names.new }
    ensures room { (ops : ℕ) → ops + 1 ≤ spare names.old → ops ≤ spare names.new }
{
    if names.contains_key(&name) {
        return Answer::Refused(TraceError::NameTaken);
    }
    let placed = flex.allocate(layout);
    if let Some(addr) = placed {
        let align = layout.align();
        let _ = names.insert(name, Payload { addr, align });
    }
    Answer::Placed(placed)
}

/// Deallocates the payload of a name, with its alignment or without. Refused if no live payload has the name. The name is free
/// again.
pub(crate) fn free<
    S: FlexSource,
    FLBitmap: BitPattern,
    SLBitmap: BitPattern,
    const FLLEN: usize,
    const SLLEN: usize,
>(
    flex: &mut FlexTlsf<S, FLBitmap, SLBitmap, FLLEN, SLLEN>,
    names: &mut HashMap<usize, Payload>,
    name: usize,
    tells_align: bool,
) -> Answer
    requires { IsFlexAt FLLEN SLLEN S.terms S.owes flex.old names.old }
    ensures told { tells_align ≡ true → LeadsOn FLLEN SLLEN S.terms S.owes S.leads flex.old names.old (Free name) result flex.new names.new }
    ensures untold { tells_align ≡ false → LeadsOn FLLEN SLLEN S.terms S.owes S.leads flex.old names.old (FreeUnknown name) result flex.new names.new }
    ensures room { (ops : ℕ) → ops + 1 ≤ spare names.old → ops ≤ spare names.new }
{
    let Some(payload) = payload_of(flex, names, name) else {
        return Answer::Refused(TraceError::UnknownName);
    };
    let _ = names.remove(&name);
    if tells_align {
        flex.deallocate(payload.addr, payload.align);
        return Answer::Done;
    }
    flex.deallocate_unknown_align(payload.addr);
    Answer::Done
}

/// Gives the payload of a name another size, unless no live one has it or no layout has that size with its alignment. Where
/// there is no room for it and no memory came, the name keeps its payload as it is.
pub(crate) fn realloc<
    S: FlexSource,
    FLBitmap: BitPattern,
    SLBitmap: BitPattern,
    const FLLEN: usize,
    const SLLEN: usize,
>(
    flex: &mut FlexTlsf<S, FLBitmap, SLBitmap, FLLEN, SLLEN>,
    names: &mut HashMap<usize, Payload>,
    name: usize,
    size: usize,
) -> Answer
    requires state { IsFlexAt FLLEN SLLEN S.terms S.owes flex.old names.old }
    requires room { 1 ≤ spare names.old }
    ensures does { LeadsOn FLLEN SLLEN S.terms S.owes S.leads flex.old names.old (Realloc name size) result flex.new names.new }
    ensures room { (ops : ℕ) → ops + 1 ≤ spare names.old → ops ≤ spare names.new }
{
    let Some(old) = payload_of(flex, names, name) else {
        return Answer::Refused(TraceError::UnknownName);
    };
    let Ok(layout) = Layout::from_size_align(size, old.align) else {
        return Answer::Refused(TraceError::BadLayout);
    };
    let placed = flex.reallocate(old.addr, layout);
    if let Some(addr) = placed {
        let align = old.align;
        let _ = names.insert(name, Payload { addr, align });
    }
    Answer::Placed(placed)
}

/// Resizes the payload of a name in place. Refused if no live payload has the name, or if no layout has that size with its
/// alignment. If there is no room, the payload is unchanged. The name keeps its payload in each case.
pub(crate) fn realloc_no_move<
    S: FlexSource,
    FLBitmap: BitPattern,
    SLBitmap: BitPattern,
    const FLLEN: usize,
    const SLLEN: usize,
>(
    flex: &mut FlexTlsf<S, FLBitmap, SLBitmap, FLLEN, SLLEN>,
    names: &HashMap<usize, Payload>,
    name: usize,
    size: usize,
) -> Answer
    requires { IsFlexAt FLLEN SLLEN S.terms S.owes flex.old names.now }
    ensures { LeadsOn FLLEN SLLEN S.terms S.owes S.leads flex.old names.now (ReallocNoMove name size) result flex.new names.now }
{
    let Some(payload) = payload_of(flex, names, name) else {
        return Answer::Refused(TraceError::UnknownName);
    };
    let Ok(layout) = Layout::from_size_align(size, payload.align) else {
        return Answer::Refused(TraceError::BadLayout);
    };
    Answer::Placed(flex.reallocate_no_move(payload.addr, layout))
}

/// Sets every usable byte of the payload of a name, unless no live one has it.
pub(crate) fn fill<
    S: FlexSource,
    FLBitmap: BitPattern,
    SLBitmap: BitPattern,
    const FLLEN: usize,
    const SLLEN: usize,
>(
    flex: &mut FlexTlsf<S, FLBitmap, SLBitmap, FLLEN, SLLEN>,
    names: &HashMap<usize, Payload>,
    name: usize,
    byte: u8,
) -> Answer
    requires { IsFlexAt FLLEN SLLEN S.terms S.owes flex.old names.now }
    ensures { LeadsOn FLLEN SLLEN S.terms S.owes S.leads flex.old names.now (Fill name byte) result flex.new names.now }
{
    let Some(payload) = payload_of(flex, names, name) else {
        return Answer::Refused(TraceError::UnknownName);
    };
    flex.payload_mut(payload.addr).fill(byte);
    Answer::Done
}

/// Sets the byte at an offset of the payload of a name. Refused if no live payload has the name, or if the offset isn't below its
/// usable size.
pub(crate) fn put<
    S: FlexSource,
    FLBitmap: BitPattern,
    SLBitmap: BitPattern,
    const FLLEN: usize,
    const SLLEN: usize,
>(
    flex: &mut FlexTlsf<S, FLBitmap, SLBitmap, FLLEN, SLLEN>,
    names: &HashMap<usize, Payload>,
    name: usize,
    offset: usize,
    byte: u8,
) -> Answer
    requires { IsFlexAt FLLEN SLLEN S.terms S.owes flex.old names.now }
    ensures { LeadsOn FLLEN SLLEN S.terms S.owes S.leads flex.old names.now (Put name offset byte) result flex.new names.now }
{
    let Some(payload) = payload_of(flex, names, name) else {
        return Answer::Refused(TraceError::UnknownName);
    };
    if offset >= flex.allocation_usable_size(payload.addr) {
        return Answer::Refused(TraceError::BadOffset);
    }
    flex.payload_mut(payload.addr)[offset] = byte;
    Answer::Done
}

/// Reads the byte at an offset of the payload of a name. Refused if no live payload has the name, or if the offset isn't below its
/// usable size.
pub(crate) fn get<
    S: FlexSource,
    FLBitmap: BitPattern,
    SLBitmap: BitPattern,
    const FLLEN: usize,
    const SLLEN: usize,
>(
    flex: &FlexTlsf<S, FLBitmap, SLBitmap, FLLEN, SLLEN>,
    names: &HashMap<usize, Payload>,
    name: usize,
    offset: usize,
) -> Answer
    requires { IsFlexAt FLLEN SLLEN S.terms S.owes flex.now names.now }
    ensures { LeadsOn FLLEN SLLEN S.terms S.owes S.leads flex.now names.now (Get name offset) result flex.now names.now }
{
    let Some(payload) = payload_of(flex, names, name) else {
        return Answer::Refused(TraceError::UnknownName);
    };
    match flex.payload(payload.addr).get(offset) {
        Some(byte) => Answer::Byte(*byte),
        None => Answer::Refused(TraceError::BadOffset),
    }
}

/// How many bytes of the payload of a name are usable, unless no live one has it.
pub(crate) fn usable<
    S: FlexSource,
    FLBitmap: BitPattern,
    SLBitmap: BitPattern,
    const FLLEN: usize,
    const SLLEN: usize,
>(
    flex: &FlexTlsf<S, FLBitmap, SLBitmap, FLLEN, SLLEN>,
    names: &HashMap<usize, Payload>,
    name: usize,
) -> Answer
    requires { IsFlexAt FLLEN SLLEN S.terms S.owes flex.now names.now }
    ensures { LeadsOn FLLEN SLLEN S.terms S.owes S.leads flex.now names.now (Usable name) result flex.now names.now }
{
    match payload_of(flex, names, name) {
        Some(payload) => Answer::Usable(flex.allocation_usable_size(payload.addr)),
        None => Answer::Refused(TraceError::UnknownName),
    }
}
