//! Reallocation of payloads, with and without a move.

ghost use Rattle.std.specs.Prelude.{◌≡◌, ◌≤◌, ◌+◌, List, Ok, Err, Some, IfNone, IfSome, length};
ghost use Rattle.rlsf_base.specs.Addr.{at};
ghost use Rattle.rlsf_flex.specs.StandsFor.{FlexStandsFor};
ghost use Rattle.rlsf_global.specs.Locked.{heap_of};
ghost use Rattle.rlsf_model_global.specs.Pages.{MayOwe};
ghost use Rattle.rlsf_global.specs.Memory.{BoundsOnResize};
ghost use Rattle.rlsf_global.specs.Steps.Moves.{IsGivenLayout, KeepsMoving, KeepsResizing, ResizesWithAnyRows, StaysRefused};
ghost use Rattle.rlsf_model.specs.Allocate.{HasRoomFor};
ghost use Rattle.rlsf_model.specs.Callers.{align_at, bytes_at};
ghost use Rattle.rlsf_model_global.specs.declared.error.GlobalError.TheVariants.{NoRoom};
ghost use Rattle.rlsf_model_global.specs.Cursor.{terms_of};
ghost use Rattle.rlsf_model_global.specs.Moves.{HeapMovesAway, ReallocatesTo};
ghost use Rattle.rlsf_model_global.specs.Rows.{Row, put, without_row};

use rlsf_base::memory::{Addr, Layout};
use rlsf_flex::{FlexTlsf, GlobalTlsfOptions, Source};

/// The allocator over the page source.
pub(crate) type PagedTlsf<Options> = FlexTlsf<Source<Options>, usize, usize, 64, 64>;

/// Moves a payload, with its first `keep` bytes, into a new one, which is allocated for a layout while the old one is still live. Then
/// deallocates the old one.
pub(crate) fn move_away<Options: GlobalTlsfOptions>(
    flex: &mut PagedTlsf<Options>,
    addr: Addr,
    align: usize,
    keep: usize,
    wanted: Layout,
) -> Option<Addr>
    requires live { align_at flex.old.state.machine (at addr) ≡ Some align }
    requires old { keep ≤ length (bytes_at flex.old.state.machine (at addr)) }
    requires new { keep ≤ wanted.size }
    ensures step { IfSome result (λ to. (rows : List Row) → HeapMovesAway (heap_of flex.old rows) (at addr) keep wanted (Ok to)
        (heap_of flex.new (put (to, wanted) (without_row (at addr) rows)))) }
    ensures moved { IfSome result (λ to. IsGivenLayout flex.old flex.new (at addr) wanted (at to)) }
    ensures none { IfNone result ((rows : List Row) → HeapMovesAway (heap_of flex.old rows) (at addr) keep wanted (Err NoRoom) (heap_of flex.new rows)) }
    ensures refused { IfNone result (StaysRefused flex.old flex.new) }
    ensures touches { HasRoomFor 64 flex.old.state.machine wanted.size wanted.align → flex.new.memory.touches ≤ flex.old.memory.touches + 59 }
    ensures frame { KeepsMoving flex.old flex.new keep result }
{
    let to = flex.allocate(wanted)?;
    flex.copy_payload(addr, to, keep);
    flex.deallocate(addr, align);
    Some(to)
}

/// Changes the size of a payload of a layout. The allocator reallocates it, or, if that isn't enabled, it moves into a new payload.
pub(crate) fn resize<Options: GlobalTlsfOptions>(
    flex: &mut PagedTlsf<Options>,
    addr: Addr,
    layout: Layout,
    wanted: Layout,
) -> Option<Addr>
    requires live { align_at flex.old.state.machine (at addr) ≡ Some layout.align }
    requires sized { layout.size ≤ length (bytes_at flex.old.state.machine (at addr)) }
    requires aligned { wanted.align ≡ layout.align }
    requires stands { FlexStandsFor 64 64 terms_of MayOwe flex.old }
    ensures step { IfSome result (λ to. ResizesWithAnyRows Options.ENABLE_REALLOCATION flex.old flex.new (at addr) layout wanted to) }
    ensures moved { IfSome result (λ to. IsGivenLayout flex.old flex.new (at addr) wanted (at to)) }
    ensures none { IfNone result ((rows : List Row) → ReallocatesTo Options.ENABLE_REALLOCATION (heap_of flex.old rows) (at addr) layout wanted (Err NoRoom)
        (heap_of flex.new rows)) }
    ensures refused { IfNone result (StaysRefused flex.old flex.new) }
    ensures touches { BoundsOnResize Options.ENABLE_REALLOCATION flex.old.state.machine (at addr) wanted.size wanted.align flex.old.memory flex.new.memory }
    ensures frame { KeepsResizing Options.ENABLE_REALLOCATION flex.old flex.new (at addr) layout.size wanted.size }
{
    if Options::ENABLE_REALLOCATION {
        flex.reallocate(addr, wanted)
    } else {
        let keep = layout.size().min(wanted.size());
        move_away(flex, addr, layout.align(), keep, wanted)
    }
}
