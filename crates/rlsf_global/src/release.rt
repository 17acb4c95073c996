//! Deallocation of a payload together with its entry.

ghost use Rattle.std.specs.Prelude.{◌≡◌, ◌≤◌, ◌+◌, Some};
ghost use Rattle.rlsf_base.specs.Addr.{at};
ghost use Rattle.rlsf_global.specs.Locked.{IsListed, heap_of, locked_contents};
ghost use Rattle.rlsf_global.specs.Results.{HeapDeallocated, KeepsLocked};
ghost use Rattle.rlsf_model_global.specs.Rows.{row_at};
ghost use Rattle.rlsf_model_global.specs.Steps.{Releases};

use crate::live_table::LiveTable;
use crate::moves::PagedTlsf;
use rlsf_base::memory::{Addr, Layout};
use rlsf_flex::GlobalTlsfOptions;

/// Deallocates the payload of an entry, and removes the entry. One code is written, and counted.
pub(crate) fn release<Options: GlobalTlsfOptions>(
    flex: &mut PagedTlsf<Options>,
    table: &mut LiveTable,
    addr: Addr,
    row: (Addr, Layout),
)
    requires listed { IsListed flex.old table.old }
    requires row { row_at (at addr) table.old.rows ≡ Some row }
    ensures listed { IsListed flex.new table.new }
    ensures step { Releases (heap_of flex.old table.old.rows) (at addr) (heap_of flex.new table.new.rows) }
    ensures result { HeapDeallocated (heap_of flex.old table.old.rows) (heap_of flex.new table.new.rows) (at addr) }
    ensures frame { KeepsLocked (locked_contents flex.old table.old) (locked_contents flex.new table.new) }
    ensures looks { table.new.looks ≡ table.old.looks + 1 }
    ensures touches { flex.new.memory.touches ≤ flex.old.memory.touches + 32 }
{
    table.remove(addr);
    flex.deallocate(addr, row.1.align());
}
