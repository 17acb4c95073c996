//! The entries of a table of live payloads: their codes and the lengths of the payloads determine them.

ghost use Rattle.std.specs.Prelude.{◌≡◌, ◌≤◌, [], length};
ghost use Rattle.std.specs.Vec.{vec_capacity};
ghost use Rattle.rlsf_base.specs.Addr.{at};
ghost use Rattle.rlsf_base.specs.declared.memory.layout.Layout.{Layout};
ghost use Rattle.rlsf_global.specs.LiveRows.{IsToldBy, looked};
ghost use Rattle.rlsf_model_global.specs.Heap.{Lists};
ghost use Rattle.rlsf_model_global.specs.Rows.{row_at};

use crate::live_table::LiveTable;
use crate::moves::PagedTlsf;
use rlsf_base::memory::{Addr, Layout};
use rlsf_flex::GlobalTlsfOptions;

/// Returns the entry of an address, if it has one. One code is read, and counted.
pub(crate) fn row_of<Options: GlobalTlsfOptions>(
    flex: &PagedTlsf<Options>,
    table: &mut LiveTable,
    addr: Addr,
) -> Option<(Addr, Layout)>
    requires lists { Lists table.old.rows flex.now.state.machine }
    ensures row { result ≡ row_at (at addr) table.old.rows }
    ensures table { table.new ≡ looked table.old }
{
    let code = table.look(addr);
    if code == 0 {
        return None;
    }
    Some((addr, layout_of(code, flex.allocation_usable_size(addr))))
}

/// Returns the layout whose code this is, of a payload with so many bytes.
fn layout_of(code: u16, usable: usize) -> Layout
    requires { (l : Layout) × IsToldBy code usable l }
    ensures { (l : Layout) → IsToldBy code usable l → result ≡ l }
{
    let low = (code - 1) % 32;
    let align = 1 << ((code - 1) / 32);
    let size = usable - (usable - low as usize) % 32;
    Layout::from_size_align_unchecked(size, align)
}

/// Returns the entries in the order of their addresses, in an empty `Vec` with room for all. It asks for no memory.
pub(crate) fn rows_of<Options: GlobalTlsfOptions>(
    flex: &PagedTlsf<Options>,
    table: LiveTable,
    mut rows: Vec<(Addr, Layout)>,
) -> Vec<(Addr, Layout)>
    requires lists { Lists table.rows flex.now.state.machine }
    requires none { rows.items ≡ [] }
    requires room { length table.rows ≤ vec_capacity rows }
    ensures { result.items ≡ table.rows }
{
    let codes = table.into_codes();
    for place in 0..codes.len() {
        let code = codes.code(place);
        if code == 0 {
            continue;
        }
        let Some(addr) = Addr::new(codes.addr(place)) else {
            continue;
        };
        rows.push_reserved((addr, layout_of(code, flex.allocation_usable_size(addr))));
    }
    rows
}
