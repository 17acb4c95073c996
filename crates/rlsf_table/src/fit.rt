//! The search for a free block of the first class that reaches a size.

ghost use Rattle.std.specs.Prelude.{List};
ghost use Rattle.rlsf_base.specs.declared.memory.range.Range.{Range};
ghost use Rattle.rlsf_model_sizes.specs.SizeClass.{IsValid};
ghost use Rattle.rlsf_model_sizes.specs.Sizes.{IsSize};
ghost use Rattle.rlsf_table.specs.Counts.{Counts};
ghost use Rattle.rlsf_table.specs.FreeTable.{IsFirstFit, IsFreeTable};

use crate::table::{ClassIndex, ClassTable};
use rlsf_base::classes::search_start;
use rlsf_base::memory::OpenMemory;

/// A free block that a search found.
#[derive(Clone, Copy)]
pub struct FoundBlock {
    /// The address at which it begins.
    pub start: usize,
    /// Its class.
    pub class: ClassIndex,
}

/// Returns the newest free block of the first class that reaches a size in bytes. Returns `None` exactly if no block's class
/// reaches it. At most 4 touches.
///
/// The size must be a multiple of 32 and not 0. Table and memory must encode a list of free blocks.
pub fn first_fit<const FLLEN: usize, const SLLEN: usize>(
    memory: &mut OpenMemory,
    table: &ClassTable<FLLEN, SLLEN>,
    size: usize,
) -> Option<FoundBlock>
    requires parameters { IsValid 128 128 FLLEN SLLEN }
    requires size { IsSize size }
    requires list { (free : List Range) × IsFreeTable FLLEN SLLEN memory.old table.now free }
    ensures choice { (free : List Range) → IsFreeTable FLLEN SLLEN memory.old table.now free → IsFirstFit FLLEN SLLEN size free result }
    ensures counts { Counts memory.old memory.new 4 }
{
    let (fl, sl) = search_start::<FLLEN, SLLEN>(size)?;
    let class = table.first_from(memory, fl, sl)?;
    Some(FoundBlock {
        start: table.head(memory, class.fl, class.sl),
        class,
    })
}
