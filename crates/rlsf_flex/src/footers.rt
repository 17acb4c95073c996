//! The footers of ranges. If a source takes ranges back, each footer names the range that came before.

ghost use Rattle.std.specs.Prelude.{◌≡◌, ◌≤◌, ◌<◌, ◌^◌, ◌+◌, []};
ghost use Rattle.rlsf_blocks.specs.Spare.{IsSpareWord};
ghost use Rattle.rlsf_tlsf.specs.Allocator.{Stands};
ghost use Rattle.rlsf_base.specs.Range.{end_of};
ghost use Rattle.rlsf_base.specs.Space.{word_at, IsWord};
ghost use Rattle.rlsf_flex.specs.Footers.{footer_of, WritesFooter};
ghost use Rattle.rlsf_flex.specs.Steps.Footing.{IsFooted};

use rlsf_base::memory::{Memory, Range};
use rlsf_tlsf::Tlsf;

/// Returns the address of the footer of a range.
fn footer_at(range: Range) -> usize
    requires { (16 ≤ end_of range) × (end_of range < 2 ^ 64) }
    ensures { result ≡ footer_of range }
{
    (range.start + range.len - 16) / 8 * 8
}

/// Returns the start and the length that the footer of a range names.
pub(crate) fn read_footer(memory: &Memory, range: Range) -> (usize, usize)
    requires range { (16 ≤ end_of range) × (end_of range < 2 ^ 64) }
    requires words { IsWord memory.now (footer_of range) × IsWord memory.now (footer_of range + 8) }
    ensures { (result.0 ≡ word_at memory.now (footer_of range)) × (result.1 ≡ word_at memory.now (footer_of range + 8)) }
{
    let footer = footer_at(range);
    (
        memory.word(footer) as usize,
        memory.word(footer + 8) as usize,
    )
}

/// Writes the footer of a range.
///
/// Its two words are spare, and no byte of the memory is out.
pub(crate) fn write_footer<const FLLEN: usize, const SLLEN: usize>(
    tlsf: &mut Tlsf<u128, u128, FLLEN, SLLEN>,
    range: Range,
    start: usize,
    len: usize,
)
    requires range { (16 ≤ end_of range) × (end_of range < 2 ^ 64) }
    requires spare { IsSpareWord tlsf.old.memory tlsf.old.state (footer_of range) × IsSpareWord tlsf.old.memory tlsf.old.state (footer_of range + 8) }
    requires whole { tlsf.old.memory.out ≡ [] }
    ensures footer { WritesFooter tlsf.old.memory tlsf.new.memory range start len }
    ensures state { tlsf.new.state ≡ tlsf.old.state }
    ensures stands { Stands FLLEN SLLEN tlsf.new }
    ensures grow { tlsf.old.memory.touches ≤ tlsf.new.memory.touches }
    ensures copied { tlsf.new.memory.copied ≡ tlsf.old.memory.copied }
{
    let footer = footer_at(range);
    tlsf.set_spare_word(footer, start as u64);
    tlsf.set_spare_word(footer + 8, len as u64);
}

/// Writes the footer of a range, as `write_footer` does, if its source takes ranges back. Else nothing changes.
///
/// Its two words are spare, and no byte of the memory is out.
pub(crate) fn write_footer_if<const FLLEN: usize, const SLLEN: usize>(
    takes_back: bool,
    tlsf: &mut Tlsf<u128, u128, FLLEN, SLLEN>,
    range: Range,
    start: usize,
    len: usize,
)
    requires range { (16 ≤ end_of range) × (end_of range < 2 ^ 64) }
    requires spare { IsSpareWord tlsf.old.memory tlsf.old.state (footer_of range) × IsSpareWord tlsf.old.memory tlsf.old.state (footer_of range + 8) }
    requires whole { tlsf.old.memory.out ≡ [] }
    requires stands { Stands FLLEN SLLEN tlsf.old }
    ensures footer { IsFooted takes_back tlsf.old.memory tlsf.new.memory range start len }
    ensures state { tlsf.new.state ≡ tlsf.old.state }
    ensures stands { Stands FLLEN SLLEN tlsf.new }
    ensures grow { tlsf.old.memory.touches ≤ tlsf.new.memory.touches }
    ensures copied { tlsf.new.memory.copied ≡ tlsf.old.memory.copied }
{
    if !takes_back {
        return;
    }
    write_footer(tlsf, range, start, len);
}
