//! The end: the ranges are returned to their source.

ghost use Rattle.std.specs.Prelude.{◌≡◌, ◌+◌, ◌<◌, ◌≤◌, ◌^◌, true, List, [], ◌∷◌, map};
ghost use Rattle.std.specs.Option.{option_map};
ghost use Rattle.rlsf_base.specs.declared.memory.range.Range.{Range};
ghost use Rattle.rlsf_base.specs.Range.{end_of};
ghost use Rattle.rlsf_base.specs.Space.{IsWord};
ghost use Rattle.rlsf_flex.specs.Footers.{AreSpelled, Footers, first, footer_of};
ghost use Rattle.rlsf_model.specs.Lists.{IsIn};
ghost use Rattle.rlsf_model.specs.Note.{LeadsBy, dealloc};

use crate::footers::read_footer;
use crate::pool::Pool;
use crate::source::FlexSource;
use rlsf_base::memory::{Memory, Range};

/// Returns the range of the kept pool.
pub(crate) fn newest_range(kept: Option<Pool>) -> Option<Range>
    ensures { result ≡ option_map (λ p. p.range) kept }
{
    kept.map(|pool| pool.range)
}

/// Returns the range that the footer of a range names, if there is one.
pub(crate) fn range_before(memory: &Memory, range: Range) -> Option<Range>
    requires range { (16 ≤ end_of range) × (end_of range < 2 ^ 64) }
    requires words { IsWord memory.now (footer_of range) × IsWord memory.now (footer_of range + 8) }
    ensures { (rest : List Range) → Footers memory.now (range ∷ rest) → ((p : Range) → IsIn p rest → 0 < p.start) → result ≡ first rest }
{
    let (start, len) = read_footer(memory, range);
    if start == 0 {
        None
    } else {
        Some(Range { start, len })
    }
}

/// Returns the ranges to the source, from the newest on. Each footer is read before its range is returned.
pub(crate) fn give_back<S: FlexSource>(memory: &Memory, source: &mut S, newest: Option<Range>)
    requires supported { (S.terms source.old).dealloc ≡ true }
    requires outstanding { (pools : List Range) × AreSpelled memory.now newest pools × S.owes source.old pools }
    ensures end { (pools : List Range) → AreSpelled memory.now newest pools → S.owes source.old pools
        → LeadsBy S.leads source.old (map dealloc pools) source.new × S.owes source.new [] }
    ensures terms { S.terms source.new ≡ S.terms source.old }
{
    let mut next = newest;
    while let Some(range) = next {
        next = range_before(memory, range);
        source.dealloc(range);
    }
}
