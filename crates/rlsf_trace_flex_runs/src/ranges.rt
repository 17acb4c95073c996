//! Ranges that were provided.

ghost use Rattle.std.specs.Prelude.{◌≡◌, ◌≤◌, ◌⊎◌, ◌∷◌, ◌++◌, [], IsTrue, IsFalse};
ghost use Rattle.rlsf_base.specs.Range.{end_of, LiesIn};
ghost use Rattle.rlsf_model.specs.Insert.{IsClear};

use rlsf_base::memory::Range;

/// Whether a range ends where another begins, or before.
fn ends_before(one: Range, other: Range) -> bool
    ensures { IsTrue result → end_of one ≤ other.start }
{
    one.start <= other.start && one.len <= other.start - one.start
}

/// Whether one range ends where the other begins, or before.
fn are_apart(one: Range, other: Range) -> bool
    ensures { IsTrue result → (end_of one ≤ other.start) ⊎ (end_of other ≤ one.start) }
{
    ends_before(one, other) || ends_before(other, one)
}

/// Whether a range overlaps none of those that were provided.
fn is_clear(range: Range, taken: &[Range]) -> bool
    ensures { IsTrue result → IsClear range taken.now }
{
    taken.iter().all(|other| are_apart(range, *other))
}

/// Notes that a range is provided, and returns whether it is. It has to lie in the space, and to overlap no range provided before.
pub(crate) fn hand_out(taken: &mut Vec<Range>, space: Range, range: Range) -> bool
    ensures given { IsTrue result → LiesIn range space.start space.len × IsClear range taken.old.items × (taken.new.items ≡ taken.old.items ++ range ∷ []) }
    ensures refused { IsFalse result → taken.new.items ≡ taken.old.items }
{
    if !range.lies_in(space) {
        return false;
    }
    if !is_clear(range, taken) {
        return false;
    }
    taken.push(range).is_ok()
}
