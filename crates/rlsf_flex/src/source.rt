//! Sources of memory.

ghost use Rattle.std.specs.Prelude.{◌≡◌, ◌≤◌, ◌<◌, ◌%◌, ◌++◌, ◌∷◌, List, true, MatchOption};
ghost use Rattle.rlsf_base.specs.declared.memory.range.Range.{Range};
ghost use Rattle.rlsf_model.specs.Note.{Note, alloc, dealloc, grow};
ghost use Rattle.rlsf_model.specs.Terms.{IsGiven, OwesGrown, Terms};

use rlsf_base::memory::Range;

/// A source of memory: it provides ranges of its space, and may grow them or take them back.
///
/// Its meaning has three parts:
///
/// - `terms` is its space and its capabilities, which never change.
/// - `owes` holds of the lists of ranges that may be outstanding.
/// - `leads` relates a question and its answer to the source before and after.
///
/// If the answer is `None`, the outstanding ranges are unchanged. An allocator over the source is correct whatever length the source
/// provides, and whenever it refuses.
pub trait FlexSource {
    ghost terms: { Self → Terms };

    ghost owes: { Self → List Range → Type 0 };

    ghost leads: { Self → Note → Self → Type 0 };

    /// Returns a new range of at least `min_size` bytes. It overlaps no outstanding range, and starts at a multiple of `min_align`. It is
    /// then outstanding.
    ///
    /// `min_size` is a multiple of 32 and not 0.
    fn alloc(&mut self, min_size: usize) -> Option<Range>
        requires { (0 < min_size) × (min_size % 32 ≡ 0) }
        ensures leads { leads self.old (alloc min_size result) self.new }
        ensures owes { (owed : List Range) → owes self.old owed
            → MatchOption result (owes self.new owed) (λ r. IsGiven (terms self.old) owed min_size r × owes self.new (r ∷ owed)) };

    /// Grows a range where it is, and returns its new length of at least `min_new_len` bytes. Its new bytes overlap no other outstanding
    /// range.
    ///
    /// The source can grow ranges, the range is outstanding, and `min_new_len` isn't below its length.
    fn realloc_inplace_grow(&mut self, range: Range, min_new_len: usize) -> Option<usize>
        requires supported { (terms self.old).grow ≡ true }
        requires outstanding { (before : List Range) × (after : List Range) × owes self.old (before ++ range ∷ after) }
        requires longer { range.len ≤ min_new_len }
        ensures leads { leads self.old (grow range min_new_len result) self.new }
        ensures owes { (before after : List Range) → owes self.old (before ++ range ∷ after)
            → OwesGrown (terms self.old) (owes self.new) before range after min_new_len result };

    /// Takes a range back. It is then no longer outstanding.
    ///
    /// The source takes ranges back, and the range is outstanding.
    fn dealloc(&mut self, range: Range)
        requires supported { (terms self.old).dealloc ≡ true }
        requires outstanding { (before : List Range) × (after : List Range) × owes self.old (before ++ range ∷ after) }
        ensures leads { leads self.old (dealloc range) self.new }
        ensures owes { (before after : List Range) → owes self.old (before ++ range ∷ after) → owes self.new (before ++ after) };

    /// Returns whether the source takes ranges back.
    fn supports_dealloc(&self) -> bool
        ensures { result ≡ (terms self.now).dealloc };

    /// Returns whether the source can grow a range where it is.
    fn supports_realloc_inplace_grow(&self) -> bool
        ensures { result ≡ (terms self.now).grow };

    /// Returns whether the source is contiguous: its memory is one range that grows. Then no other range is asked for after a refused
    /// growth.
    fn is_contiguous_growable(&self) -> bool
        ensures { result ≡ (terms self.now).contiguous };

    /// Returns the alignment of the starts of the ranges: a power of two.
    fn min_align(&self) -> usize
        ensures { result ≡ (terms self.now).min_align };

    // No question changes the space or a capability.
    ghost constant: { (x y : Self) (n : Note) → leads x n y → terms y ≡ terms x };
}

/// A change of a source that its owner makes. It preserves the space, the capabilities and every list of ranges that may be outstanding.
///
/// Its meaning is a relation of the change, the source before, the result and the source after.
pub trait SourceChange<S: FlexSource> {
    /// The result of the change.
    type Out;

    ghost changes: { Self → S → Self.Out → S → Type 0 };

    /// Makes the change, and returns its result.
    fn change(self, source: &mut S) -> Self::Out
        ensures changes { changes self source.old result source.new }
        ensures terms { S.terms source.new ≡ S.terms source.old }
        ensures owes { (owed : List Range) → S.owes source.old owed → S.owes source.new owed };
}
