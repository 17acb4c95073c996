//! A source that provides its space from a cursor on, as its terms say, and remembers what it was asked.

ghost use Rattle.std.specs.Prelude.{◌≡◌, ◌<◌, ◌≤◌, ◌+◌, ◌%◌, ◌^◌, [], IfSome};
ghost use Rattle.rlsf_model_sizes.specs.PowerOfTwo.{IsPowerOfTwo};
ghost use Rattle.rlsf_base.specs.Range.{end_of};
ghost use Rattle.rlsf_test_flex.specs.Cursor.{KeepsTerms, CursorMayOwe};

use rlsf_base::memory::Range;
use rlsf_flex::FlexSource;
use std::cell::Cell;
use std::marker::Model;

/// What a source was asked.
#[derive(Clone, Copy, PartialEq, Eq)]
pub enum Question {
    /// Nothing.
    None,
    /// A range of so many bytes.
    Alloc(usize),
    /// Growth of the range of that start and length to so many bytes.
    Grow(usize, usize, usize),
    /// To take the range of that start and length back.
    Dealloc(usize, usize),
    /// An address for that size and alignment.
    AllocLayout(usize, usize),
    /// To take the address with that size and alignment back.
    DeallocLayout(usize, usize, usize),
}

/// How a source behaves.
#[derive(Clone, Copy)]
pub struct Habits {
    /// Whether it takes ranges back.
    pub dealloc: bool,
    /// Whether it grows ranges.
    pub grow: bool,
    /// Whether it is one range that grows.
    pub contiguous: bool,
    /// What its ranges' starts are multiples of.
    pub min_align: usize,
    /// How many bytes more than requested it provides.
    pub extra: usize,
    /// Whether it refuses all.
    pub refuses: bool,
}

/// A source that neither grows ranges nor takes them back.
pub const NEITHER: Habits = Habits {
    dealloc: false,
    grow: false,
    contiguous: false,
    min_align: 32,
    extra: 0,
    refuses: false,
};

/// The first eight questions.
#[derive(Clone, Copy)]
pub struct Questions {
    asked: [Question; 8],
    count: usize,
}

impl Questions {
    /// No question yet.
    pub fn new() -> Questions {
        Questions {
            asked: [Question::None; 8],
            count: 0,
        }
    }

    /// These questions, in the places behind which there is none.
    pub fn asked(self) -> [Question; 8] {
        self.asked
    }

    /// These questions and one more, if there is a place for it.
    pub fn with(self, question: Question) -> Questions {
        let mut asked = self.asked;
        if self.count < 8 {
            asked[self.count] = question;
        }
        Questions {
            asked,
            count: self.count.saturating_add(1),
        }
    }
}

/// A source that provides its space from a cursor on. What it is asked can be read after it was dropped.
#[derive(Drop)]
pub struct CursorSource<'a> {
    space: Range,
    habits: Habits,
    at: usize,
    seen: &'a Cell<Questions>,
}

impl<'a> Model for CursorSource<'a> {
    ghost use Rattle.rlsf_test_flex.specs.Cursor.{Cursor, IsCursor};

    ghost Value = { Cursor };

    ghost view = { λ c. record {
      terms = record { space = c.space; dealloc = c.habits.dealloc; grow = c.habits.grow; contiguous = c.habits.contiguous; min_align = c.habits.min_align };
      at = c.at;
    } };

    ghost invariant = { λ c. IsCursor (record {
      terms = record { space = c.space; dealloc = c.habits.dealloc; grow = c.habits.grow; contiguous = c.habits.contiguous; min_align = c.habits.min_align };
      at = c.at;
    }) };
}

impl<'a> CursorSource<'a> {
    /// A source of the space.
    pub fn new(space: Range, habits: Habits, seen: &'a Cell<Questions>) -> CursorSource<'a>
        requires addressable { end_of space < 2 ^ 64 }
        requires power { IsPowerOfTwo habits.min_align }
        ensures value { result ≡ record {
          terms = record { space = space; dealloc = habits.dealloc; grow = habits.grow; contiguous = habits.contiguous; min_align = habits.min_align };
          at = space.start;
        } }
        ensures owed { CursorMayOwe result [] }
    {
        CursorSource {
            space,
            habits,
            at: space.start,
            seen,
        }
    }

    /// What it was asked so far: the first eight questions.
    pub fn asked(&self) -> [Question; 8] {
        self.seen.get().asked()
    }

    /// Remembers a question.
    fn remember(&mut self, question: Question)
        ensures { self.new ≡ self.old }
    {
        self.seen.set(self.seen.get().with(question));
    }

    /// The first multiple of the least alignment from the cursor on.
    #[tactic(auto, using(crate::proofs::Cursors::positive))]
    fn next_start(&self) -> Option<usize>
        ensures { IfSome result (λ start. (self.now.at ≤ start) × (start % self.now.terms.min_align ≡ 0)) }
    {
        let align = self.habits.min_align;
        let start = self.at.checked_next_multiple_of(align)?;
        if self.at <= start && start % align == 0 {
            Some(start)
        } else {
            None
        }
    }

    /// The end of `len` bytes more than asked from a start on, if the space has them.
    fn end(&self, start: usize, len: usize) -> Option<usize>
        ensures { IfSome result (λ end. (end ≡ start + len) × (end ≤ end_of self.now.terms.space)) }
    {
        let end = start.checked_add(len)?;
        if end <= self.space.start + self.space.len {
            Some(end)
        } else {
            None
        }
    }
}

impl<'a> FlexSource for CursorSource<'a> {
    ghost terms = { λ c. c.terms };

    ghost owes = { CursorMayOwe };

    ghost leads = { KeepsTerms };

    fn alloc(&mut self, min_size: usize) -> Option<Range> {
        self.remember(Question::Alloc(min_size));
        if self.habits.refuses {
            return None;
        }
        let start = self.next_start()?;
        let len = min_size.checked_add(self.habits.extra)?;
        let end = self.end(start, len)?;
        self.at = end;
        Some(Range { start, len })
    }

    fn realloc_inplace_grow(&mut self, range: Range, min_new_len: usize) -> Option<usize> {
        self.remember(Question::Grow(range.start, range.len, min_new_len));
        if self.habits.refuses || range.start + range.len != self.at {
            return None;
        }
        let len = min_new_len.checked_add(self.habits.extra)?;
        let end = self.end(range.start, len)?;
        self.at = end;
        Some(len)
    }

    fn dealloc(&mut self, range: Range) {
        self.remember(Question::Dealloc(range.start, range.len));
    }

    fn supports_dealloc(&self) -> bool {
        self.habits.dealloc
    }

    fn supports_realloc_inplace_grow(&self) -> bool {
        self.habits.grow
    }

    fn is_contiguous_growable(&self) -> bool {
        self.habits.contiguous
    }

    fn min_align(&self) -> usize {
        self.habits.min_align
    }

    ghost constant = { λ x y n led. led };
}
