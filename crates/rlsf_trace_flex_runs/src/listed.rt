//! A source that answers from a list, and remembers what it was asked.

ghost use Rattle.std.specs.Prelude.{◌≡◌, ◌≤◌, ◌-◌, ◌%◌, [], IfOk, MatchOption};
ghost use Rattle.rlsf_model_sizes.specs.PowerOfTwo.{IsPowerOfTwo};
ghost use Rattle.rlsf_base.specs.Range.{end_of, range_at};
ghost use Rattle.rlsf_trace_flex_runs.specs.Listed.{HandsOut, ListedMayOwe, Remembers, remembered, terms_in};

use crate::ranges::hand_out;
use rlsf_base::memory::Range;
use rlsf_flex::FlexSource;
use std::alloc::{AllocError, Global};
use std::marker::Model;

/// What a source is to answer.
#[derive(Clone, Copy)]
pub enum SourceAnswer {
    /// No memory.
    None,
    /// A new range.
    Range(Range),
    /// The new length of a range.
    Len(usize),
}

/// A question that a source was asked, and its answer.
#[derive(Clone, Copy, PartialEq, Eq)]
pub enum Question {
    /// A new range of so many bytes.
    Alloc(usize, Option<Range>),
    /// Growth of a range to so many bytes.
    Grow(Range, usize, Option<usize>),
    /// A range returns to the source.
    Dealloc(Range),
}

/// What a source can do.
#[derive(Clone, Copy)]
pub struct Capabilities {
    /// Whether it takes ranges back.
    pub dealloc: bool,
    /// Whether it grows ranges.
    pub grow: bool,
    /// Whether it is one range that grows.
    pub contiguous: bool,
    /// What its ranges' starts are multiples of.
    pub min_align: usize,
}

/// A source that answers from a list, in order: each question for a range or for growth takes the next answer.
///
/// A question past the list's end gets the answer none. So does one whose next answer isn't allowed:
///
/// - an answer of the other kind;
/// - a range that doesn't lie in the space, overlaps what was provided before, is too short, or doesn't start at a multiple of
///   `min_align`;
/// - a length that is too short, or whose new bytes don't lie in the space or overlap what was provided before.
///
/// A range that was returned still counts as provided, and isn't provided again.
#[derive(Drop)]
pub struct ListedSource {
    space: Range,
    capabilities: Capabilities,
    answers: Vec<SourceAnswer>,
    next: usize,
    asked: Vec<Question>,
    room: usize,
    taken: Vec<Range>,
}

impl Model for ListedSource {
    ghost use Rattle.std.specs.Prelude.{◌≤◌};
    ghost use Rattle.std.specs.Vec.{vec_capacity};
    ghost use Rattle.rlsf_model_sizes.specs.PowerOfTwo.{IsPowerOfTwo};
    ghost use Rattle.rlsf_trace_flex_runs.specs.Listed.{Listed, terms_in};

    ghost Value = { Listed };

    ghost view = { λ s. record {
      terms = terms_in s.space s.capabilities;
      taken = s.taken.items;
      room = s.room;
      asked = s.asked.items;
    } };

    ghost invariant = { λ s. IsPowerOfTwo s.capabilities.min_align × (s.room ≤ vec_capacity s.asked) };
}

impl ListedSource {
    /// A source of the space with these answers, or an error if the system is out of memory.
    ///
    /// Reserves room for so many questions and ranges. A later question gets the answer none, and isn't remembered.
    pub fn new(
        alloc: Global,
        space: Range,
        capabilities: Capabilities,
        answers: Vec<SourceAnswer>,
        questions: usize,
    ) -> Result<ListedSource, AllocError>
        requires power { IsPowerOfTwo capabilities.min_align }
        ensures terms { IfOk result (λ source. source.terms ≡ terms_in space capabilities) }
        ensures owed { IfOk result (λ source. ListedMayOwe source []) }
        ensures room { IfOk result (λ source. source.room ≡ questions) }
        ensures asked { IfOk result (λ source. source.asked ≡ []) }
    {
        let asked = Vec::with_capacity(alloc, questions)?;
        let taken = Vec::with_capacity(alloc, questions)?;
        Ok(ListedSource {
            space,
            capabilities,
            answers,
            next: 0,
            asked,
            room: questions,
            taken,
        })
    }

    /// What it was asked so far, in order: all that there was room for.
    pub fn asked(&self) -> &[Question]
        ensures { result.now ≡ self.now.asked }
    {
        &self.asked
    }

    /// The next answer of the list, or none where there is no room for a question.
    fn next_answer(&mut self) -> SourceAnswer
        ensures { self.new ≡ self.old }
    {
        if self.asked.len() >= self.room {
            return SourceAnswer::None;
        }
        let answer = self.answers.get(self.next).copied();
        self.next = self.next.saturating_add(1);
        answer.unwrap_or(SourceAnswer::None)
    }

    /// Remembers a question, if there is room for it.
    fn remember(&mut self, question: Question)
        ensures { self.new ≡ record self.old { asked = remembered self.old.room self.old.asked question } }
    {
        if self.asked.len() < self.room {
            self.asked.push_reserved(question);
        }
    }

    /// Provides the next answer, if it is a range that is allowed.
    fn given(&mut self, min_size: usize) -> Option<Range>
        ensures { MatchOption result (self.new ≡ self.old) (λ r. HandsOut self.old r self.new × (min_size ≤ r.len) × IsPowerOfTwo self.old.terms.min_align × (r.start % self.old.terms.min_align ≡ 0)) }
    {
        let SourceAnswer::Range(range) = self.next_answer() else {
            return None;
        };
        if range.len < min_size || range.start % self.capabilities.min_align != 0 {
            return None;
        }
        if hand_out(&mut self.taken, self.space, range) {
            Some(range)
        } else {
            None
        }
    }

    /// Provides the next answer, if it is a length that is allowed: the bytes behind the range.
    fn grown(&mut self, range: Range, min_new_len: usize) -> Option<usize>
        requires { range.len ≤ min_new_len }
        ensures { MatchOption result (self.new ≡ self.old) (λ len. HandsOut self.old (range_at (end_of range) (len - range.len)) self.new × (min_new_len ≤ len)) }
    {
        let SourceAnswer::Len(len) = self.next_answer() else {
            return None;
        };
        let start = range.start.checked_add(range.len)?;
        if len < min_new_len {
            return None;
        }
        let len_behind = len - range.len;
        let behind = Range {
            start,
            len: len_behind,
        };
        if hand_out(&mut self.taken, self.space, behind) {
            Some(len)
        } else {
            None
        }
    }
}

impl FlexSource for ListedSource {
    ghost terms = { λ s. s.terms };

    ghost owes = { ListedMayOwe };

    ghost leads = { Remembers };

    fn alloc(&mut self, min_size: usize) -> Option<Range> {
        let given = self.given(min_size);
        self.remember(Question::Alloc(min_size, given));
        given
    }

    fn realloc_inplace_grow(&mut self, range: Range, min_new_len: usize) -> Option<usize> {
        let grown = self.grown(range, min_new_len);
        self.remember(Question::Grow(range, min_new_len, grown));
        grown
    }

    fn dealloc(&mut self, range: Range) {
        self.remember(Question::Dealloc(range));
    }

    fn supports_dealloc(&self) -> bool {
        self.capabilities.dealloc
    }

    fn supports_realloc_inplace_grow(&self) -> bool {
        self.capabilities.grow
    }

    fn is_contiguous_growable(&self) -> bool {
        self.capabilities.contiguous
    }

    fn min_align(&self) -> usize {
        self.capabilities.min_align
    }

    ghost constant = { λ x y n led. led.terms };
}
