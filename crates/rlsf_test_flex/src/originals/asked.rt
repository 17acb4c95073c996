//! The original's two sources: what they answer, and what they are asked.

ghost use Rattle.rlsf_model_sizes.specs.PowerOfTwo.{IsPowerOfTwo};

use super::START;
use rlsf_base::memory::Range;
use rlsf_trace_flex_runs::{Capabilities, Question, SourceAnswer};
use std::process::Abort;

/// A source of the original's tests.
#[derive(Clone, Copy)]
pub enum Source {
    /// `GlobalAllocAsFlexSource` of the system's allocator with 1024: takes ranges back, whose lengths are multiples of 1024.
    System,
    /// `CgFlexSource`: what follows so many bytes of a vector of 32768, in one range that grows, as long as asked.
    Contiguous(usize),
}

impl Source {
    pub fn space(self) -> Range {
        let len = match self {
            Source::System => 2097152,
            Source::Contiguous(_) => 32768,
        };
        Range { start: START, len }
    }

    pub fn capabilities(self) -> Capabilities
        ensures { IsPowerOfTwo result.min_align }
    {
        match self {
            Source::System => Capabilities {
                dealloc: true,
                grow: false,
                contiguous: false,
                min_align: 1024,
            },
            Source::Contiguous(_) => Capabilities {
                dealloc: false,
                grow: true,
                contiguous: true,
                min_align: 1,
            },
        }
    }
}

/// What a source answers, and what it is asked, up to the end.
#[derive(Drop)]
pub struct Asked {
    pub answers: Vec<SourceAnswer>,
    pub questions: Vec<Question>,
}

impl Asked {
    /// What the source answers where it is asked for so many bytes each time.
    pub fn new(rt: &(impl Abort + AllocGlobal), source: Source, sizes: &[u32]) -> Asked {
        let mut asked = Asked {
            answers: Vec::new(rt.alloc()),
            questions: Vec::new(rt.alloc()),
        };
        match source {
            Source::System => asked.add_ranges(rt, sizes),
            Source::Contiguous(skipped) => asked.add_growth(rt, skipped, sizes),
        }
        asked
    }

    /// Ranges one behind another, each of which returns at the end, the newest first.
    fn add_ranges(&mut self, rt: &(impl Abort + AllocGlobal), sizes: &[u32]) {
        let mut ranges = Vec::new(rt.alloc());
        let mut start = START;
        for size in sizes {
            let size = *size as usize;
            let len = size.wrapping_add(1023) / 1024 * 1024;
            let range = Range { start, len };
            self.add(
                rt,
                Question::Alloc(size, Some(range)),
                SourceAnswer::Range(range),
            );
            ranges.push(range).expect(rt, "memory");
            start = start.wrapping_add(len);
        }
        for range in ranges.iter().rev() {
            let question = Question::Dealloc(*range);
            self.questions.push(question).expect(rt, "memory");
        }
    }

    /// A range that grows while there is room behind it.
    fn add_growth(&mut self, rt: &impl Abort, skipped: usize, sizes: &[u32]) {
        let start = START.wrapping_add(skipped);
        let mut len = 0;
        for size in sizes {
            let size = *size as usize;
            let new = if size <= 32768usize.saturating_sub(skipped) {
                Some(size)
            } else {
                None
            };
            let range = Range { start, len };
            if len == 0 {
                let given = new.map(|len| Range { start, len });
                let answer = given.map_or(SourceAnswer::None, SourceAnswer::Range);
                self.add(rt, Question::Alloc(size, given), answer);
            } else {
                let answer = new.map_or(SourceAnswer::None, SourceAnswer::Len);
                self.add(rt, Question::Grow(range, size, new), answer);
            }
            len = new.unwrap_or(len);
        }
    }

    fn add(&mut self, rt: &impl Abort, question: Question, answer: SourceAnswer) {
        self.questions.push(question).expect(rt, "memory");
        self.answers.push(answer).expect(rt, "memory");
    }
}
