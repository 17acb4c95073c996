//! An allocator as a source: what it is asked, and which addresses are allocated in what came.

ghost use Rattle.std.specs.Prelude.{◌≡◌, ◌<◌, ◌≤◌, ◌+◌, ◌%◌, ◌^◌, [], IfSome};
ghost use Rattle.rlsf_model_sizes.specs.PowerOfTwo.{IsPowerOfTwo};
ghost use Rattle.rlsf_base.specs.Range.{end_of};
ghost use Rattle.rlsf_test_flex.specs.HeapCursor.{heap_cursor, KeepsSpace, OwesAllocations};

use crate::cursor::{Question, Questions};
use crate::heaps::{Shaped, Step, first_wrong, is_right};
use rlsf_base::memory::{Addr, Layout, Memory, Range};
use rlsf_flex::{FlexTlsf, GlobalAlloc, GlobalAllocAsFlexSource};
use std::marker::Model;
use std::num::NonZeroUsize;
use std::process::Abort;

/// An allocator that provides its space from a cursor on, and remembers what it was asked.
#[derive(Drop)]
pub struct CursorAlloc {
    space: Range,
    at: usize,
    asked: Questions,
}

impl Model for CursorAlloc {
    ghost use Rattle.rlsf_test_flex.specs.Cursor.{Cursor, IsCursor};
    ghost use Rattle.rlsf_test_flex.specs.HeapCursor.{heap_cursor};

    ghost Value = { Cursor };

    ghost view = { λ c. heap_cursor c.space c.at };

    ghost invariant = { λ c. IsCursor (heap_cursor c.space c.at) };
}

impl CursorAlloc {
    /// An allocator of the space.
    pub fn new(space: Range) -> CursorAlloc
        requires { end_of space < 2 ^ 64 }
        ensures value { result ≡ heap_cursor space space.start }
        ensures owed { OwesAllocations result [] }
    {
        CursorAlloc {
            space,
            at: space.start,
            asked: Questions::new(),
        }
    }

    /// What it was asked so far: the first eight questions.
    pub fn asked(&self) -> [Question; 8] {
        self.asked.asked()
    }

    /// Remembers a question.
    fn remember(&mut self, question: Question)
        ensures { self.new ≡ self.old }
    {
        self.asked = self.asked.with(question);
    }

    /// The first multiple of the alignment from the cursor on.
    #[tactic(auto, using(crate::proofs::Cursors::positive))]
    fn next_start(&self, align: usize) -> Option<usize>
        requires { IsPowerOfTwo align }
        ensures { IfSome result (λ start. (self.now.at ≤ start) × (start % align ≡ 0)) }
    {
        let start = self.at.checked_next_multiple_of(align)?;
        if self.at <= start && start % align == 0 {
            Some(start)
        } else {
            None
        }
    }

    /// The end of so many bytes from a start on, if the space has them.
    fn end(&self, start: usize, size: usize) -> Option<usize>
        ensures { IfSome result (λ end. (end ≡ start + size) × (end ≤ end_of self.now.terms.space)) }
    {
        let end = start.checked_add(size)?;
        if end <= self.space.start + self.space.len {
            Some(end)
        } else {
            None
        }
    }
}

impl GlobalAlloc for CursorAlloc {
    ghost space = { λ c. c.terms.space };

    ghost owes = { OwesAllocations };

    ghost leads = { KeepsSpace };

    fn alloc(&mut self, layout: Layout) -> Option<Addr> {
        let (size, align) = (layout.size(), layout.align());
        self.remember(Question::AllocLayout(size, align));
        let start = self.next_start(align)?;
        let end = self.end(start, size)?;
        let addr = NonZeroUsize::new(start)?;
        self.at = end;
        Some(addr)
    }

    fn dealloc(&mut self, addr: Addr, layout: Layout) {
        self.remember(Question::DeallocLayout(addr.get(), layout.size(), layout.align()));
    }

    ghost constant = { λ x y n led. led };
}

static STEPS: [Step; 2] = [Step::Allocate(1, 4112), Step::Allocate(2000, 5136)];

static ASKED: [Question; 4] = [
    Question::AllocLayout(1024, 1024),
    Question::AllocLayout(3072, 1024),
    Question::DeallocLayout(5120, 3072, 1024),
    Question::DeallocLayout(4096, 1024, 1024),
];

/// An allocator over such an allocator of all addresses of a memory of 4096 bytes.
pub fn over_allocator(
    rt: &(impl Abort + AllocGlobal),
) -> Shaped<GlobalAllocAsFlexSource<CursorAlloc, 1024>> {
    let memory = Memory::new(rt.alloc(), 4096, 4096).expect(rt, "memory");
    let space = Range {
        start: 4096,
        len: 4096,
    };
    FlexTlsf::new(memory, GlobalAllocAsFlexSource(CursorAlloc::new(space)))
}

#[test]
fn an_allocator_is_asked_for_whole_multiples(rt: HostRuntime) {
    let mut flex = over_allocator(&rt);
    let wrong = first_wrong(&mut flex, &STEPS);
    let (_, source) = flex.into_parts();
    is_right(&rt, (wrong, source.0.asked()), &ASKED);
}
