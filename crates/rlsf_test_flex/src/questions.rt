//! What a source is asked for two payloads.

ghost use Rattle.std.specs.Prelude.{◌≡◌, ◌≤◌, []};
ghost use Rattle.rlsf_base.specs.Addr.{reply};
ghost use Rattle.rlsf_test_flex.specs.Questions.{IsAskedForTwo, plain};
ghost use Rattle.rlsf_model.specs.FlexState.{flex_empty};

use crate::heaps::all;
use rlsf_base::memory::{Addr, Layout, Memory, Range};
use rlsf_flex::FlexTlsf;
use rlsf_trace_flex_runs::{Capabilities, ListedSource, Question, SourceAnswer};
use std::alloc::Global;

/// Two payloads of one byte, from an allocator that has asked for nothing, over a source that neither grows a range nor takes one
/// back. It has room for two questions.
fn two_payloads(flex: &mut FlexTlsf<ListedSource, u8, u8, 8, 8>) -> (Option<Addr>, Option<Addr>)
    requires empty { flex.old.state ≡ flex_empty }
    requires terms { flex.old.source.terms ≡ plain flex.old.source.terms.space }
    requires nothing_asked { flex.old.source.asked ≡ [] }
    requires room { 2 ≤ flex.old.source.room }
    ensures { IsAskedForTwo (reply result.0) (reply result.1) flex.new.source.asked }
{
    let layout = Layout::from_size_align_unchecked(1, 1);
    let first = flex.allocate(layout);
    let second = flex.allocate(layout);
    (first, second)
}

/// A source that neither grows a range nor takes one back.
const PLAIN: Capabilities = Capabilities {
    dealloc: false,
    grow: false,
    contiguous: false,
    min_align: 32,
};

/// Whether a source with one answer is asked these questions for two payloads. `None` if the system is out of memory.
fn are_asked(alloc: Global, answer: SourceAnswer, questions: &[Question]) -> Option<bool> {
    let space = Range {
        start: 4096,
        len: 1024,
    };
    let memory = Memory::new(alloc, 4096, 1024).ok()?;
    let answers = [answer].to_vec(alloc).ok()?;
    let source = ListedSource::new(alloc, space, PLAIN, answers, 2).ok()?;
    let mut flex = FlexTlsf::<_, u8, u8, 8, 8>::new(memory, source);
    let _payloads = two_payloads(&mut flex);
    Some(flex.source_ref().asked() == questions)
}

/// A range for one payload.
const ONE: Range = Range {
    start: 4096,
    len: 64,
};

/// A range for two payloads.
const TWO: Range = Range {
    start: 4096,
    len: 1024,
};

/// What a source answers, and what it is asked for two payloads.
static CASES: [(SourceAnswer, &[Question]); 3] = [
    (
        SourceAnswer::Range(ONE),
        &[Question::Alloc(64, Some(ONE)), Question::Alloc(64, None)],
    ),
    (SourceAnswer::Range(TWO), &[Question::Alloc(64, Some(TWO))]),
    (
        SourceAnswer::None,
        &[Question::Alloc(64, None), Question::Alloc(64, None)],
    ),
];

#[test]
fn questions_for_two_payloads(rt: HostRuntime) {
    for (answer, questions) in &CASES {
        all(
            &rt,
            &[are_asked(rt.alloc(), *answer, questions) == Some(true)],
        );
    }
}
