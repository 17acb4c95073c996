//! The memory and the sources of these tests.

ghost use Rattle.std.specs.Prelude.{◌≡◌, [], length, IfSome};
ghost use Rattle.rlsf_model_sizes.specs.PowerOfTwo.{IsPowerOfTwo};
ghost use Rattle.rlsf_base.specs.Range.{range_at};
ghost use Rattle.rlsf_trace_flex_runs.specs.Listed.{ListedMayOwe};

use rlsf_base::memory::{Memory, Range};
use rlsf_trace_flex_runs::{Capabilities, ListedSource, SourceAnswer};
use std::alloc::Global;

/// How many questions a source remembers.
const ROOM: usize = 64;

/// A memory of 16384 bytes from the address 4096 on, and a source of all of it with these answers. `None` if the system is out of
/// memory.
pub fn parts(
    alloc: Global,
    capabilities: Capabilities,
    answers: &[SourceAnswer],
) -> Option<(Memory, ListedSource)>
    requires { IsPowerOfTwo capabilities.min_align }
    ensures { IfSome result (λ r. (r.0.start ≡ 4096) × (length r.0.bytes ≡ 16384) × (r.1.terms.space ≡ range_at 4096 16384) × ListedMayOwe r.1 []) }
{
    let space = Range {
        start: 4096,
        len: 16384,
    };
    let answers = answers.to_vec(alloc).ok()?;
    parts_of(alloc, space, capabilities, answers, ROOM)
}

/// A memory of the space's bytes, and a source of all of it with these answers, which remembers so many questions. `None` if the
/// system is out of memory.
pub fn parts_of(
    alloc: Global,
    space: Range,
    capabilities: Capabilities,
    answers: Vec<SourceAnswer>,
    questions: usize,
) -> Option<(Memory, ListedSource)>
    requires { IsPowerOfTwo capabilities.min_align }
    ensures { IfSome result (λ r. (r.0.start ≡ space.start) × (length r.0.bytes ≡ space.len) × (r.1.terms.space ≡ space) × ListedMayOwe r.1 []) }
{
    let Ok(memory) = Memory::new(alloc, space.start, space.len) else {
        return None;
    };
    match ListedSource::new(alloc, space, capabilities, answers, questions) {
        Ok(source) => Some((memory, source)),
        Err(_) => None,
    }
}
