//! The reference model behind the lock: the reference model over the page source, and the last requested layout of each live address.
//!
//! Each step is a relation between the heap before, the call, its reply and the heap after. Read `specs/` in this order. The heap: `Cursor`
//! (the page source), `Rows` (the table of live addresses), `Heap`. Calls: `Steps`, `Moves`. Laws: `Pages` (what the source may have
//! provided), `Standing`, `History`, `Left`, `Isolation`, `Replays`. `Constant` serves the page source's own law. `src/error` has the
//! refusals.
#![tactic(auto)]

ghost use Rattle.rlsf_model_global.specs.Isolation.{BeginningIsHeap, HistoriesKeepHeap, HistoriesListPayloads, PayloadsAreIsolated, StepsKeepHeap, UnnamedStays, UnnamedStaysThroughout};
ghost use Rattle.rlsf_model_global.specs.Left.{AllocationLeaves, DeallocationLeaves, HeapPayloadsAreApart, PayloadsServe, ReadTells, ReallocationAsLeaves, ReallocationLeaves, ReallocationThereLeaves, WriteLeaves};
ghost use Rattle.rlsf_model_global.specs.Replays.{JournalDetermines, OthersKeepPlacement, PlacementDetermines, ReplayBegins, ReplaysDetermine, ReplayGoesOn};

mod error;

pub use error::GlobalError;

/// Does nothing. Its contract states that payloads are isolated, so that a check proves it.
///
/// A list of steps may come from several callers, in any order. If it begins with nothing placed, it leads to a heap: the state of the
/// reference model is well-formed, and the live payloads are exactly the listed ones. A payload that a step names neither in its call nor
/// in its reply stays, with its bytes and its layout. So what is at an address is what the last step that names it left.
///
/// - Each payload has the requested bytes and less than 32 more, at a multiple of its alignment, and no byte of another.
/// - An allocation leaves a payload of its layout where none was, and a deallocation leaves none.
/// - A write leaves the bytes that it names and all others of the payload. A read returns the payload's own bytes.
/// - A payload that gets another size or another layout keeps its first bytes, even if it moves. By the reference model's reallocation it
///   keeps those that were usable and still are. By an allocation and a copy it keeps those that were requested and still are.
pub fn isolation()
    ensures beginning { BeginningIsHeap }
    ensures steps { StepsKeepHeap }
    ensures histories { HistoriesKeepHeap }
    ensures unnamed { UnnamedStays }
    ensures unnamed_throughout { UnnamedStaysThroughout }
    ensures isolated { PayloadsAreIsolated }
    ensures listed { HistoriesListPayloads }
    ensures serve { PayloadsServe }
    ensures apart { HeapPayloadsAreApart }
    ensures allocated { AllocationLeaves }
    ensures deallocated { DeallocationLeaves }
    ensures written { WriteLeaves }
    ensures read { ReadTells }
    ensures reallocated_as { ReallocationAsLeaves }
    ensures reallocated { ReallocationLeaves }
    ensures reallocated_there { ReallocationThereLeaves }
{}

/// Does nothing. Its contract states that a journal of steps can be replayed, so that a check proves it.
///
/// - From the same placement the same call has the same reply and leads to the same placement. The exception is a call for which the
///   system is out of memory for a table entry.
/// - A read, a write, a question for a length, and a call for which the system is out of memory keep the placement.
/// - All other steps are the journal. Their calls determine their replies and the last placement, whatever was read and written
///   meanwhile.
/// - A journal grows by at most one entry a step. All heaps to which it replays from the beginning have one placement.
pub fn replays()
    ensures determined { PlacementDetermines }
    ensures kept { OthersKeepPlacement }
    ensures journal { JournalDetermines }
    ensures begins { ReplayBegins }
    ensures goes_on { ReplayGoesOn }
    ensures one_placement { ReplaysDetermine }
{}
