//! The reference model: what an allocator does to lists of ranges. Every promise of this repository is about it. This crate
//! has no code but functions with empty bodies, whose contracts state laws.
//!
//! A state has the inserted chunks, the used blocks, and the free ranges, the newest first. Each step is a relation between the state
//! before, the call, the reply and the state after. Read `specs/` in this order. States: `Lists`, `State`, `Payload`, `WellFormed`, `Join`.
//! Calls: `Insert` (and append), `Allocate`, `Release`, `Reallocate`, `NoMove`, `Remove`. Lists of calls: `Run`, `Callers`, `Laws`. How much
//! memory is enough: `Budget`, `Uniform`, `PoolLength`, `Sizing`, `Sized`. Over a source: `Terms`, `Note`, `Answers`, `FlexState`,
//! `Growth`, `FlexAllocate`, `FlexReallocate`, `Trim`, `FlexRun`, `FlexWellFormed`, `End`, `Owed`. For callers that keep lists: `ChunkRows`,
//! `LiveAddresses`.
#![tactic(auto)]

ghost use Rattle.rlsf_model.specs.Laws.{SourceLaws, StepLaws};
ghost use Rattle.rlsf_model.specs.Sizing.{SizingLaws};

/// Does nothing. Its contract states the laws of the reference model, so that a check proves them.
///
/// `steps`, on single calls and runs:
///
/// - Each step keeps a state well-formed, and so does each run. Each call that its caller may make has a reply.
/// - A call and the state before it determine the reply and the state after it, except for fresh bytes.
/// - The order of chunks and of used blocks means nothing. States that are equal up to bytes and these orders give the same reply to
///   the same call, and stay equal in this way.
/// - A refused call changes nothing.
/// - Chunks are cut from the front of an aligned part. A chunk that an insert makes lies in the inserted range.
/// - Chunks stay or grow, except in a removal. It removes the chunks and free ranges in its range, and nothing else.
/// - A live address is a multiple of its alignment and has one block. Usable ranges of different payloads are disjoint, and each lies
///   in one chunk. The requested bytes are usable, and less than 32 more.
/// - An allocation takes the first range of the least class that reaches, and is refused only if none reaches. It succeeds if a free range
///   is longer than the sought size by one SLLENth. It also succeeds in a pool of the length that is computed for it, at a multiple of 32.
/// - With nothing live, a chunk of the pool size that is computed for an allocation makes it succeed.
/// - A chunk in which no used block has a byte holds one free range.
/// - A step leaves each payload that it doesn't name as it was. An allocated address was not live and is live.
/// - A fill leaves its bytes in one payload, and a deallocation removes one payload. Neither changes another, or allocates one. A fill leaves
///   a similar state.
/// - A payload that is live after a step, and that the step names neither in its call nor in its reply, was live before with the same
///   bytes.
/// - A payload that gets another size keeps the bytes that both sizes have.
/// - A reallocation without a move leads where a reallocation does, and the payload stays at its address. Or it is refused, and nothing
///   changes.
/// - To its callers the reference model is a map from addresses to payloads. Each step changes it as its call and its reply say.
///
/// `sources`, over a source of memory that gives only answers that it may give:
///
/// - The first state is well-formed, and each step and each run keep a state well-formed. Each call that its caller may make has a reply,
///   whatever such answer the source gives.
/// - To its callers the reference model is such a map here too, between any two well-formed states. Payloads that no call names stay, and
///   the map changes call by call.
/// - Memory that comes keeps a state well-formed. What comes for an allocation has room for it.
/// - After each run payloads are disjoint, each in one chunk at a multiple of its alignment. Sizes, the bytes that both sizes have, and
///   payloads that a step doesn't name are as without a source. Each call of a run is such a step.
/// - A run over a source is a run of the reference model alone, into which the memory that comes is inserted.
/// - From similar states, the same calls ask the same questions, have the same replies, and lead to similar states. This holds if the
///   source gives the same answers to the same questions.
/// - A trim returns the newest ranges without a used block. The outstanding ranges are those that came and were not returned. So each
///   range is returned once, by a trim or at the end.
///
/// `sizing`, on how much memory is enough, which is known before the first call:
///
/// - There are at most as many free ranges as used blocks and chunks together. The free ranges, the used blocks and 32 bytes of each
///   chunk add up to the chunks. So an allocation is not refused if the free bytes suffice for so few ranges.
/// - A run begins with nothing live, and has bounds on its sizes, its alignments and its number of live payloads. Then nothing is refused
///   if the chunks, or fronts of them, have the budget for these bounds. Memory that comes meanwhile does no harm.
/// - In one chunk, with blocks of one length at which a class begins, an allocation is refused exactly if the chunk is full: as many
///   payloads are live as it has room for. Live payloads are counted.
/// - The length that is computed for a number of payloads is enough for each chunk (`payload_pool`). In a shorter chunk, alone and with
///   nothing live, some run within the bounds is refused. This is stated for sought blocks (`payload_pool_exact`), and for layouts with an
///   alignment of 16 or less (`layout_pool_exact`).
/// - The length that is computed for a number of payloads and the bytes of their blocks is enough, too, whatever is live (`budget_pool`).
/// - The length that is computed for a number of objects is exact, too.
/// - Within such bounds a source is never asked.
pub fn laws()
    ensures steps { StepLaws }
    ensures sources { SourceLaws }
    ensures sizing { SizingLaws }
{}
