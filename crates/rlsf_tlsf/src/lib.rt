//! The allocator over pools that its caller inserts: two-level segregated fit (Masmano and others, ECRTS 2004).
//!
//! Read `specs/Allocator` (the allocator as contracts see it, and its steps) and `specs/Results` (what calls return, refuse and keep) first, then
//! `src/tlsf`, which has `Tlsf` and its calls for payloads. `specs/Bounds` says what holds within the bounds that an allocator is sized for.
//! `src/pools` has the calls for pools, `src/unknown_align` one for a payload of unknown alignment, and `src/zeroed` one that fills a payload.
//! `src/core_calls` has what `rlsf_heap` shares, with definitions in `specs/Cores`, `specs/CoreResizes` and `specs/Moving`. `specs/Lending` is for calls that lend bytes,
//! and `specs/InPlace` for a payload's owner who writes it where it lies, as `rlsf_heap` has. `src/bitmaps` gives read access to the class table,
//! `src/consistency` reads the words of a pool again, and `src/state` holds the ghost state. `specs/Steps` is for private functions.
//!
//! To read the contract of a call, open `Allocator`, `Callers` of the model (`rlsf_model/specs/`), and these files:
//!
//! - `allocate`, `allocate_zeroed`: `Results`, `Bounds`; model `Allocate`
//! - `deallocate`, `deallocate_unknown_align`: `Results`, `Bounds`; model `Release`
//! - `reallocate`: `Results`, `Bounds`; model `Reallocate`
//! - `reallocate_no_move`: `Results`, `Bounds`; model `NoMove`
//! - `reallocate_unknown_align`: `Results`, `Bounds`, `UnknownAlign`
//! - `payload_mut`: `Lending`; model `Run`
//! - `copy_payload`: `Results`, `Bounds`; model `Run`
//! - `insert_free_block`, `insert_free_block_ptr`, `append_free_block_ptr`: `Results`, `Bounds`; model `Insert`
//! - `remove_pool`: `Results`; model `Remove`, `ChunkRows`
//! - `iter_blocks`: model `ChunkRows`
#![tactic(auto)]

ghost use Rattle.rlsf_model.specs.Laws.{SourceLaws, StepLaws};
ghost use Rattle.rlsf_model.specs.Sizing.{SizingLaws};
ghost use Rattle.rlsf_blocks.specs.Laws.{WordsGiveBlock, WordsReadNoPayload};

mod bitmaps;
mod consistency;
pub mod core_calls;
mod pools;
mod state;
mod tlsf;
mod unknown_align;
mod zeroed;

pub use rlsf_blocks::{BlockInfo, Blocks, GRANULARITY};
pub use state::GhostState;
pub use tlsf::Tlsf;

/// Does nothing. Its contract states the laws of the states that an allocator represents, so that a check proves them.
///
/// `steps`, `sources` and `sizing` are the laws of the reference model. The documentation of `rlsf_model::laws`
/// describes them.
///
/// `words`: the in-band layout and the class table depend on no usable byte of a live payload. A memory that differs only
/// in such bytes represents the state with these bytes.
///
/// `by_words`: the word before a payload and one size word determine the block of every live address, whatever its
/// alignment.
pub fn laws()
    ensures steps { StepLaws }
    ensures sources { SourceLaws }
    ensures sizing { SizingLaws }
    ensures words { WordsReadNoPayload }
    ensures by_words { WordsGiveBlock }
{
    rlsf_model::laws();
}
