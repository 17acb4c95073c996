//! The allocator that asks a source for memory when it has no room, and three such sources.
//!
//! Read `specs/StandsFor` (the represented state) and `specs/Footers` first, then `src/source` (the trait of sources) and `src/flex` (all
//! calls). `src/growth` asks for memory, `src/trim` and `src/end` return it, and `src/footers` writes and reads the footers. `src/parts`,
//! `src/pool` and `src/ranges` hold the fields. `specs/Outside` and `specs/SpareBytes` say which bytes stay. `specs/Steps` is for private
//! functions.
//!
//! `Source` (`src/pages`) provides complete pages of its space, and `BumpSource` (`src/bump`) exactly the requested bytes. A caller of
//! either has nothing to prove. `GlobalAllocAsFlexSource` (`src/heap`, `specs/Heap`) asks an allocator of single allocations.
//! `src/options` has the options of an allocator behind the lock. `specs/Bump` and `proofs/BumpRanges` have definitions and lemmas for
//! other sources that provide their space from a cursor on.
//!
//! To read the contract of a call, open `Callers` of the model (`rlsf_model/specs/`), and these files:
//!
//! - `allocate`, `allocate_zeroed`: `Results`, `StandsFor`; model `FlexAllocate`
//! - `deallocate`, `deallocate_unknown_align`: `Results`, `StandsFor`; model `Release`
//! - `reallocate`: `Results`, `StandsFor`; model `FlexReallocate`
//! - `reallocate_no_move`: `Results`, `StandsFor`; model `NoMove`
//! - `payload_mut`: `Lending`, `StandsFor`
//! - `copy_payload`: `Results`, `StandsFor`
//! - `trim`: `Results`, `StandsFor`; model `Trim`
//! - `into_parts`: model `End`
#![tactic(auto)]

ghost use Rattle.rlsf_flex.specs.Laws.{FlexStatesAreWellFormed, FlexWordsReadNoPayload};

mod bump;
mod end;
mod flex;
mod footers;
mod growth;
mod heap;
mod options;
mod pages;
mod parts;
mod pool;
mod ranges;
mod source;
mod trim;

pub use bump::BumpSource;
pub use flex::FlexTlsf;
pub use heap::{GlobalAlloc, GlobalAllocAsFlexSource};
pub use options::{GlobalTlsfOptions, SmallGlobalTlsfOptions};
pub use pages::Source;
pub use source::{FlexSource, SourceChange};

/// Does nothing. Its contract states the laws of the states that an allocator over a source represents, so that a check proves them.
///
/// The state of every allocator is well-formed, with its ranges and its kept pool. So the laws of the reference model over a source, which
/// `laws` of `rlsf_tlsf` states, hold of it.
///
/// The in-band layout, the class table and the footers depend on no usable byte of a live payload. A memory that differs only in such bytes
/// represents the state with these bytes.
pub fn laws<S: FlexSource>()
    ensures well_formed { FlexStatesAreWellFormed S.terms S.owes }
    ensures words { FlexWordsReadNoPayload S.terms S.owes }
{}
