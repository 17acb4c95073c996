//! An allocator for threads: `GlobalTlsf` is a TLSF allocator over whole pages behind one lock, with a table of its live addresses.
//!
//! Read `locked.rt` first: `Locked` is the value under the lock, with all calls. `shared.rt` puts it behind the lock. `moves.rt`
//! moves payloads and `release.rt` deallocates them, `live_table.rt` has the table, and `rows.rt` returns its entries.
//! The contracts cite `specs/Locked.antt`, and the heap and its steps in `rlsf_model_global`.
//!
//! A `Book` is a `Locked` with a journal of its placement calls, and a `Journaled` is a book behind a lock. Each caller has a `Pass`,
//! which collects a receipt of each of its calls. `close` takes the passes, and returns the journal if they agree with it: one history
//! that explains every reply. Read `entry.rt`, `receipts.rt`, `pass.rt`, `book.rt`, `agreement.rt`, `close.rt`, `journaled.rt` and
//! `text.rt` in this order, and the definitions in `specs/Journal` as `specs/Journal.antt` lists them.
//!
//! To read the contract of a call, open `Heap` of the model behind the lock (`rlsf_model_global/specs/`), and these files:
//!
//! - `allocate`, `alloc`, `deallocate`, `dealloc` of a `Locked`: `Results`; model `Steps`
//! - `realloc`, `reallocate`, `reallocate_no_move` of a `Locked`: `Results`, `Memory`; model `Moves`
//! - `allocation_usable_size`, `read_payload` of a `Locked`: model `Steps`
//! - `write_payload` of a `Locked`: `Results`; model `Steps`
//! - each call of a `GlobalTlsf`: `Refusals`
//! - `step` of a `Book`: `Journal/Entries`, `Journal/Memory`, `Journal/Replay`
//! - `allocate`, `deallocate`, `reallocate` of a `Journaled`: `Journal/Passes`
//! - `close`: `Journal/Close`, `Journal/Replay`
#![tactic(auto)]

ghost use Rattle.rlsf_global.specs.Journal.Laws.{CallsDetermineReplies, ReceiptsAreEntries, ReplayDetermines, RunsDetermineReplies};

mod agreement;
mod book;
mod close;
mod entry;
mod journaled;
mod live_table;
mod locked;
mod moves;
mod pass;
mod receipts;
mod release;
mod rows;
mod shared;
mod text;

pub use book::Book;
pub use close::{CloseError, Closed};
pub use entry::{Call, Entry, Receipt, Reply};
pub use journaled::Journaled;
pub use locked::Locked;
pub use pass::Pass;
pub use rlsf_flex::{GlobalTlsfOptions, SmallGlobalTlsfOptions, Source};
pub use rlsf_model_global::{GlobalError, isolation, replays};
pub use shared::{CAlloc, GlobalTlsf, SmallGlobalTlsf};

/// Does nothing. Its contract states the laws of journals, so that a check proves them.
///
/// - A receipt names its entry: the entry at the receipt's number is the caller's, with that call and that reply.
/// - The calls of a journal, in their order, determine their replies and the placement at the end. This holds for any reads and writes
///   between them. So the calls of a closed journal suffice to compute its replies and its live addresses.
/// - Two runs that closing returns have this property, too, if their spaces are the same.
pub fn laws()
    ensures receipts { ReceiptsAreEntries }
    ensures replies { CallsDetermineReplies }
    ensures one_placement { ReplayDetermines }
    ensures runs { RunsDetermineReplies }
{}
