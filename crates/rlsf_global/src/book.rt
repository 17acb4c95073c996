//! An allocator with a journal of its placement calls.

ghost use Rattle.std.specs.Prelude.{◌≡◌, ◌≢◌, ◌<◌, ◌≤◌, ◌↔◌, ◌+◌, ◌^◌, ◌++◌, [], length, IfOk, IsErrOf, OnErr, OnOk, true};
ghost use Rattle.std.specs.Vec.{vec_capacity};
ghost use Rattle.rlsf_base.specs.Addr.{at};
ghost use Rattle.rlsf_base.specs.Space.{range_of};
ghost use Rattle.rlsf_global.specs.Results.{IsLockedUntouched, KeepsBookWriting};
ghost use Rattle.rlsf_global.specs.Journal.Close.{is_strange, AreComplete, LacksOne, Agree};
ghost use Rattle.rlsf_global.specs.declared.close.CloseError.TheVariants.{MissingPass, StrangePass, Mismatch};
ghost use Rattle.rlsf_global.specs.declared.entry.Reply.TheVariants.{JournalMemory, TableMemory};
ghost use Rattle.rlsf_global.specs.Journal.Entries.{IfRefused, IsReplyTo, entries_of, most_live};
ghost use Rattle.rlsf_global.specs.Journal.Memory.{LeavesMemory};
ghost use Rattle.rlsf_global.specs.Journal.Replay.{BookStands, IsRun, LeadsOrRefused};
ghost use Rattle.rlsf_model_global.specs.Heap.{beginning};
ghost use Rattle.rlsf_model_global.specs.Rows.{IsSorted};
ghost use Rattle.rlsf_model_global.specs.Steps.{HeapReads, HeapWrites};

use crate::agreement::{agree, is_missing, is_strange};
use crate::close::{CloseError, Closed};
use crate::entry::{Call, Entry, Reply};
use crate::locked::Locked;
use crate::pass::Pass;
use rlsf_base::memory::{Addr, Layout, Memory};
use rlsf_model_global::GlobalError;
use std::alloc::{AllocError, Global};
use std::marker::Model;

/// An allocator with a journal of its placement calls.
///
/// By an invariant of the type, the journal replays to the placement. The replay starts with nothing placed, over a source whose newest
/// range grows.
///
/// Every call leaves the memory at its place, with each byte that belongs to no block before and after it, or that the source hasn't
/// provided after it (`KeepsMemory`).
#[derive(Drop)]
pub struct Book {
    locked: Locked<()>,
    journal: Vec<Entry>,
    // Room for the live addresses, so that `close` asks for no memory. It has none of them.
    rows: Vec<(Addr, Layout)>,
}

impl Model for Book {
    ghost use Rattle.std.specs.Vec.{vec_capacity};
    ghost use Rattle.rlsf_global.specs.Journal.Replay.{BookContents, IsBook};

    ghost Value = { BookContents };

    ghost view = { λ b. record { locked = b.locked; journal = b.journal.items } };

    ghost invariant = { λ b. IsBook b.journal.items b.locked.heap b.rows.items (vec_capacity b.rows) };
}

impl Book {
    /// Creates an allocator whose source has the complete memory as its space, with an empty journal. Nothing is live.
    ///
    /// Costs as much as `Locked::new`. The system is asked nothing.
    pub fn new(alloc: Global, memory: Memory) -> Book
        ensures heap { result.locked.heap ≡ beginning (range_of memory) true }
        ensures memory { result.locked.memory ≡ memory }
        ensures journal { result.journal ≡ [] }
        ensures stands { BookStands result }
    {
        Book {
            locked: Locked::new(alloc, memory),
            journal: Vec::new(alloc),
            rows: Vec::new(alloc),
        }
    }

    /// Returns the number of entries of the journal.
    ///
    /// Completes in constant time.
    pub fn len(&self) -> usize
        ensures { result ≡ length self.now.journal }
    {
        self.journal.len()
    }

    /// Makes one placement call, and adds its entry to the journal.
    ///
    /// Refuses without an entry, and changes nothing:
    ///
    /// - `JournalMemory` if the system is out of memory for an entry. Then nothing was tried.
    /// - else `TableMemory`, in an allocation, if the system is out of memory for the list of live addresses that `close` returns, or for
    ///   the codes of the table.
    ///
    /// Refuses with an entry, and changes nothing else:
    ///
    /// - `UnknownAddress` exactly if the address isn't live.
    /// - `NoRoom` exactly if there is no room and no memory came.
    ///
    /// Costs as much as the call of `Locked` that it makes. If the journal has no room for an entry, or, in an allocation, the list for one
    /// more live address, the system is asked before that. Then the time is also proportional to the lengths of both, which may move.
    pub fn step(&mut self, caller: usize, call: Call) -> Reply
        ensures step { LeadsOrRefused self.old.locked.heap call result self.new.locked.heap }
        ensures entry { self.new.journal ≡ self.old.journal ++ entries_of caller call result }
        ensures fits { IsReplyTo call result }
        ensures refused { IfRefused result (self.new.locked.memory.bytes ≡ self.old.locked.memory.bytes) }
        ensures memory { LeavesMemory call result self.old.locked self.new.locked }
    {
        if self.journal.try_reserve(1).is_err() {
            return Reply::JournalMemory;
        }
        if reserve_row(&mut self.rows, self.locked.live(), call).is_err() {
            return Reply::TableMemory;
        }
        let reply = answer(&mut self.locked, call);
        if !matches!(reply, Reply::TableMemory) {
            self.journal.push_reserved(Entry {
                caller,
                call,
                reply,
            });
        }
        reply
    }

    /// Reads `bytes.len()` bytes of a payload into `bytes`, from an offset on.
    ///
    /// Returns `UnknownAddress` exactly if the address isn't live, else `OutOfRange` exactly if the bytes go past the usable ones. Then
    /// `bytes` is unchanged. No entry is made.
    ///
    /// Costs as much as `Locked::read_payload`.
    pub fn read_payload(
        &self,
        addr: Addr,
        offset: usize,
        bytes: &mut [u8],
    ) -> Result<(), GlobalError>
        ensures step { HeapReads self.now.locked.heap (at addr) offset bytes.old result bytes.new }
        ensures refused { OnErr result (bytes.new ≡ bytes.old) }
        ensures stands { BookStands self.now }
    {
        self.locked.read_payload(addr, offset, bytes)
    }

    /// Overwrites bytes of a payload, from an offset on. Its other bytes are unchanged, and so is everything else.
    ///
    /// Returns `UnknownAddress` exactly if the address isn't live, else `OutOfRange` exactly if the bytes go past the usable ones. Then
    /// nothing changes. No entry is made.
    ///
    /// Costs as much as `Locked::write_payload`.
    pub fn write_payload(
        &mut self,
        addr: Addr,
        offset: usize,
        bytes: &[u8],
    ) -> Result<(), GlobalError>
        ensures step { HeapWrites self.old.locked.heap (at addr) offset bytes.now result self.new.locked.heap }
        ensures refused { OnErr result (IsLockedUntouched self.old.locked self.new.locked) }
        ensures frame { KeepsBookWriting self.old self.new }
        ensures touches { self.new.locked.memory.touches ≤ self.old.locked.memory.touches + 3 }
        ensures stood { BookStands self.old }
        ensures stands { BookStands self.new }
    {
        self.locked.write_payload(addr, offset, bytes)
    }

    /// Ends the book. If the passes of the numbers below `callers` agree with the journal, returns the journal and the live addresses.
    ///
    /// The journal is then one run of the reference model, from nothing placed to the end. The entries of each caller are exactly the
    /// receipts of its pass, in their order.
    ///
    /// Refuses:
    ///
    /// - `StrangePass` exactly if a pass has a number that isn't below `callers`, or the number of another pass.
    /// - else `MissingPass` exactly if a number below `callers` has no pass.
    /// - else `Mismatch` exactly if passes and journal don't agree.
    ///
    /// The memory is dropped. On an error, the journal and the passes are dropped, too. The call requests no memory.
    ///
    /// Takes time proportional to the number of passes times that of callers and of entries, and to the memory's length, since it reads
    /// the complete table.
    pub fn close(self, callers: usize, passes: Vec<Pass>) -> Result<Closed, CloseError>
        ensures strange { IsErrOf result StrangePass ↔ (is_strange callers passes.items ≡ true) }
        ensures missing { IsErrOf result MissingPass ↔ LacksOne callers passes.items }
        ensures mismatch { IsErrOf result Mismatch ↔ (AreComplete callers passes.items × (Agree callers passes.items self.journal → ⊥)) }
        ensures agreed { IfOk result (λ c. AreComplete callers passes.items × Agree callers passes.items self.journal) }
        ensures journal { IfOk result (λ c. (c.journal.items ≡ self.journal) × IsRun self.journal self.locked.heap) }
        ensures live { IfOk result (λ c. (c.live.items ≡ self.locked.heap.asked) × IsSorted c.live.items) }
    {
        let _ = &self.journal;
        if is_strange(callers, &passes) {
            return Err(CloseError::StrangePass);
        }
        if is_missing(callers, &passes) {
            return Err(CloseError::MissingPass);
        }
        if !agree(callers, &passes, &self.journal) {
            return Err(CloseError::Mismatch);
        }
        let Book {
            locked,
            journal,
            rows,
        } = self;
        Ok(Closed {
            journal,
            live: locked.listed_in(rows),
        })
    }
}

/// Reserves room for the live addresses after a call, in an empty `Vec` with room for the `live` addresses before it.
fn reserve_row(rows: &mut Vec<(Addr, Layout)>, live: usize, call: Call) -> Result<(), AllocError>
    requires none { rows.old.items ≡ [] }
    requires few { live < 2 ^ 62 }
    requires room { live ≤ vec_capacity rows.old }
    ensures none { rows.new.items ≡ [] }
    ensures kept { vec_capacity rows.old ≤ vec_capacity rows.new }
    ensures room { OnOk result (most_live call live ≤ vec_capacity rows.new) }
    ensures fits { OnErr result (IsReplyTo call TableMemory) }
{
    match call {
        Call::Allocate(_) => rows.try_reserve(live + 1),
        Call::Deallocate(_) | Call::Reallocate(..) => Ok(()),
    }
}

/// Makes a placement call, and returns its reply.
fn answer(locked: &mut Locked<()>, call: Call) -> Reply
    ensures step { LeadsOrRefused locked.old.heap call result locked.new.heap }
    ensures not_journal { result ≢ JournalMemory }
    ensures fits { IsReplyTo call result }
    ensures refused { IfRefused result (locked.new.memory.bytes ≡ locked.old.memory.bytes) }
    ensures memory { LeavesMemory call result locked.old locked.new }
{
    match call {
        Call::Allocate(layout) => match locked.allocate(layout) {
            Ok(addr) => Reply::Placed(addr),
            Err(error) => match error {
                GlobalError::NoRoom => Reply::NoRoom,
                _ => Reply::TableMemory,
            },
        },
        Call::Deallocate(addr) => match locked.deallocate(addr) {
            Ok(()) => Reply::Freed,
            Err(_) => Reply::UnknownAddress,
        },
        Call::Reallocate(addr, layout) => match locked.reallocate(addr, layout) {
            Ok(to) => Reply::Placed(to),
            Err(error) => match error {
                GlobalError::NoRoom => Reply::NoRoom,
                _ => Reply::UnknownAddress,
            },
        },
    }
}
