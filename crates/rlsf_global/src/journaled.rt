//! A book behind a lock, for callers in threads.

ghost use Rattle.std.specs.Prelude.{◌≡◌, ◌++◌, ◌<◌, ◌↔◌, ℕ, MatchResult, IfSome, IfOk, IsErrOf, OnErr, true};
ghost use Rattle.rlsf_base.specs.Addr.{at};
ghost use Rattle.rlsf_global.specs.Journal.Close.{is_strange, AreComplete, LacksOne, Agree};
ghost use Rattle.rlsf_global.specs.declared.close.CloseError.TheVariants.{MissingPass, StrangePass, Mismatch};
ghost use Rattle.rlsf_global.specs.declared.entry.Call.TheVariants.{Allocate, Deallocate, Reallocate};
ghost use Rattle.rlsf_global.specs.Journal.Entries.{IsReplyTo, receipts_for};
ghost use Rattle.rlsf_global.specs.Journal.Passes.{AreFirst, Receipted, done_by, placed_by};
ghost use Rattle.rlsf_global.specs.Journal.Replay.{BookContents, BookStands, IsRun};
ghost use Rattle.rlsf_model_global.specs.declared.error.GlobalError.TheVariants.{JournalMemory};
ghost use Rattle.rlsf_model_global.specs.Heap.{Heap};
ghost use Rattle.rlsf_model_global.specs.Rows.{IsSorted};
ghost use Rattle.rlsf_model_global.specs.Steps.{HeapReads, HeapWrites};

use crate::book::Book;
use crate::close::{CloseError, Closed};
use crate::entry::{Call, Receipt, Reply};
use crate::pass::Pass;
use rlsf_base::memory::{Addr, Layout, Memory};
use rlsf_model_global::GlobalError;
use std::alloc::Global;
use std::sync::{Mutex, Wait};

/// An allocator with a journal of its placement calls, for callers in threads. Each call takes one lock once, and holds it for the complete
/// step.
///
/// A caller calls with its pass. The pass gets a receipt of each call that has an entry.
#[derive(Drop)]
pub struct Journaled {
    book: Mutex<Book>,
    callers: usize,
}

impl Journaled {
    /// Creates an allocator whose source has the complete memory as its space. It has the passes of the numbers below `callers`, in
    /// order. Nothing is live, and no pass has a receipt.
    ///
    /// Returns `JournalMemory` if the system is out of memory for the passes. Then the memory is dropped.
    ///
    /// Costs as much as `Locked::new`, and asks the system for the passes, in time proportional to `callers`.
    ///
    /// From `crates/rlsf_test_global/src/drops.rt`:
    ///
    /// ```
    /// let (journaled, passes) = Journaled::new(alloc, memory, 1)?;
    /// journaled.close(passes).is_ok()
    /// ```
    pub fn new(
        alloc: Global,
        memory: Memory,
        callers: usize,
    ) -> Result<(Journaled, Vec<Pass>), GlobalError>
        ensures { MatchResult result (λ r. (r.0.callers ≡ callers) × AreFirst callers r.1.items) (λ e. e ≡ JournalMemory) }
    {
        let Some(passes) = first_passes(alloc, callers) else {
            return Err(GlobalError::JournalMemory);
        };
        let book = Mutex::new(Book::new(alloc, memory));
        Ok((Journaled { book, callers }, passes))
    }

    /// Returns the number of callers: the bound of their numbers. It doesn't take the lock.
    pub fn callers(&self) -> usize
        ensures { result ≡ self.now.callers }
    {
        self.callers
    }

    /// Allocates a payload for a layout, and returns its address. The pass, whose number is below `callers`, gets a receipt.
    ///
    /// Refuses without an entry or a receipt, and changes nothing:
    ///
    /// - `JournalMemory` if the system is out of memory for a receipt or an entry.
    /// - `TableMemory` if the system is out of memory for the list of live addresses that `close` returns, or for the codes of the table.
    ///
    /// Else returns `NoRoom` if there is no room and no memory came.
    ///
    /// Waits for the lock, and has it as long as `Book::step` takes. If the pass has no room for a receipt, the system is asked
    /// before that.
    ///
    /// From `crates/rlsf_test_global/src/journal/threads.rt`:
    ///
    /// ```
    /// let addr = journaled.allocate(rt, pass, Layout::from_size_align_unchecked(8, 8))?;
    /// journaled.write_payload(rt, addr, 0, &[byte; 8])?;
    /// ```
    pub fn allocate(
        &self,
        rt: &impl Wait,
        pass: &mut Pass,
        layout: Layout,
    ) -> Result<Addr, GlobalError>
        requires { pass.old.caller < self.now.callers }
        ensures { Receipted placed_by (Allocate layout) result pass.old pass.new }
    {
        placed(self.step(rt, pass, Call::Allocate(layout)))
    }

    /// Deallocates a payload. The pass, whose number is below `callers`, gets a receipt.
    ///
    /// Returns `JournalMemory` if the system is out of memory for a receipt or an entry. Then nothing changes, and there is no entry and no
    /// receipt.
    ///
    /// Else returns `UnknownAddress` if the address isn't live.
    ///
    /// An address that was deallocated and allocated again is live, so a call with it can't be refused.
    ///
    /// Waits for the lock, and has it as long as `Book::step` takes. If the pass has no room for a receipt, the system is asked
    /// before that.
    pub fn deallocate(&self, rt: &impl Wait, pass: &mut Pass, addr: Addr) -> Result<(), GlobalError>
        requires { pass.old.caller < self.now.callers }
        ensures { Receipted done_by (Deallocate addr) result pass.old pass.new }
    {
        done(self.step(rt, pass, Call::Deallocate(addr)))
    }

    /// Moves a payload into a new one, which is allocated for another layout while the old one is still live. Returns its address. As many
    /// of its first bytes as both have are kept. The alignment may be another. The pass, whose number is below `callers`, gets a receipt.
    ///
    /// Returns `JournalMemory` if the system is out of memory for a receipt or an entry. Then nothing changes, and there is no entry and no
    /// receipt.
    ///
    /// Else returns `UnknownAddress` if the address isn't live, else `NoRoom` if there is no room and no memory came.
    ///
    /// Waits for the lock, and has it as long as `Book::step` takes. If the pass has no room for a receipt, the system is asked
    /// before that.
    pub fn reallocate(
        &self,
        rt: &impl Wait,
        pass: &mut Pass,
        addr: Addr,
        layout: Layout,
    ) -> Result<Addr, GlobalError>
        requires { pass.old.caller < self.now.callers }
        ensures { Receipted placed_by (Reallocate addr layout) result pass.old pass.new }
    {
        placed(self.step(rt, pass, Call::Reallocate(addr, layout)))
    }

    /// Reads `bytes.len()` bytes of a payload into `bytes`, from an offset on.
    ///
    /// Returns `UnknownAddress` if the address isn't live, else `OutOfRange` if the bytes go past the usable ones. Then `bytes` is
    /// unchanged. No entry is made.
    ///
    /// Waits for the lock, and has it as long as `Locked::read_payload` takes.
    pub fn read_payload(
        &self,
        rt: &impl Wait,
        addr: Addr,
        offset: usize,
        bytes: &mut [u8],
    ) -> Result<(), GlobalError>
        ensures step { (b : BookContents) × BookStands b × HeapReads b.locked.heap (at addr) offset bytes.old result bytes.new }
        ensures refused { OnErr result (bytes.new ≡ bytes.old) }
    {
        self.book.lock(rt).read_payload(addr, offset, bytes)
    }

    /// Overwrites bytes of a payload, from an offset on. Its other bytes are unchanged, and so is everything else.
    ///
    /// Returns `UnknownAddress` if the address isn't live, else `OutOfRange` if the bytes go past the usable ones. Then nothing changes. No
    /// entry is made.
    ///
    /// Waits for the lock, and has it as long as `Locked::write_payload` takes.
    pub fn write_payload(
        &self,
        rt: &impl Wait,
        addr: Addr,
        offset: usize,
        bytes: &[u8],
    ) -> Result<(), GlobalError>
        ensures { (b d : BookContents) × BookStands b × BookStands d × (d.journal ≡ b.journal) × HeapWrites b.locked.heap (at addr) offset bytes.now result d.locked.heap }
    {
        self.book.lock(rt).write_payload(addr, offset, bytes)
    }

    /// Ends the allocator. If the passes of the numbers below `callers` agree with the journal, returns the journal and the live addresses.
    ///
    /// The journal is then one run of the reference model, from nothing placed to the end. The entries of each caller are exactly the
    /// receipts of its pass, in their order.
    ///
    /// Refuses:
    ///
    /// - `StrangePass` exactly if a pass has a number that isn't below `callers`, or the number of another pass.
    /// - else `MissingPass` exactly if a number below `callers` has no pass.
    /// - else `Mismatch` if passes and journal don't agree.
    ///
    /// The memory is dropped. On an error, the journal and the passes are dropped, too. The call requests no memory.
    ///
    /// Takes no lock. The time is that of `Book::close`.
    pub fn close(self, passes: Vec<Pass>) -> Result<Closed, CloseError>
        ensures strange { IsErrOf result StrangePass ↔ (is_strange self.callers passes.items ≡ true) }
        ensures missing { IsErrOf result MissingPass ↔ LacksOne self.callers passes.items }
        ensures mismatch { IsErrOf result Mismatch → AreComplete self.callers passes.items }
        ensures agreed { IfOk result (λ c. AreComplete self.callers passes.items × Agree self.callers passes.items c.journal.items) }
        ensures history { IfOk result (λ c. (h : Heap) × IsRun c.journal.items h × (c.live.items ≡ h.asked) × IsSorted c.live.items) }
    {
        let Journaled { book, callers } = self;
        book.into_inner().close(callers, passes)
    }

    /// Makes a placement call, and returns its reply. Memory for its receipt is reserved before the lock is taken.
    fn step(&self, rt: &impl Wait, pass: &mut Pass, call: Call) -> Reply
        ensures fits { IsReplyTo call result }
        ensures receipt { (number : ℕ) × (pass.new.receipts ≡ pass.old.receipts ++ receipts_for number call result) }
        ensures caller { pass.new.caller ≡ pass.old.caller }
    {
        if pass.receipts.try_reserve(1).is_err() {
            return Reply::JournalMemory;
        }
        let mut book = self.book.lock(rt);
        let number = book.len();
        let reply = book.step(pass.caller, call);
        drop(book);
        if !matches!(reply, Reply::TableMemory | Reply::JournalMemory) {
            pass.receipts.push_reserved(Receipt {
                number,
                call,
                reply,
            });
        }
        reply
    }
}

/// Returns the result of a reply for a call that returns an address.
fn placed(reply: Reply) -> Result<Addr, GlobalError>
    ensures { result ≡ placed_by reply }
{
    match reply {
        Reply::Placed(addr) => Ok(addr),
        Reply::NoRoom => Err(GlobalError::NoRoom),
        Reply::TableMemory => Err(GlobalError::TableMemory),
        Reply::JournalMemory => Err(GlobalError::JournalMemory),
        Reply::Freed | Reply::UnknownAddress => Err(GlobalError::UnknownAddress),
    }
}

/// Returns the result of a reply for a deallocation.
fn done(reply: Reply) -> Result<(), GlobalError>
    ensures { result ≡ done_by reply }
{
    match reply {
        Reply::Freed => Ok(()),
        Reply::JournalMemory => Err(GlobalError::JournalMemory),
        Reply::Placed(_) | Reply::NoRoom | Reply::TableMemory | Reply::UnknownAddress => {
            Err(GlobalError::UnknownAddress)
        }
    }
}

/// Returns the unused passes of the numbers below `callers`, in order, or `None` if the system is out of memory for them.
fn first_passes(alloc: Global, callers: usize) -> Option<Vec<Pass>>
    ensures { IfSome result (λ passes. AreFirst callers passes.items) }
{
    let mut passes = Vec::new(alloc);
    passes.try_reserve(callers).ok()?;
    for caller in 0..callers {
        let receipts = Vec::new(alloc);
        passes.push(Pass { caller, receipts }).ok()?;
    }
    Some(passes)
}
