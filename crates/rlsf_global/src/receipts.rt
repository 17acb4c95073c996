//! Comparison of a caller's receipts with the journal.

ghost use Rattle.std.specs.Prelude.{◌≡◌, ◌↔◌, IsTrue};
ghost use Rattle.rlsf_global.specs.Journal.Entries.{receipts_of};

use crate::entry::{Call, Entry, Receipt, Reply};

/// Returns whether these are exactly the receipts of the caller's entries, in their order.
pub(crate) fn agrees(caller: usize, receipts: &[Receipt], journal: &[Entry]) -> bool
    ensures { IsTrue result ↔ (receipts.now ≡ receipts_of caller 0 journal.now) }
{
    let mut rest = receipts;
    for number in 0..journal.len() {
        let entry = journal[number];
        if entry.caller == caller {
            let Some((receipt, after)) = rest.split_first() else {
                return false;
            };
            let own = Receipt {
                number,
                call: entry.call,
                reply: entry.reply,
            };
            if !is_same(receipt, &own) {
                return false;
            }
            rest = after;
        }
    }
    rest.is_empty()
}

/// Returns whether two receipts are equal.
fn is_same(a: &Receipt, b: &Receipt) -> bool
    ensures { IsTrue result ↔ (a.now ≡ b.now) }
{
    a.number == b.number && is_same_call(a.call, b.call) && is_same_reply(a.reply, b.reply)
}

/// Returns whether two calls are equal.
fn is_same_call(a: Call, b: Call) -> bool
    ensures { IsTrue result ↔ (a ≡ b) }
{
    match (a, b) {
        (Call::Allocate(a), Call::Allocate(b)) => a == b,
        (Call::Deallocate(a), Call::Deallocate(b)) => a.get() == b.get(),
        (Call::Reallocate(a, x), Call::Reallocate(b, y)) => a.get() == b.get() && x == y,
        _ => false,
    }
}

/// Returns whether two replies are equal.
fn is_same_reply(a: Reply, b: Reply) -> bool
    ensures { IsTrue result ↔ (a ≡ b) }
{
    match (a, b) {
        (Reply::Placed(a), Reply::Placed(b)) => a.get() == b.get(),
        (Reply::Freed, Reply::Freed)
        | (Reply::NoRoom, Reply::NoRoom)
        | (Reply::UnknownAddress, Reply::UnknownAddress)
        | (Reply::TableMemory, Reply::TableMemory)
        | (Reply::JournalMemory, Reply::JournalMemory) => true,
        _ => false,
    }
}
