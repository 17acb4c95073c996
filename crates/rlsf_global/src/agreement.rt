//! The tests that closing a book makes.

ghost use Rattle.std.specs.Prelude.{◌≡◌, ◌↔◌, ℕ, ◌<◌, MatchBool, IsTrue, All, false};
ghost use Rattle.rlsf_global.specs.Journal.Close.{has_pass, is_strange, HasEach, Agree};
ghost use Rattle.rlsf_global.specs.Journal.Entries.{receipts_of};

use crate::entry::Entry;
use crate::pass::Pass;
use crate::receipts::agrees;

/// Returns whether some pass has the number.
fn has_pass(caller: usize, passes: &[Pass]) -> bool
    ensures { result ≡ has_pass caller passes.now }
{
    for i in 0..passes.len() {
        if passes[i].caller() == caller {
            return true;
        }
    }
    false
}

/// Returns whether some pass has a number that isn't below the bound, or the number of a later pass.
pub(crate) fn is_strange(callers: usize, passes: &[Pass]) -> bool
    ensures { result ≡ is_strange callers passes.now }
{
    for i in 0..passes.len() {
        let caller = passes[i].caller();
        if caller >= callers || has_pass(caller, &passes[i + 1..]) {
            return true;
        }
    }
    false
}

/// Returns whether a number below the bound has no pass.
pub(crate) fn is_missing(callers: usize, passes: &[Pass]) -> bool
    ensures { MatchBool result ((c : ℕ) × (c < callers) × (has_pass c passes.now ≡ false)) (HasEach callers passes.now) }
{
    for caller in 0..callers {
        if !has_pass(caller, passes) {
            return true;
        }
    }
    false
}

/// Returns whether the caller of each entry is below the bound.
fn all_known(callers: usize, journal: &[Entry]) -> bool
    ensures { IsTrue result ↔ All (λ e. e.caller < callers) journal.now }
{
    for i in 0..journal.len() {
        if journal[i].caller >= callers {
            return false;
        }
    }
    true
}

/// Returns whether each pass has exactly the receipts of its caller's entries.
fn all_agree(passes: &[Pass], journal: &[Entry]) -> bool
    ensures { IsTrue result ↔ All (λ p. p.receipts ≡ receipts_of p.caller 0 journal.now) passes.now }
{
    for i in 0..passes.len() {
        let pass = &passes[i];
        if !agrees(pass.caller(), pass.receipts(), journal) {
            return false;
        }
    }
    true
}

/// Returns whether passes and journal agree.
pub(crate) fn agree(callers: usize, passes: &[Pass], journal: &[Entry]) -> bool
    ensures { IsTrue result ↔ Agree callers passes.now journal.now }
{
    all_known(callers, journal) && all_agree(passes, journal)
}
