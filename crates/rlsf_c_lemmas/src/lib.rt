//! The template of the manual proofs of C's exports. This crate has lemmas only, in `proofs/`, and no code.
//!
//! An export has a handle, some numbers and perhaps a slice. It lends the value behind the handle to a call, passes the other arguments on
//! and returns the call's result. `Exports` proves such an export from the contract of its call, in one line. Read `Contracts` first, which
//! says what the two contracts have in common, and then the last part of `Exports`, which lists the exports by their arguments.
//!
//! `Parameters` has the arguments, and `Passing` the code. `Replacing` proves an export that replaces the value behind its handle. `Walking`
//! and `Lending` have what other manual proofs of exports cite.
#![tactic(auto)]
