//! Integers as bitmaps: a value represents the set of the positions of its ones.
//!
//! Read `specs/Bits` (positions of a number) and `specs/Values` (numbers of a type) first. `src/int` has the traits `BitPattern`, `Bitmap`
//! and `BinInteger`. `src/impls` implements them for each integer type, by the proofs of `specs/Laws` and `specs/Ceilings`. `src/private`
//! closes the traits to other crates.
#![tactic(auto)]

mod impls;
mod int;
mod private;

pub use int::{BinInteger, BitPattern, Bitmap};
