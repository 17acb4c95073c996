//! The integer types that are bitmaps.

ghost use Rattle.std.specs.Prelude.{◌≡◌, ℕ, ◌&&◌, nat_lt};
ghost use Rattle.rlsf_int.specs.Bits.{bit};

mod i128;
mod i16;
mod i32;
mod i64;
mod i8;
mod isize;
mod u128;
mod u16;
mod u32;
mod u64;
mod u8;
mod usize;

/// Returns the lowest `len` positions of a number.
fn lowest(n: u32, len: u32) -> u32
    ensures { (i : ℕ) → bit result i ≡ (bit n i && (nat_lt i len && nat_lt i 32)) }
{
    if len >= 32 { n } else { n & ((1 << len) - 1) }
}
