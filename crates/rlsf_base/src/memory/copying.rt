//! Copies within a block's bytes.

ghost use Rattle.std.specs.Prelude.{◌≡◌, ℕ, ◌+◌, ◌-◌, ◌%◌, ◌^◌, ◌<◌, ◌≤◌, ◌⊎◌, List, length, take};
ghost use Rattle.core.specs.List.{copy_within};
ghost use Rattle.rlsf_base.specs.Out.{Change, kept_at};
ghost use Rattle.rlsf_base.specs.Changes.{AreBytesHere, IsOwn};
ghost use Rattle.rlsf_base.specs.Steps.Fronts.{HasCopied, HasFront};
ghost use Rattle.rlsf_base.specs.Steps.Owners.{Has, HasHere, HasOwn, Becomes, Gets, values_in, changes_with, values_with};

use super::block::{Base, Bytes};

/// Copies `len` bytes, all here, from the place `from` of the block on to the place `to` on. The bytes at `to` may be raw. The
/// bytes written are those before the call.
#[inline(always)]
pub(crate) fn copy_bytes(bytes: &mut Bytes, base: Base, from: usize, to: usize, len: usize)
    ghost out: { List Change }
    requires lies { (base.ptr ≡ bytes.old.at) × Has bytes.old from len × Has bytes.old to len × (bytes.old.skip + length bytes.old.bytes < 2 ^ 64) }
    requires kept { AreBytesHere bytes.old.out (from - bytes.old.skip) len × IsOwn bytes.old.out (to - bytes.old.skip) len }
    requires out { out ≡ changes_with bytes.old to len }
    ensures { Becomes bytes.old bytes.new (values_with bytes.old to len (values_in bytes.old from len)) out }
{
    copy(bytes, base, from, to, len);
    bytes.recount();
}

// The same. What became of the bytes is as if they were written, except for how it is counted.
#[inline(always)]
fn copy(bytes: &mut Bytes, base: Base, from: usize, to: usize, len: usize)
    requires lies { (base.ptr ≡ bytes.old.at) × Has bytes.old from len × Has bytes.old to len × (bytes.old.skip + length bytes.old.bytes < 2 ^ 64) }
    requires kept { AreBytesHere bytes.old.out (from - bytes.old.skip) len × IsOwn bytes.old.out (to - bytes.old.skip) len }
    ensures bytes { Gets bytes.old bytes.new (values_with bytes.old to len (values_in bytes.old from len)) }
    ensures out { (k : ℕ) → kept_at bytes.new.out k ≡ kept_at (changes_with bytes.old to len) k }
{
    if from + len <= to || to + len <= from {
        copy_apart::<1>(bytes, base, from, to, len);
    } else if from < to {
        copy_up(bytes, base, from, to - from, len);
    } else if to < from {
        copy_down(bytes, base, to, from - to, len);
    }
}

// To bytes that overlap those copied, `by` places above. The last of them may be raw: they are written first.
#[inline(never)]
fn copy_up(bytes: &mut Bytes, base: Base, from: usize, by: usize, len: usize)
    requires lies { (base.ptr ≡ bytes.old.at) × (by < len) × Has bytes.old from (by + len) × (bytes.old.skip + length bytes.old.bytes < 2 ^ 64) }
    requires kept { AreBytesHere bytes.old.out (from - bytes.old.skip) len × IsOwn bytes.old.out (from - bytes.old.skip + len) by }
    ensures bytes { Gets bytes.old bytes.new (values_with bytes.old (from + by) len (values_in bytes.old from len)) }
    ensures out { (k : ℕ) → kept_at bytes.new.out k ≡ kept_at (changes_with bytes.old (from + by) len) k }
{
    copy_apart::<0>(bytes, base, from + len - by, from + len, by);
    let rest = bytes.slice_mut(base, from, len);
    rest.copy_within(0..len - by, by);
}

// To bytes that overlap those copied, `by` places below. The first of them may be raw: they are written first.
#[inline(never)]
fn copy_down(bytes: &mut Bytes, base: Base, to: usize, by: usize, len: usize)
    requires lies { (base.ptr ≡ bytes.old.at) × (by < len) × Has bytes.old to (by + len) × (bytes.old.skip + length bytes.old.bytes < 2 ^ 64) }
    requires kept { AreBytesHere bytes.old.out (to - bytes.old.skip + by) len × IsOwn bytes.old.out (to - bytes.old.skip) by }
    ensures bytes { Gets bytes.old bytes.new (values_with bytes.old to len (values_in bytes.old (to + by) len)) }
    ensures out { (k : ℕ) → kept_at bytes.new.out k ≡ kept_at (changes_with bytes.old to len) k }
{
    copy_apart::<0>(bytes, base, to + by, to, by);
    let rest = bytes.slice_mut(base, to + by, len);
    rest.copy_within(by..len, 0);
}

// To bytes that don't overlap those copied.
fn copy_apart<const UNITS: usize>(bytes: &mut Bytes, base: Base, from: usize, to: usize, len: usize)
    requires lies { (base.ptr ≡ bytes.old.at) × Has bytes.old from len × Has bytes.old to len × (bytes.old.skip + length bytes.old.bytes < 2 ^ 64) }
    requires kept { AreBytesHere bytes.old.out (from - bytes.old.skip) len × IsOwn bytes.old.out (to - bytes.old.skip) len }
    requires apart { (from + len ≤ to) ⊎ (to + len ≤ from) }
    ensures bytes { Gets bytes.old bytes.new (values_with bytes.old to len (values_in bytes.old from len)) }
    ensures out { (k : ℕ) → kept_at bytes.new.out k ≡ kept_at (changes_with bytes.old to len) k }
{
    let mut part = bytes.take_out(to, len);
    write_bytes::<UNITS>(&mut part, base, to, bytes.slice(base, from, len));
    bytes.put_back(part);
}

// Writes all bytes of a slice: units of 16 bytes, if `UNITS` is 1, then the rest.
#[inline(always)]
fn write_bytes<const UNITS: usize>(bytes: &mut Bytes, base: Base, place: usize, from: &[u8])
    requires { (base.ptr ≡ bytes.old.at) × (bytes.old.skip ≡ place) × (length bytes.old.bytes ≡ length from.now) × IsOwn bytes.old.out 0 (length from.now) × (place + length from.now < 2 ^ 64) }
    ensures { Gets bytes.old bytes.new from.now × AreBytesHere bytes.new.out 0 (length from.now) }
{
    let written = write_units::<UNITS>(bytes, base, place, from);
    if UNITS == 0 {
        write_rest(bytes, base, place, from, written);
        return;
    }
    if written < from.len() {
        write_end(bytes, base, place, from, written);
    }
}

// Writes units of 16 bytes, if `UNITS` is 1, and returns the number of bytes written. The compiler makes three loops of one that goes byte
// by byte, since it can't see that the parts don't overlap. From a payload to the end of its block there are whole units.
#[inline(always)]
fn write_units<const UNITS: usize>(
    bytes: &mut Bytes,
    base: Base,
    place: usize,
    from: &[u8],
) -> usize
    requires { (base.ptr ≡ bytes.old.at) × (bytes.old.skip ≡ place) × (length bytes.old.bytes ≡ length from.now) × IsOwn bytes.old.out 0 (length from.now) × (place + length from.now < 2 ^ 64) }
    ensures { HasFront bytes.old bytes.new from.now result }
{
    if UNITS == 0 {
        return 0;
    }
    let mut index = 0;
    while let Some(unit) = from[index..].first_chunk::<16>() {
        bytes.write_unit(base, place + index, *unit);
        index += 16;
    }
    index
}

// The same as `write_rest`, out of line: so a copy of whole units saves no register for it.
#[inline(never)]
fn write_end(bytes: &mut Bytes, base: Base, place: usize, from: &[u8], written: usize)
    requires place { (base.ptr ≡ bytes.old.at) × (bytes.old.skip ≡ place) × (length bytes.old.bytes ≡ length from.now) × IsOwn bytes.old.out 0 (length from.now) × (place + length from.now < 2 ^ 64) }
    requires written { (written ≤ length from.now) × (take written bytes.old.bytes ≡ take written from.now) × AreBytesHere bytes.old.out 0 written }
    ensures { Gets bytes.old bytes.new from.now × AreBytesHere bytes.new.out 0 (length from.now) }
{
    write_rest(bytes, base, place, from, written);
}

// Writes the bytes behind the first `written`, which are written already.
#[inline(always)]
fn write_rest(bytes: &mut Bytes, base: Base, place: usize, from: &[u8], written: usize)
    requires place { (base.ptr ≡ bytes.old.at) × (bytes.old.skip ≡ place) × (length bytes.old.bytes ≡ length from.now) × IsOwn bytes.old.out 0 (length from.now) × (place + length from.now < 2 ^ 64) }
    requires written { (written ≤ length from.now) × (take written bytes.old.bytes ≡ take written from.now) × AreBytesHere bytes.old.out 0 written }
    ensures { Gets bytes.old bytes.new from.now × AreBytesHere bytes.new.out 0 (length from.now) }
{
    for index in written..from.len() {
        bytes.write(base, place + index, from[index]);
    }
}

/// Copies `len` bytes, all here, from the place `from` of the block on to the place `to` on, in units of 16 bytes. The bytes at `to` begin
/// no later than those copied, or behind them, and may be raw. The bytes written are those before the call.
// The first unit goes first: so each is read before it is written, and no test is needed whether the bytes overlap.
#[inline(always)]
pub(crate) fn copy_units(bytes: &mut Bytes, base: Base, from: usize, to: usize, len: usize)
    ghost out: { List Change }
    requires lies { (base.ptr ≡ bytes.old.at) × Has bytes.old from len × Has bytes.old to len × (bytes.old.skip + length bytes.old.bytes < 2 ^ 64) }
    requires kept { AreBytesHere bytes.old.out (from - bytes.old.skip) len × IsOwn bytes.old.out (to - bytes.old.skip) len }
    requires units { (len % 16 ≡ 0) × ((from + len ≤ to) ⊎ (to ≤ from)) }
    requires out { out ≡ changes_with bytes.old to len }
    ensures { Becomes bytes.old bytes.new (values_with bytes.old to len (values_in bytes.old from len)) out }
{
    let pairs = pairs_of(len);
    let mut index = 0;
    // Not `<`: so the compiler can't count the rounds, and doesn't unroll the loop further. Most payloads have few units.
    while index != pairs {
        copy_unit(bytes, base, from + index, to + index);
        let next = index + 16;
        copy_unit(bytes, base, from + next, to + next);
        index = next + 16;
    }
    if pairs == len {
        bytes.recount();
        return;
    }
    copy_unit(bytes, base, from + pairs, to + pairs);
    bytes.recount();
}

// Returns how many of the `len` bytes are in pairs of units. It isn't `len - len % 32`, from which the compiler could count the rounds.
#[inline(always)]
fn pairs_of(len: usize) -> usize
    requires { len % 16 ≡ 0 }
    ensures pairs { result % 32 ≡ 0 }
    ensures rest { (result ≡ len) ⊎ (result + 16 ≡ len) }
{
    if len % 32 == 0 { len } else { len - 16 }
}

// Copies the unit from a place on to another place.
#[inline(always)]
fn copy_unit(bytes: &mut Bytes, base: Base, from: usize, to: usize)
    requires { (base.ptr ≡ bytes.old.at) × HasHere bytes.old from 16 × HasOwn bytes.old to 16 }
    ensures { Becomes bytes.old bytes.new (values_with bytes.old to 16 (values_in bytes.old from 16)) (changes_with bytes.old to 16) }
{
    let unit = unit_at(bytes, base, from);
    bytes.write_unit(base, to, unit);
}

// Returns the unit from a place on.
#[inline(always)]
fn unit_at(bytes: &Bytes, base: Base, place: usize) -> [u8; 16]
    requires { (base.ptr ≡ bytes.now.at) × HasHere bytes.now place 16 }
    ensures { result ≡ values_in bytes.now place 16 }
{
    match bytes.slice(base, place, 16).first_chunk::<16>() {
        Some(unit) => *unit,
        // There are 16 bytes, so `None` doesn't come.
        None => [0; 16],
    }
}

/// Copies the `len` bytes from `from` on to the `len` bytes from `to` on. The bytes written are those before the call.
// Parts that don't overlap are two slices, between which the compiler copies by `memmove`. A slice's own `copy_within` goes byte by
// byte in one direction, and the compiler makes a loop of 32 bytes a turn of it.
#[inline(always)]
pub(crate) fn copy_in_slice(bytes: &mut [u8], from: usize, len: usize, to: usize)
    requires { (from + len ≤ length bytes.old) × (to + len ≤ length bytes.old) }
    ensures { bytes.new ≡ copy_within bytes.old from (from + len) to }
{
    if from + len <= to {
        let (low, high) = bytes.split_at_mut(to);
        high[..len].copy_from_slice(&low[from..from + len]);
    } else if to + len <= from {
        let (low, high) = bytes.split_at_mut(from);
        low[to..to + len].copy_from_slice(&high[..len]);
    } else {
        bytes.copy_within(from..from + len, to);
    }
}
