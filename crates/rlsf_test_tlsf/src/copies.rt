//! Bytes copied from one payload to another, and words that belong to no block.

ghost use Rattle.std.specs.Prelude.{◌≡◌, ◌%◌, ◌+◌, ◌≤◌, ℕ, length, IfSome, IsSome};
ghost use Rattle.rlsf_base.specs.Addr.{at};
ghost use Rattle.rlsf_model.specs.Callers.{align_at, bytes_at};

use super::bytes::copy_front;
use super::loans::place;
use super::pools::{Small, Step, are, layout_of, takes_steps, with_pool, zeros};
use rlsf::{Addr, Layout, Range};
use std::process::Abort;

/// Allocates a payload and leaves bytes in its front, as many as there is room for. As many are usable as were asked for,
/// and those of other payloads stay so.
fn left(tlsf: &mut Small, layout: Layout, bytes: &[u8]) -> Option<Addr>
    ensures live { IfSome result (λ addr. IsSome (align_at tlsf.new.state (at addr))) }
    ensures long { IfSome result (λ addr. layout.size ≤ length (bytes_at tlsf.new.state (at addr))) }
    ensures stays { (a : ℕ) → IsSome (align_at tlsf.old.state a) → IsSome (align_at tlsf.new.state a) }
    ensures lengths { (a : ℕ) → IsSome (align_at tlsf.old.state a) → length (bytes_at tlsf.new.state a) ≡ length (bytes_at tlsf.old.state a) }
{
    let addr = tlsf.allocate(layout)?;
    copy_front(bytes, tlsf.payload_mut(addr));
    Some(addr)
}

/// Allocates two payloads, leaves bytes in both, and copies the first `len` bytes of the one over those of the other. Returns
/// where they lie, or 0 where the one doesn't have what was left there, or the other not what is expected.
fn copied(
    tlsf: &mut Small,
    layout: Layout,
    bytes: (&[u8], &[u8]),
    len: usize,
    expected: &[u8],
) -> Option<[usize; 2]>
    requires { len ≤ layout.size }
{
    let one = left(tlsf, layout, bytes.0)?;
    let two = left(tlsf, layout, bytes.1)?;
    tlsf.copy_payload(one, two, len);
    Some([
        place(one, tlsf.payload(one), bytes.0),
        place(two, tlsf.payload(two), expected),
    ])
}

/// Allocates a payload, leaves bytes in it, and copies its first `len` bytes over themselves. Returns whether it has what was
/// left there.
fn copied_onto_itself(tlsf: &mut Small, layout: Layout, bytes: &[u8], len: usize) -> Option<bool>
    requires { len ≤ layout.size }
{
    let addr = left(tlsf, layout, bytes)?;
    tlsf.copy_payload(addr, addr, len);
    Some(tlsf.payload(addr) == bytes)
}

/// Makes one chunk of the first 256 of 288 bytes from the address 4096 on. Then sets a word in the last 16 bytes of its sentinel or
/// behind it.
fn with_spare_word(rt: &(impl Abort + AllocGlobal), addr: usize, word: u64) -> Small
    requires { (addr % 8 ≡ 0) × (4336 ≤ addr) × (addr + 8 ≤ 4384) }
{
    let mut tlsf = Small::new(zeros(rt, 4096, 288));
    tlsf.insert_free_block(Range {
        start: 4096,
        len: 256,
    });
    tlsf.set_spare_word(addr, word);
    tlsf
}

/// How many bytes are copied over `abcdefghijklmnop`, and the result.
static COPIES: [(usize, &[u8]); 2] = [(10, b"ABCDEFGHIJklmnop"), (0, b"abcdefghijklmnop")];

#[test]
fn front_is_copied(rt: HostRuntime) {
    let layout = layout_of(&rt, 16, 1);
    let bytes: (&[u8], &[u8]) = (b"ABCDEFGHIJKLMNOP", b"abcdefghijklmnop");
    for (len, expected) in &COPIES {
        let mut tlsf = with_pool(&rt, 256);
        let reads = copied(&mut tlsf, layout, bytes, *len, expected);
        are(&rt, &reads.unwrap_or([0; 2]), &[4112, 4144]);
    }
    let mut tlsf = with_pool(&rt, 256);
    let stays = copied_onto_itself(&mut tlsf, layout, bytes.0, 10);
    are(&rt, &[stays.unwrap_or(false) as usize], &[1]);
}

#[test]
fn word_in_a_sentinel(rt: HostRuntime) {
    let mut tlsf = with_spare_word(&rt, 4344, 77);
    let steps = [
        Step::Word(4336, 0),
        Step::Word(4344, 77),
        Step::Word(4320, 35),
        Step::Word(4328, 4096),
        // The complete pool is free, and the word stays when it is allocated.
        Step::Allocate(208, 1, 4112),
        Step::Word(4336, 0),
        Step::Word(4344, 77),
        Step::Word(4096, 225),
        Step::Word(4320, 35),
    ];
    takes_steps(&rt, &mut tlsf, &steps);
}

#[test]
fn word_behind_a_pool(rt: HostRuntime) {
    let mut tlsf = with_spare_word(&rt, 4376, 77);
    let steps = [
        Step::Allocate(208, 1, 4112),
        Step::Word(4368, 0),
        Step::Word(4376, 77),
        Step::Allocate(0, 1, 0),
    ];
    takes_steps(&rt, &mut tlsf, &steps);
}
