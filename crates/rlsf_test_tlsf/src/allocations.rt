//! Ranges that are inserted, the addresses that are allocated, and the words in the memory then.

ghost use Rattle.std.specs.Prelude.{◌≡◌, ◌≢◌, IfSome};
ghost use Rattle.rlsf_base.specs.Addr.{at};
ghost use Rattle.rlsf_model.specs.Callers.{align_at};

use super::pools::{
    Small, Step, are, inserts, layout_of, none_is_wrong, number, with_inserted, with_pool, word_at,
};
use rlsf::{Addr, Layout, Memory, Range};

#[test]
fn class_that_reaches(rt: HostRuntime) {
    let pool = (4096, 128);
    inserts::<u8, u8, 8, 1>(&rt, pool, pool, &[Step::Allocate(66, 1, 0)]);
    inserts::<u8, u8, 8, 8>(&rt, pool, pool, &[Step::Allocate(66, 1, 4112)]);
}

#[test]
fn ranges_are_inserted(rt: HostRuntime) {
    let last = (18446744073709551552, 63);
    let top = (18446744073709551424, 191);
    let steps = [Step::Allocate(0, 1, 18446744073709551440)];
    // A skipped front counts.
    let (_, front) = inserts::<u8, u8, 8, 8>(&rt, (4097, 4096), (4097, 1024), &[]);
    // At the top of the address space.
    let (_, none) = inserts::<u8, u8, 8, 8>(&rt, last, (18446744073709551585, 0), &[]);
    let (_, all) = inserts::<u8, u8, 8, 8>(&rt, top, top, &steps);
    are(&rt, &[front, none, all], &[1023, 0, 160]);
}

#[test]
fn chunks_of_the_greatest_length(rt: HostRuntime) {
    let addresses = (4096, 4096);
    let steps = [
        Step::Allocate(0, 1, 4240),
        Step::Allocate(0, 1, 4176),
        Step::Allocate(0, 1, 4112),
        Step::Allocate(0, 1, 0),
    ];
    let (_, more) = inserts::<u8, u8, 1, 1>(&rt, addresses, (4096, 200), &steps);
    let (_, less) = inserts::<u8, u8, 1, 1>(&rt, addresses, (4096, 160), &[]);
    are(&rt, &[more, less], &[192, 128]);
}

#[test]
fn wide_alignments(rt: HostRuntime) {
    let (page, short) = ((4096, 8192), (4096, 256));
    inserts::<u8, u8, 8, 8>(&rt, page, page, &[Step::Allocate(1, 4096, 8192)]);
    // The word before the payload names its block.
    let steps = [
        Step::Allocate(0, 1, 4112),
        Step::Allocate(1, 64, 4160),
        Step::Word(4152, 4128),
    ];
    inserts::<u8, u8, 8, 8>(&rt, short, short, &steps);
}

#[test]
fn greatest_sizes_are_refused(rt: HostRuntime) {
    let pool = (4096, 256);
    let steps = [
        Step::Allocate((1 << 63) - 1, 1, 0),
        Step::Allocate(0, 1 << 63, 0),
        Step::Allocate(0, 1, 4112),
    ];
    inserts::<u64, u64, 59, 8>(&rt, pool, pool, &steps);
}

/// Addresses in a pool of 96 bytes with a payload, and the words there.
static WORDS: [(usize, u64); 8] = [
    (4096, 33),
    (4104, 0),
    (4128, 32),
    (4136, 4096),
    (4144, 0),
    (4152, 0),
    (4160, 35),
    (4168, 4128),
];

/// The index of the first address that has another word.
fn first_other(memory: &Memory, words: &[(usize, u64)]) -> Option<usize> {
    for (index, (addr, word)) in words.iter().enumerate() {
        if word_at(memory, *addr) != Some(*word) {
            return Some(index);
        }
    }
    None
}

#[test]
fn words_of_a_pool(rt: HostRuntime) {
    let layout = layout_of(&rt, 0, 1);
    let pool = Range {
        start: 4096,
        len: 96,
    };
    let (mut tlsf, taken) = with_inserted::<u8, u8, 8, 8>(&rt, pool, pool);
    let addr = number(tlsf.allocate(layout));
    are(&rt, &[taken, addr], &[96, 4112]);
    none_is_wrong(&rt, first_other(&tlsf.into_memory(), &WORDS));
}

/// Allocates two payloads. The clauses of the calls are enough to deallocate either, in any order.
fn two(tlsf: &mut Small, first: Layout, second: Layout) -> Option<(Addr, Addr)>
    ensures first { IfSome result (λ r. align_at tlsf.new.state (at r.0) ≡ Some first.align) }
    ensures second { IfSome result (λ r. align_at tlsf.new.state (at r.1) ≡ Some second.align) }
    ensures apart { IfSome result (λ r. at r.0 ≢ at r.1) }
{
    let Some(one) = tlsf.allocate(first) else {
        return None;
    };
    let Some(other) = tlsf.allocate(second) else {
        return None;
    };
    Some((one, other))
}

#[test]
fn two_are_live(rt: HostRuntime) {
    let layout = layout_of(&rt, 0, 1);
    let mut tlsf = with_pool(&rt, 96);
    let addresses = match two(&mut tlsf, layout, layout) {
        Some((one, other)) => [one.get(), other.get()],
        None => [0; 2],
    };
    are(&rt, &addresses, &[4112, 4144]);
}
