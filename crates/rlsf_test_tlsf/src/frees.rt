//! Deallocated payloads: which addresses are allocated then, and the words in the memory.

ghost use Rattle.std.specs.Prelude.{◌≡◌, ◌≢◌, ℕ, IfSome};
ghost use Rattle.rlsf_base.specs.Addr.{at};
ghost use Rattle.rlsf_model.specs.Callers.{align_at};

use super::pools::{Step, are, inserts, layout_of, takes_steps, wide, with_pool};
use rlsf::int::BitPattern;
use rlsf::{Addr, Layout, Tlsf};

/// When the first one of two payloads is deallocated.
#[derive(Clone, Copy)]
enum Order {
    FirstFirst,
    FirstLast,
}

/// Allocates a payload, if there is room. What was live stays live. Returns its address, or 0.
fn third<Bits: BitPattern, const FLLEN: usize, const SLLEN: usize>(
    tlsf: &mut Tlsf<Bits, Bits, FLLEN, SLLEN>,
    layout: Layout,
) -> usize
    ensures { (a align : ℕ) → align_at tlsf.old.state a ≡ Some align → align_at tlsf.new.state a ≡ Some align }
{
    match tlsf.allocate(layout) {
        Some(addr) => addr.get(),
        None => 0,
    }
}

/// Allocates two payloads for a layout, and requests a third for another layout. Returns the two, and the third's address, or 0.
fn two_taken<Bits: BitPattern, const FLLEN: usize, const SLLEN: usize>(
    tlsf: &mut Tlsf<Bits, Bits, FLLEN, SLLEN>,
    layout: Layout,
    other: Layout,
) -> Option<((Addr, Addr), usize)>
    ensures first { IfSome result (λ r. align_at tlsf.new.state (at r.0.0) ≡ Some layout.align) }
    ensures second { IfSome result (λ r. align_at tlsf.new.state (at r.0.1) ≡ Some layout.align) }
    ensures apart { IfSome result (λ r. at r.0.0 ≢ at r.0.1) }
{
    let Some(first) = tlsf.allocate(layout) else {
        return None;
    };
    let Some(second) = tlsf.allocate(layout) else {
        return None;
    };
    Some(((first, second), third(tlsf, other)))
}

/// Allocates two payloads for a layout, requests a third for another layout, and deallocates the two. Returns the three addresses.
fn two_freed<Bits: BitPattern, const FLLEN: usize, const SLLEN: usize>(
    tlsf: &mut Tlsf<Bits, Bits, FLLEN, SLLEN>,
    layout: Layout,
    other: Layout,
    order: Order,
) -> Option<[usize; 3]> {
    let Some(((first, second), third)) = two_taken(tlsf, layout, other) else {
        return None;
    };
    match order {
        Order::FirstFirst => {
            tlsf.deallocate(first, layout.align());
            tlsf.deallocate(second, layout.align());
        }
        Order::FirstLast => {
            tlsf.deallocate(second, layout.align());
            tlsf.deallocate(first, layout.align());
        }
    }
    Some([first.get(), second.get(), third])
}

static ORDERS: [Order; 2] = [Order::FirstFirst, Order::FirstLast];

#[test]
fn two_are_joined_in_either_order(rt: HostRuntime) {
    let layout = layout_of(&rt, 0, 1);
    for order in &ORDERS {
        let mut tlsf = with_pool(&rt, 96);
        let addresses = two_freed(&mut tlsf, layout, layout, *order);
        are(&rt, &addresses.unwrap_or([0; 3]), &[4112, 4144, 0]);
        takes_steps(&rt, &mut tlsf, &[Step::Allocate(48, 1, 4112)]);
    }
}

#[test]
fn pool_is_one_block_again(rt: HostRuntime) {
    let layout = layout_of(&rt, 8, 8);
    let whole = layout_of(&rt, 65536, 1);
    let mut tlsf = wide(&rt, 65536);
    let addresses = two_freed(&mut tlsf, layout, whole, Order::FirstFirst);
    are(&rt, &addresses.unwrap_or([0; 3]), &[4112, 4144, 0]);
    takes_steps(&rt, &mut tlsf, &[Step::Word(4096, 65504)]);
}

#[test]
fn wide_alignment(rt: HostRuntime) {
    let pool = (4096, 8192);
    let steps = [
        Step::GiveBack(1, 4096, 8192),
        Step::Word(4096, 8160),
        Step::Allocate(0, 1, 4112),
    ];
    inserts::<u8, u8, 8, 8>(&rt, pool, pool, &steps);
}

#[test]
fn payload_of_no_bytes(rt: HostRuntime) {
    let pool = (4096, 65536);
    let steps = [
        Step::GiveBack(0, 32, 4128),
        Step::Word(4096, 65504),
        Step::Allocate(0, 1, 4112),
    ];
    inserts::<u16, u16, 12, 16>(&rt, pool, pool, &steps);
}
