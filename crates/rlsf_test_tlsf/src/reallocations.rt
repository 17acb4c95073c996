//! Payloads that are resized: where they are then, and what they hold.

ghost use Rattle.std.specs.Prelude.{◌≡◌, ◌≢◌, ◌<◌, length, IfSome, unwrap_or};
ghost use Rattle.rlsf_base.specs.Addr.{at};
ghost use Rattle.rlsf_model.specs.Callers.{align_at};

use super::bytes::copy_front;
use super::loans::numbers;
use super::pools::{Small, Step, Wide, all, are, layout_of, number, takes_steps, wide, with_pool};
use rlsf::{Addr, Layout};
use std::process::Abort;

// The bytes that are written into a payload, as far as there is room, before it is resized.
const BYTES: &[u8] = b"abcdefghijklmnopqrstuvwxyzABCDEFGHIJKLMNOPQRSTUVWXYZ0123456789+-";

/// Allocates a payload, fills it with a byte, resizes it, and reads it at an offset that both sizes have. Returns what was read.
fn kept(tlsf: &mut Small, layout: Layout, wanted: Layout, byte: u8, offset: usize) -> Option<u8>
    requires { (wanted.align ≡ layout.align) × (offset < layout.size) × (offset < wanted.size) }
    ensures { IfSome result (λ read. read ≡ byte) }
{
    let addr = tlsf.allocate(layout)?;
    tlsf.payload_mut(addr).fill(byte);
    let moved = tlsf.reallocate(addr, wanted)?;
    let bytes = tlsf.payload(moved);
    let read = bytes[offset];
    tlsf.deallocate(moved, wanted.align());
    Some(read)
}

/// Allocates a payload, fills it with a byte, resizes it in place, and reads it at an offset that both sizes have. Returns what was
/// read, if it was resized.
fn kept_there(
    tlsf: &mut Small,
    layout: Layout,
    wanted: Layout,
    byte: u8,
    offset: usize,
) -> Option<u8>
    requires { (wanted.align ≡ layout.align) × (offset < layout.size) × (offset < wanted.size) }
    ensures { IfSome result (λ read. read ≡ byte) }
{
    let addr = tlsf.allocate(layout)?;
    tlsf.payload_mut(addr).fill(byte);
    if tlsf.reallocate_no_move(addr, wanted).is_none() {
        tlsf.deallocate(addr, layout.align());
        return None;
    }
    let read = tlsf.payload(addr)[offset];
    tlsf.deallocate(addr, wanted.align());
    Some(read)
}

/// Writes these bytes into a payload, as far as there is room. Returns how many bytes it has.
fn leave_bytes(payload: &mut [u8]) -> usize
    ensures { length payload.new ≡ length payload.old }
{
    let had = payload.len();
    copy_front(BYTES, payload);
    had
}

/// A payload that was asked to get another size: where it was, how many bytes it had, and where it is if that wasn't refused.
#[derive(Clone, Copy)]
struct Moved {
    was: Addr,
    had: usize,
    moved: Option<Addr>,
}

/// The result for a payload: where it was and where it is, or 0; its length; and whether its first bytes are unchanged.
type Outcome = ((usize, usize), (usize, bool));

/// Where a payload was and where it is, or 0; how many bytes it has; and whether they begin as they did.
fn outcome(payload: Moved, bytes: &[u8]) -> Outcome {
    let places = (payload.was.get(), number(payload.moved));
    let n = bytes.len().min(payload.had).min(BYTES.len());
    (places, (bytes.len(), bytes[..n] == BYTES[..n]))
}

/// Passes if this is the result for a payload.
fn became(rt: &impl Abort, outcome: Option<Outcome>, expected: Outcome) {
    let ((was, moved), (len, is_kept)) = outcome.unwrap_or(((0, 0), (0, false)));
    let ((wanted_was, wanted_moved), (wanted_len, wanted_kept)) = expected;
    let wanted = [wanted_was, wanted_moved, wanted_len];
    are(rt, &[was, moved, len], &wanted);
    all(rt, &[is_kept == wanted_kept]);
}

/// The result for a payload that is filled and resized.
fn one(tlsf: &mut Small, layout: Layout, wanted: Layout) -> Option<Outcome>
    requires { wanted.align ≡ layout.align }
{
    let addr = tlsf.allocate(layout)?;
    let had = leave_bytes(tlsf.payload_mut(addr));
    let moved = tlsf.reallocate(addr, wanted);
    let payload = Moved {
        was: addr,
        had,
        moved,
    };
    let bytes = tlsf.payload(moved.unwrap_or(addr));
    Some(outcome(payload, bytes))
}

/// Writes bytes to a payload, reallocates it without its alignment, deallocates it, and returns what happened to it.
/// If there is a layout for it, another payload is allocated behind it first.
fn unaligned(
    tlsf: &mut Small,
    layout: Layout,
    behind: Option<Layout>,
    wanted: Layout,
) -> Option<Outcome> {
    let addr = tlsf.allocate(layout)?;
    let had = leave_bytes(tlsf.payload_mut(addr));
    if let Some(layout) = behind {
        let _ = tlsf.allocate(layout);
    }
    let moved = tlsf.reallocate_unknown_align(addr, wanted);
    let now = moved.unwrap_or(addr);
    let payload = Moved {
        was: addr,
        had,
        moved,
    };
    let outcome = outcome(payload, tlsf.payload(now));
    tlsf.deallocate_unknown_align(now);
    Some(outcome)
}

/// Which neighbour of a payload is deallocated.
#[derive(Clone, Copy)]
enum Freed {
    Neither,
    Before,
    Behind,
}

/// Gives one of the neighbours of the second of three payloads back, or neither. The second stays live.
fn give_back(
    tlsf: &mut Small,
    addresses: (Addr, Addr, Addr),
    layouts: (Layout, Layout, Layout),
    freed: Freed,
)
    requires first { align_at tlsf.old.state (at addresses.0) ≡ Some layouts.0.align }
    requires second { align_at tlsf.old.state (at addresses.1) ≡ Some layouts.1.align }
    requires third { align_at tlsf.old.state (at addresses.2) ≡ Some layouts.2.align }
    requires apart { (at addresses.0 ≢ at addresses.1) × (at addresses.2 ≢ at addresses.1) }
    ensures { align_at tlsf.new.state (at addresses.1) ≡ Some layouts.1.align }
{
    match freed {
        Freed::Neither => {}
        Freed::Before => tlsf.deallocate(addresses.0, layouts.0.align()),
        Freed::Behind => tlsf.deallocate(addresses.2, layouts.2.align()),
    }
}

/// Allocates three payloads, leaves bytes in the second one, deallocates one of its neighbours or neither, and
/// resizes the second one.
fn second_moved(
    tlsf: &mut Small,
    layouts: (Layout, Layout, Layout),
    freed: Freed,
    wanted: Layout,
) -> Option<Moved>
    requires { wanted.align ≡ layouts.1.align }
    ensures { IfSome result (λ r. align_at tlsf.new.state (at (unwrap_or r.moved r.was)) ≡ Some wanted.align) }
{
    let first = tlsf.allocate(layouts.0)?;
    let second = tlsf.allocate(layouts.1)?;
    let third = tlsf.allocate(layouts.2)?;
    let had = leave_bytes(tlsf.payload_mut(second));
    give_back(tlsf, (first, second, third), layouts, freed);
    let moved = tlsf.reallocate(second, wanted);
    Some(Moved {
        was: second,
        had,
        moved,
    })
}

/// The result for the second of three payloads.
fn second(
    tlsf: &mut Small,
    layouts: (Layout, Layout, Layout),
    freed: Freed,
    wanted: Layout,
) -> Option<Outcome>
    requires { wanted.align ≡ layouts.1.align }
{
    let payload = second_moved(tlsf, layouts, freed, wanted)?;
    let bytes = tlsf.payload(payload.moved.unwrap_or(payload.was));
    Some(outcome(payload, bytes))
}

/// The result for a payload that has moved before its neighbour, and is then resized again.
fn second_again(
    tlsf: &mut Small,
    layouts: (Layout, Layout, Layout),
    wanted: Layout,
    again: Layout,
) -> Option<Outcome>
    requires { (wanted.align ≡ layouts.1.align) × (again.align ≡ wanted.align) }
{
    let first = second_moved(tlsf, layouts, Freed::Before, wanted)?;
    let addr = first.moved?;
    let moved = tlsf.reallocate(addr, again);
    let payload = Moved {
        was: addr,
        had: first.had,
        moved,
    };
    let bytes = tlsf.payload(moved.unwrap_or(addr));
    Some(outcome(payload, bytes))
}

/// As `give_back`, for payloads of one layout.
fn wide_give_back(tlsf: &mut Wide, addresses: (Addr, Addr, Addr), layout: Layout, freed: Freed)
    requires first { align_at tlsf.old.state (at addresses.0) ≡ Some layout.align }
    requires second { align_at tlsf.old.state (at addresses.1) ≡ Some layout.align }
    requires third { align_at tlsf.old.state (at addresses.2) ≡ Some layout.align }
    requires apart { (at addresses.0 ≢ at addresses.1) × (at addresses.2 ≢ at addresses.1) }
    ensures { align_at tlsf.new.state (at addresses.1) ≡ Some layout.align }
{
    match freed {
        Freed::Neither => {}
        Freed::Before => tlsf.deallocate(addresses.0, layout.align()),
        Freed::Behind => tlsf.deallocate(addresses.2, layout.align()),
    }
}

/// Writes bytes into the second of three payloads of one layout, deallocates one of its neighbours or neither, and resizes it.
/// Returns its result.
fn wide_second(tlsf: &mut Wide, layout: Layout, freed: Freed, wanted: Layout) -> Option<Outcome>
    requires { wanted.align ≡ layout.align }
{
    let first = tlsf.allocate(layout)?;
    let second = tlsf.allocate(layout)?;
    let third = tlsf.allocate(layout)?;
    let had = leave_bytes(tlsf.payload_mut(second));
    wide_give_back(tlsf, (first, second, third), layout, freed);
    let moved = tlsf.reallocate(second, wanted);
    let payload = Moved {
        was: second,
        had,
        moved,
    };
    let bytes = tlsf.payload(moved.unwrap_or(second));
    Some(outcome(payload, bytes))
}

/// Three layouts of one alignment.
fn layouts(rt: &impl Abort, align: usize, sizes: (usize, usize, usize)) -> (Layout, Layout, Layout)
    ensures { result.1.align ≡ align }
{
    (
        layout_of(rt, sizes.0, align),
        layout_of(rt, sizes.1, align),
        layout_of(rt, sizes.2, align),
    )
}

#[test]
fn shrunk_to_nothing(rt: HostRuntime) {
    let layout = layout_of(&rt, 17, 1);
    let nothing = layout_of(&rt, 0, 1);
    let mut tlsf = with_pool(&rt, 96);
    let outcome = one(&mut tlsf, layout, nothing);
    became(&rt, outcome, ((4112, 4112), (16, true)));
    takes_steps(&rt, &mut tlsf, &[Step::Allocate(0, 1, 4144)]);
}

/// The second of three payloads of these sizes, in a pool of 256 bytes. One of its neighbours or neither is deallocated, and it is
/// resized. A case has its result, and the words in the memory, where a test needs them.
#[derive(Clone, Copy)]
struct Case {
    sizes: (usize, usize, usize),
    freed: Freed,
    wanted: usize,
    outcome: Outcome,
    first_level: Option<usize>,
    newest: Option<usize>,
    words: &'static [Step],
}

// By 32 bytes, where it has 48.
const MOVED_OVER_ITS_OWN_BYTES: Case = Case {
    sizes: (0, 40, 100),
    freed: Freed::Before,
    wanted: 70,
    outcome: ((4144, 4112), (80, true)),
    first_level: Some(0),
    newest: None,
    words: &[],
};

const MOVED_WITH_A_REST: Case = Case {
    sizes: (17, 40, 50),
    freed: Freed::Before,
    wanted: 70,
    outcome: ((4176, 4112), (80, true)),
    first_level: None,
    newest: Some(4192),
    words: &[Step::Word(4192, 32)],
};

// The sentinel names the block that reaches up to it.
const GROWN_TO_THE_END_OF_THE_NEXT: Case = Case {
    sizes: (40, 40, 70),
    freed: Freed::Behind,
    wanted: 144,
    outcome: ((4176, 4176), (144, true)),
    first_level: Some(0),
    newest: None,
    words: &[Step::Word(4328, 4160)],
};

const GREATEST_LAYOUT_IS_REFUSED: Case = Case {
    sizes: (40, 40, 70),
    freed: Freed::Neither,
    wanted: (1 << 63) - 1,
    outcome: ((4176, 0), (48, true)),
    first_level: None,
    newest: None,
    words: &[],
};

static CASES: [Case; 4] = [
    MOVED_OVER_ITS_OWN_BYTES,
    MOVED_WITH_A_REST,
    GROWN_TO_THE_END_OF_THE_NEXT,
    GREATEST_LAYOUT_IS_REFUSED,
];

/// Passes if the class table is as in a case.
fn has_table(rt: &impl Abort, tlsf: &Small, case: &Case) {
    if let Some(rows) = case.first_level {
        are(rt, &[tlsf.fl_bitmap() as usize], &[rows]);
    }
    if let Some(addr) = case.newest {
        are(rt, &[number(tlsf.first_free(0, 0))], &[addr]);
    }
}

#[test]
fn alignment_is_not_known(rt: HostRuntime) {
    let layout = layout_of(&rt, 8, 64);
    let behind = layout_of(&rt, 8, 1);
    let mut tlsf = with_pool(&rt, 512);
    let same = unaligned(&mut tlsf, layout, None, layout_of(&rt, 20, 1));
    became(&rt, same, ((4160, 4160), (32, true)));
    let grown = unaligned(&mut tlsf, layout, None, layout_of(&rt, 100, 1));
    became(&rt, grown, ((4160, 4160), (128, true)));
    let moved = unaligned(&mut tlsf, layout, Some(behind), layout_of(&rt, 100, 1));
    became(&rt, moved, ((4160, 4240), (112, true)));
    let refused = unaligned(&mut tlsf, layout, None, layout_of(&rt, 1000, 1));
    became(&rt, refused, ((4160, 0), (32, true)));
}

#[test]
fn second_of_three(rt: HostRuntime) {
    for case in &CASES {
        let wanted = layout_of(&rt, case.wanted, 1);
        let sizes = layouts(&rt, 1, case.sizes);
        let mut tlsf = with_pool(&rt, 256);
        let outcome = second(&mut tlsf, sizes, case.freed, wanted);
        became(&rt, outcome, case.outcome);
        has_table(&rt, &tlsf, case);
        takes_steps(&rt, &mut tlsf, case.words);
    }
}

#[test]
fn refused_without_room(rt: HostRuntime) {
    let wanted = layout_of(&rt, 70, 1);
    let again = layout_of(&rt, 200, 1);
    let sizes = layouts(&rt, 1, (0, 40, 100));
    let mut tlsf = with_pool(&rt, 256);
    let outcome = second_again(&mut tlsf, sizes, wanted, again);
    became(&rt, outcome, ((4112, 0), (80, true)));
    are(&rt, &[tlsf.fl_bitmap() as usize], &[0]);
}

// Of three payloads of 40 bytes in a pool of 65,536 bytes: which neighbour is deallocated, the alignment, the requested size, and
// the result.
static WIDE_CASES: [(Freed, usize, usize, Outcome); 16] = [
    // in place
    (Freed::Neither, 1, 0, ((4176, 4176), (16, true))),
    (Freed::Neither, 1, 48, ((4176, 4176), (48, true))),
    (Freed::Neither, 32, 0, ((4224, 4224), (0, true))),
    (Freed::Neither, 32, 48, ((4224, 4224), (64, true))),
    (Freed::Neither, 4096, 0, ((12288, 12288), (0, true))),
    (Freed::Neither, 4096, 48, ((12288, 12288), (64, true))),
    // into the next
    (Freed::Behind, 1, 100, ((4176, 4176), (112, true))),
    (Freed::Behind, 32, 100, ((4224, 4224), (128, true))),
    (Freed::Behind, 4096, 100, ((12288, 12288), (128, true))),
    // into the previous
    (Freed::Before, 1, 100, ((4176, 4112), (112, true))),
    (Freed::Before, 32, 100, ((4224, 4128), (128, true))),
    (Freed::Before, 4096, 3000, ((12288, 8192), (3008, true))),
    // elsewhere
    (Freed::Neither, 1, 100, ((4176, 4304), (112, true))),
    (Freed::Neither, 32, 100, ((4224, 4416), (128, true))),
    (Freed::Neither, 4096, 100, ((12288, 20480), (128, true))),
    // The greatest layout is refused.
    (
        Freed::Behind,
        4096,
        (1 << 63) - 4096,
        ((12288, 0), (64, true)),
    ),
];

#[test]
fn second_of_three_in_a_wide_pool(rt: HostRuntime) {
    for (freed, align, size, expected) in &WIDE_CASES {
        let layout = layout_of(&rt, 40, *align);
        let wanted = layout_of(&rt, *size, *align);
        let mut tlsf = wide(&rt, 65536);
        let outcome = wide_second(&mut tlsf, layout, *freed, wanted);
        became(&rt, outcome, *expected);
    }
}

#[test]
fn kept_reads_back(rt: HostRuntime) {
    let layout = layout_of(&rt, 40, 1);
    let wanted = layout_of(&rt, 100, 1);
    let mut tlsf = with_pool(&rt, 256);
    let grown = kept(&mut tlsf, layout, wanted, 7, 39);
    let shrunk = kept(&mut tlsf, wanted, layout, 8, 39);
    are(&rt, &numbers(grown, shrunk), &[7, 8]);
}

#[test]
fn kept_there_reads_back(rt: HostRuntime) {
    let layout = layout_of(&rt, 40, 1);
    let wanted = layout_of(&rt, 100, 1);
    let longest = layout_of(&rt, 300, 1);
    let mut tlsf = with_pool(&rt, 256);
    let grown = kept_there(&mut tlsf, layout, wanted, 7, 39);
    let shrunk = kept_there(&mut tlsf, wanted, layout, 8, 39);
    are(&rt, &numbers(grown, shrunk), &[7, 8]);
    let refused = kept_there(&mut tlsf, layout, longest, 9, 39);
    all(&rt, &[refused.is_none()]);
}
