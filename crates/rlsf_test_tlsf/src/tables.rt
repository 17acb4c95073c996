//! The class table: what the bitmaps, the heads and the words say, and allocators of many shapes.

ghost use Rattle.std.specs.Prelude.{◌<◌};

use super::pools::{
    Small, Step, all, are, inserts, layout_of, number, takes_steps, with_inserted, with_pool,
};
use rlsf::{Layout, Range};

/// The newest free block of a class, or 0.
fn newest(tlsf: &Small, fl: usize, sl: usize) -> usize
    requires { (fl < 8) × (sl < 8) }
{
    number(tlsf.first_free(fl, sl))
}

/// Allocates four payloads, and deallocates the first one and then the third one. Returns their addresses.
fn every_other_freed(tlsf: &mut Small, layout: Layout) -> Option<[usize; 4]> {
    let first = tlsf.allocate(layout)?;
    let second = tlsf.allocate(layout)?;
    let third = tlsf.allocate(layout)?;
    let fourth = tlsf.allocate(layout)?;
    tlsf.deallocate(first, layout.align());
    tlsf.deallocate(third, layout.align());
    Some([first.get(), second.get(), third.get(), fourth.get()])
}

#[test]
fn two_free_blocks_of_a_class(rt: HostRuntime) {
    let layout = layout_of(&rt, 0, 1);
    let mut tlsf = with_pool(&rt, 256);
    let addresses = every_other_freed(&mut tlsf, layout);
    are(&rt, &addresses.unwrap_or([0; 4]), &[4112, 4144, 4176, 4208]);
    let bitmaps = [
        tlsf.fl_bitmap() as usize,
        tlsf.sl_bitmap(0) as usize,
        tlsf.sl_bitmap(1) as usize,
    ];
    are(&rt, &bitmaps, &[3, 1, 16]);
    let newest_free = [
        newest(&tlsf, 0, 0),
        newest(&tlsf, 1, 4),
        newest(&tlsf, 1, 0),
    ];
    are(&rt, &newest_free, &[4160, 4224, 0]);
    // The block that was freed last is the newest, and is taken.
    let steps = [
        Step::Word(4176, 4096),
        Step::Word(4120, 4160),
        Step::Allocate(0, 1, 4176),
    ];
    takes_steps(&rt, &mut tlsf, &steps);
}

#[test]
fn one_free_block(rt: HostRuntime) {
    let mut tlsf = with_pool(&rt, 96);
    takes_steps(&rt, &mut tlsf, &[Step::Allocate(0, 1, 4112)]);
    let table = [
        tlsf.fl_bitmap() as usize,
        tlsf.sl_bitmap(0) as usize,
        newest(&tlsf, 0, 0),
    ];
    are(&rt, &table, &[1, 1, 4128]);
}

#[test]
fn signed_bitmaps(rt: HostRuntime) {
    let pool = Range {
        start: 4096,
        len: 8192,
    };
    let (tlsf, _) = with_inserted::<i8, i8, 8, 8>(&rt, pool, pool);
    // The pool's block has the highest class: its bits are those of the signs.
    all(&rt, &[tlsf.fl_bitmap() == -128, tlsf.sl_bitmap(7) == -128]);
}

#[test]
fn shapes(rt: HostRuntime) {
    let (least, pool, page) = ((4096, 64), (4096, 96), (4096, 8192));
    let steps = [Step::GiveBack(16, 1, 4112), Step::Allocate(16, 1, 4112)];
    inserts::<u8, u8, 1, 1>(&rt, least, least, &steps);
    inserts::<u8, u8, 8, 1>(&rt, pool, pool, &steps);
    inserts::<i8, i8, 8, 8>(&rt, page, page, &steps);
    inserts::<usize, usize, 64, 64>(&rt, pool, pool, &steps);
    inserts::<u128, u128, 128, 128>(&rt, pool, pool, &steps);
}
