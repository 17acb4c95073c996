//! Rows of the table: how long pools are for so many payloads, and how much of each is payload.

ghost use Rattle.std.specs.Prelude.{◌≡◌, ◌*◌, ◌<◌, ◌≤◌};
ghost use Rattle.rlsf_model_sizes.specs.SizeClass.{IsValid};
ghost use Rattle.rlsf_example_libraries_tour.specs.Rows as rows;

use rlsf::Layout;
use rlsf::classes::{pool_size_for_objects, pool_size_for_payloads};
use rlsf::int::BitPattern;
use std::fmt;

/// A pool for so many payloads.
#[derive(Clone, Copy)]
pub(crate) struct Pool {
    /// Its length.
    pub(crate) len: usize,
    /// How many of 1000 bytes are those of the payloads.
    pub(crate) share: usize,
}

/// A line of the table: the pools for so many payloads of a size.
#[derive(Clone, Copy)]
pub(crate) struct Row {
    /// How many payloads there are.
    pub(crate) count: usize,
    /// How many bytes each has.
    pub(crate) size: usize,
    /// The pool that never refuses payloads up to the size, while no more than so many are live before a call. None where it is
    /// longer than the longest chunk.
    pub(crate) payloads: Option<Pool>,
    /// The pool that holds exactly so many of the size, and the size to ask for. `None` if there is no such pool.
    pub(crate) objects: Option<(Pool, usize)>,
}

/// The line of so many payloads of a layout, for an allocator's parameters.
pub(crate) fn row_for<
    FLBitmap: BitPattern,
    SLBitmap: BitPattern,
    const FLLEN: usize,
    const SLLEN: usize,
>(count: usize, layout: Layout) -> Row
    requires { IsValid FLBitmap.width SLBitmap.width FLLEN SLLEN }
    ensures { result ≡ rows.row_of FLLEN SLLEN count layout.size layout.align }
{
    let size = layout.size();
    Row {
        count,
        size,
        payloads: payloads_pool::<FLBitmap, SLBitmap, FLLEN, SLLEN>(count, layout),
        objects: objects_pool::<FLBitmap, SLBitmap, FLLEN, SLLEN>(count, size),
    }
}

/// The pool that never refuses payloads up to a layout.
fn payloads_pool<
    FLBitmap: BitPattern,
    SLBitmap: BitPattern,
    const FLLEN: usize,
    const SLLEN: usize,
>(count: usize, layout: Layout) -> Option<Pool>
    requires { IsValid FLBitmap.width SLBitmap.width FLLEN SLLEN }
    ensures { result ≡ rows.payloads_pool FLLEN SLLEN count layout.size layout.align }
{
    let len = pool_size_for_payloads::<FLBitmap, SLBitmap, FLLEN, SLLEN>(count, layout)?;
    Some(pool_of(count, layout.size(), len))
}

/// The pool that holds exactly so many payloads of a size, and the size to ask for.
fn objects_pool<FLBitmap: BitPattern, SLBitmap: BitPattern, const FLLEN: usize, const SLLEN: usize>(
    count: usize,
    size: usize,
) -> Option<(Pool, usize)>
    requires { IsValid FLBitmap.width SLBitmap.width FLLEN SLLEN }
    ensures { result ≡ rows.objects_pool FLLEN SLLEN count size }
{
    let (len, asked) = pool_size_for_objects::<FLBitmap, SLBitmap, FLLEN, SLLEN>(count, size)?;
    Some((pool_of(count, size, len), asked))
}

/// A pool of a length, with room for so many payloads of a size.
fn pool_of(count: usize, size: usize, len: usize) -> Pool
    requires some { 0 < len }
    requires room { count * size ≤ len }
    ensures { result ≡ rows.pool_of count size len }
{
    let payload = count * size;
    let share = payload as u128 * 1000 / len as u128;
    Pool {
        len,
        share: share as usize,
    }
}

impl fmt::Display for Pool {
    fn fmt<W: fmt::Write>(&self, f: &mut fmt::Formatter<W>) -> fmt::Result {
        let Pool { len, share } = *self;
        write!(f, "{len:>10} {:>4}.{}%", share / 10, share % 10)
    }
}

impl fmt::Display for Row {
    fn fmt<W: fmt::Write>(&self, f: &mut fmt::Formatter<W>) -> fmt::Result {
        let Row { count, size, .. } = *self;
        let payloads = PayloadsColumns(self.payloads);
        let objects = ObjectsColumns(self.objects);
        write!(f, "{count:>6} {size:>6}  {payloads}  {objects}")
    }
}

/// The length and the share of a pool for payloads, or dashes without one.
#[derive(Clone, Copy)]
struct PayloadsColumns(Option<Pool>);

impl fmt::Display for PayloadsColumns {
    fn fmt<W: fmt::Write>(&self, f: &mut fmt::Formatter<W>) -> fmt::Result {
        match self.0 {
            Some(pool) => fmt::Display::fmt(&pool, f),
            None => f.write_str("         -       -"),
        }
    }
}

/// The size to ask for, and the length and the share of a pool for objects, or dashes without one.
#[derive(Clone, Copy)]
struct ObjectsColumns(Option<(Pool, usize)>);

impl fmt::Display for ObjectsColumns {
    fn fmt<W: fmt::Write>(&self, f: &mut fmt::Formatter<W>) -> fmt::Result {
        match self.0 {
            Some((pool, asked)) => write!(f, "{asked:>6} {pool}"),
            None => f.write_str("     -          -       -"),
        }
    }
}
