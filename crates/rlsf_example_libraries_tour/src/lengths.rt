//! Prints two lengths of pools for each number and size of payloads, and for three shapes of the allocator. A pool of the first length
//! never refuses payloads up to the size. One of the second holds exactly that number of that size.
//!
//! `rows.rt` computes the lines of the table, by the definitions in `specs/Rows.antt`.

ghost use Rattle.rlsf_model_sizes.specs.SizeClass.{IsValid};

use crate::error::TourError;
use crate::rows::row_for;
use rlsf::Layout;
use rlsf::int::BitPattern;

/// The heads of the columns, of all three tables.
const COLUMNS: &str = "                        any sizes                   one size
 count   size        pool   share   asked       pool   share";

/// How many payloads, and how many bytes each has.
const CASES: [(usize, usize); 9] = [
    (10, 16),
    (10, 100),
    (10, 700),
    (100, 16),
    (100, 100),
    (100, 700),
    (1000, 16),
    (1000, 100),
    (1000, 700),
];

/// Prints the tables of the three shapes.
pub(crate) fn show(rt: &impl Print) -> Result<(), TourError> {
    rt.println(COLUMNS)?;
    table::<u16, u16, 12, 16>(rt, "\n12 rows of 16 classes, chunks of up to 131072 bytes")?;
    table::<u64, u64, 59, 8>(rt, "\n59 rows of 8 classes, chunks of any length")?;
    table::<u64, u64, 64, 64>(rt, "\n64 rows of 64 classes, chunks of any length")
}

/// Prints the lines of a shape, below its name.
fn table<FLBitmap: BitPattern, SLBitmap: BitPattern, const FLLEN: usize, const SLLEN: usize>(
    rt: &impl Print,
    shape: &str,
) -> Result<(), TourError>
    requires { IsValid FLBitmap.width SLBitmap.width FLLEN SLLEN }
{
    rt.println(shape)?;
    for (count, size) in CASES {
        let layout = Layout::from_size_align(size, 16)?;
        let row = row_for::<FLBitmap, SLBitmap, FLLEN, SLLEN>(count, layout);
        rt.println(row)?;
    }
    Ok(())
}
