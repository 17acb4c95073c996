//! Read access to the bitmaps of the allocator's class table.

ghost use Rattle.std.specs.Prelude.{◌≡◌, ◌<◌, ℕ};
ghost use Rattle.std.specs.List.{list_any};
ghost use Rattle.rlsf_model_sizes.specs.SizeClass.{class_at};
ghost use Rattle.rlsf_int.specs.Bits.{bit};
ghost use Rattle.rlsf_model.specs.Allocate.{has_class};
ghost use Rattle.rlsf_table.specs.Table.{is_in_row};

use crate::tlsf::Tlsf;
use rlsf_int::Bitmap;

impl<FLBitmap: Bitmap, SLBitmap: Bitmap, const FLLEN: usize, const SLLEN: usize> Tlsf<
    FLBitmap,
    SLBitmap,
    FLLEN,
    SLLEN,
> {
    /// Returns the first-level bitmap. The bit of a row is set if and only if there is a free block whose class is in the
    /// row.
    ///
    /// Takes time proportional to `FLLEN`, the number of rows.
    pub fn fl_bitmap(&self) -> FLBitmap
        ensures { (fl : ℕ) → bit (FLBitmap.pattern result) fl ≡ list_any (is_in_row SLLEN fl) self.now.state.free }
    {
        self.table.fl_bitmap()
    }

    /// Returns the second-level bitmap of the row `fl`. The bit of a class is set if and only if there is a free block of
    /// the class.
    ///
    /// `fl` must be below `FLLEN`.
    ///
    /// Takes time proportional to `SLLEN`, the number of classes of a row.
    pub fn sl_bitmap(&self, fl: usize) -> SLBitmap
        requires { fl < FLLEN }
        ensures { (sl : ℕ) → bit (SLBitmap.pattern result) sl ≡ list_any (has_class SLLEN (class_at fl sl)) self.now.state.free }
    {
        self.table.sl_bitmap(fl)
    }
}
