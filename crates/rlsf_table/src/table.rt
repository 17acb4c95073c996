//! The class table: bitmaps of two levels, and the newest free block of each class.

ghost use Rattle.std.specs.Prelude.{◌≡◌, ℕ, ◌<◌, ◌≤◌, false, List, [], ◌∷◌, ◌==◌, if◌then◌else◌, slice_index};
ghost use Rattle.rlsf_base.specs.declared.memory.range.Range.{Range};
ghost use Rattle.rlsf_base.specs.SearchStart.{CanBegin};
ghost use Rattle.rlsf_model_sizes.specs.SizeClass.{IsValid, class_of, class_at};
ghost use Rattle.rlsf_base.specs.Space.{Space};
ghost use Rattle.rlsf_int.specs.Bits.{bit};
ghost use Rattle.rlsf_model.specs.Lists.{IsIn};
ghost use Rattle.rlsf_model.specs.WellFormed.{IsFree};
ghost use Rattle.rlsf_table.specs.Counts.{Counts};
ghost use Rattle.rlsf_table.specs.FreeTable.{HasBitsWithout, IsLeastFrom};
ghost use Rattle.rlsf_table.specs.Table.{IsHeadSet, head_at, HasBits, HasTable};

use crate::rows::Rows;
use rlsf_base::memory::OpenMemory;
use rlsf_int::Bitmap;
use std::marker::Model;

/// The indices of a class in a table: its row, below `FLLEN`, and its place in the row, below `SLLEN`.
#[derive(Clone, Copy)]
pub struct ClassIndex {
    /// The row.
    pub fl: usize,
    /// The place in the row.
    pub sl: usize,
}

/// The classes that have free blocks, and the head of each class.
///
/// A class is named by its row, below `FLLEN`, and its place in the row, below `SLLEN`. A block is named by its address; 0 means none.
/// The parameters must be valid: from 1 to 128 rows, with a power of two of classes that is at most 128.
/// Each read or write of a word of the table counts as a touch of the memory that is passed. `newest`, `fl_bitmap` and
/// `sl_bitmap` take no memory and count nothing.
#[derive(Drop)]
pub struct ClassTable<const FLLEN: usize, const SLLEN: usize> {
    // The rows that have a free block, as the places of one row.
    first_level: Rows<1, FLLEN>,
    // The classes of each row that have a free block.
    rows: Rows<FLLEN, SLLEN>,
    // The newest free block of each class, or 0.
    heads: [[usize; SLLEN]; FLLEN],
}

impl<const FLLEN: usize, const SLLEN: usize> Model for ClassTable<FLLEN, SLLEN> {
    ghost use Rattle.rlsf_table.specs.Table.{Table, HasPlaces};
    ghost use Rattle.rlsf_table.specs.Steps.Places.{row_word, row_words};

    ghost Value = { Table };

    ghost view = { λ t. record { first_level = row_word FLLEN t.first_level.low t.first_level.high 0; second_level = row_words FLLEN SLLEN t.rows.low t.rows.high; heads = t.heads } };

    // Each row has a head for each class.
    ghost invariant = { λ t. HasPlaces FLLEN SLLEN t.heads };
}

impl<const FLLEN: usize, const SLLEN: usize> ClassTable<FLLEN, SLLEN> {
    /// Returns a table without blocks, for any memory.
    pub fn new() -> Self
        ensures { (m : Space) → HasTable FLLEN SLLEN m result [] }
    {
        ClassTable {
            first_level: Rows::new(),
            rows: Rows::new(),
            heads: [[0; SLLEN]; FLLEN],
        }
    }

    /// Returns the address of the newest free block of a class, or 0 if none is free. Not counted.
    ///
    /// The row is below `FLLEN`, and the place below `SLLEN`.
    pub fn newest(&self, fl: usize, sl: usize) -> usize
        requires { (fl < FLLEN) × (sl < SLLEN) }
        ensures { result ≡ head_at self.now fl sl }
    {
        let row = &self.heads[fl];
        row[sl]
    }

    /// Returns the first-level bitmap: the position of a row has a one exactly if a block of the row is free. Not counted.
    ///
    /// It has a position for each row.
    pub fn fl_bitmap<FLBitmap: Bitmap>(&self) -> FLBitmap
        requires { FLLEN ≤ FLBitmap.width }
        ensures within { (fl : ℕ) → fl < FLLEN → bit (FLBitmap.pattern result) fl ≡ bit self.now.first_level fl }
        ensures past { (fl : ℕ) → FLLEN ≤ fl → bit (FLBitmap.pattern result) fl ≡ false }
    {
        self.first_level.bitmap(0)
    }

    /// Returns the second-level bitmap of a row: a position has a one exactly if a block of that class is free. Not counted.
    ///
    /// The row is below `FLLEN`. The bitmap has a position for each place.
    pub fn sl_bitmap<SLBitmap: Bitmap>(&self, fl: usize) -> SLBitmap
        requires width { SLLEN ≤ SLBitmap.width }
        requires row { fl < FLLEN }
        ensures within { (sl : ℕ) → sl < SLLEN → bit (SLBitmap.pattern result) sl ≡ bit (slice_index self.now.second_level fl) sl }
        ensures past { (sl : ℕ) → SLLEN ≤ sl → bit (SLBitmap.pattern result) sl ≡ false }
    {
        self.rows.bitmap(fl)
    }

    /// Returns the address of the newest free block of a class, or 0 if none is free. At most one touch.
    ///
    /// The row is below `FLLEN`, and the place below `SLLEN`.
    pub fn head(&self, memory: &mut OpenMemory, fl: usize, sl: usize) -> usize
        requires { (fl < FLLEN) × (sl < SLLEN) }
        ensures value { result ≡ head_at self.now fl sl }
        ensures counts { Counts memory.old memory.new 1 }
    {
        memory.touch();
        self.newest(fl, sl)
    }

    /// Makes the block at the address `block` the newest one of a class, which has a free block then. At most five touches.
    ///
    /// The row is below `FLLEN`, and the place below `SLLEN`.
    pub fn put(&mut self, memory: &mut OpenMemory, fl: usize, sl: usize, block: usize)
        requires parameters { IsValid 128 128 FLLEN SLLEN }
        requires class { (fl < FLLEN) × (sl < SLLEN) }
        ensures heads { IsHeadSet FLLEN SLLEN self.old self.new fl sl block }
        ensures bits { (r : Range) (free : List Range) → class_of SLLEN r.len ≡ class_at fl sl → HasBits FLLEN SLLEN self.old free → HasBits FLLEN SLLEN self.new (r ∷ free) }
        ensures counts { Counts memory.old memory.new 5 }
    {
        memory.touch();
        self.heads[fl][sl] = block;
        memory.touch();
        memory.touch();
        self.rows.insert(fl, sl);
        memory.touch();
        memory.touch();
        self.first_level.insert(0, fl);
    }

    /// Makes the block at the address `next` the newest one of a class whose newest one was removed. If no block of the class is left,
    /// `next` is 0. At most one touch, and at most six if none is left.
    ///
    /// The row is below `FLLEN`, and the place below `SLLEN`.
    pub fn take(&mut self, memory: &mut OpenMemory, fl: usize, sl: usize, next: usize)
        requires parameters { IsValid 128 128 FLLEN SLLEN }
        requires class { (fl < FLLEN) × (sl < SLLEN) }
        ensures heads { IsHeadSet FLLEN SLLEN self.old self.new fl sl next }
        ensures bits { HasBitsWithout FLLEN SLLEN self.old self.new fl sl next }
        ensures counts { Counts memory.old memory.new (if next == 0 then 6 else 1) }
    {
        memory.touch();
        self.heads[fl][sl] = next;
        if next == 0 {
            memory.touch();
            memory.touch();
            self.rows.remove(fl, sl);
            memory.touch();
            if self.rows.is_empty(fl) {
                memory.touch();
                memory.touch();
                self.first_level.remove(0, fl);
            }
        }
    }

    /// Returns the first class from a row and place on that has a free block, or `None` exactly if none has. At most three touches.
    ///
    /// The row is below `FLLEN`, and the place below `SLLEN`. In a table of 32 classes a row or fewer the place may be `SLLEN`: the
    /// classes of the next row are the first from there on. The bitmaps must be those of a list of free blocks of valid classes.
    pub(crate) fn first_from(
        &self,
        memory: &mut OpenMemory,
        fl: usize,
        sl: usize,
    ) -> Option<ClassIndex>
        requires parameters { IsValid 128 128 FLLEN SLLEN }
        requires class { (fl < FLLEN) × CanBegin SLLEN sl }
        requires list { (free : List Range) × HasBits FLLEN SLLEN self.now free × ((f : Range) → IsIn f free → IsFree FLLEN SLLEN f) }
        ensures first { (free : List Range) → HasBits FLLEN SLLEN self.now free → ((f : Range) → IsIn f free → IsFree FLLEN SLLEN f) → IsLeastFrom FLLEN SLLEN fl sl free result }
        ensures counts { Counts memory.old memory.new 3 }
    {
        memory.touch();
        if let Some(place) = self.rows.first_from(fl, sl) {
            return Some(ClassIndex { fl, sl: place });
        }
        memory.touch();
        let Some(row) = self.first_level.first_behind(0, fl) else {
            return None;
        };
        memory.touch();
        Some(ClassIndex {
            fl: row,
            sl: self.rows.first(row),
        })
    }
}
