//! Rows of places that are set or not: the two levels of a class table.

ghost use Rattle.std.specs.Prelude.{◌≡◌, ◌≢◌, ℕ, ◌+◌, ◌<◌, ◌≤◌, ◌↔◌, ◌||◌, ◌==◌, false, IsTrue, slice_index};
ghost use Rattle.rlsf_base.specs.SearchStart.{CanBegin};
ghost use Rattle.rlsf_int.specs.Bits.{bit, IsFirstOne};
ghost use Rattle.rlsf_table.specs.Steps.Places.{joined, row_word, scanned_places, IsFirstPlaceFrom};

use rlsf_int::{BinInteger, Bitmap};

/// The places of each row that are set. A row of at most 64 places is one word, and a search of it reads that word. A longer row
/// is two words.
///
/// A row is below `ROWS`. A place is below `PLACES`, which is at most 128.
#[derive(Drop)]
pub(crate) struct Rows<const ROWS: usize, const PLACES: usize> {
    // The first 64 places of each row.
    low: [u64; ROWS],
    // The places behind them. If rows have none, it is neither read nor written.
    high: [u64; ROWS],
}

impl<const ROWS: usize, const PLACES: usize> Rows<ROWS, PLACES> {
    /// Returns rows without a set place.
    pub(crate) fn new() -> Self
        ensures { (fl : ℕ) → fl < ROWS → row_word PLACES result.low result.high fl ≡ 0 }
    {
        Rows {
            low: [0; ROWS],
            high: [0; ROWS],
        }
    }

    /// Returns whether a place is set.
    pub(crate) fn has(&self, fl: usize, place: usize) -> bool
        requires { (fl < ROWS) × (place < PLACES) × (PLACES ≤ 128) }
        ensures { result ≡ bit (row_word PLACES self.now.low self.now.high fl) place }
    {
        if PLACES <= 64 {
            self.low[fl].get_bit(place as u32)
        } else {
            self.both(fl).get_bit(place as u32)
        }
    }

    /// Sets a place.
    pub(crate) fn insert(&mut self, fl: usize, place: usize)
        requires { (fl < ROWS) × (place < PLACES) × (PLACES ≤ 128) }
        ensures own { (k : ℕ) → bit (row_word PLACES self.new.low self.new.high fl) k ≡ (bit (row_word PLACES self.old.low self.old.high fl) k || k == place) }
        ensures others { (i : ℕ) → i ≢ fl → row_word PLACES self.new.low self.new.high i ≡ row_word PLACES self.old.low self.old.high i }
    {
        if PLACES <= 64 {
            self.low[fl] |= 1 << place;
        } else {
            self.set_both(fl, self.both(fl) | 1 << place);
        }
    }

    /// Clears a place, which may be clear already.
    pub(crate) fn remove(&mut self, fl: usize, place: usize)
        requires { (fl < ROWS) × (place < PLACES) × (PLACES ≤ 128) }
        ensures gone { bit (row_word PLACES self.new.low self.new.high fl) place ≡ false }
        ensures own { (k : ℕ) → k ≢ place → bit (row_word PLACES self.new.low self.new.high fl) k ≡ bit (row_word PLACES self.old.low self.old.high fl) k }
        ensures others { (i : ℕ) → i ≢ fl → row_word PLACES self.new.low self.new.high i ≡ row_word PLACES self.old.low self.old.high i }
    {
        if PLACES <= 64 {
            // The remainder is the place. With it the compiler leaves out a subtraction: it moves by the lowest digits alone.
            self.low[fl] &= !(1 << (place % 64));
        } else {
            self.set_both(fl, self.both(fl) & !(1 << place));
        }
    }

    /// Returns whether no place of a row is set.
    pub(crate) fn is_empty(&self, fl: usize) -> bool
        requires { fl < ROWS }
        ensures { IsTrue result ↔ (row_word PLACES self.now.low self.now.high fl ≡ 0) }
    {
        if PLACES <= 64 {
            self.low[fl] == 0
        } else {
            self.both(fl) == 0
        }
    }

    /// Returns the least set place of a row from `start` on, if there is one. A short row may be searched from behind its last place.
    pub(crate) fn first_from(&self, fl: usize, start: usize) -> Option<usize>
        requires { (fl < ROWS) × CanBegin PLACES start × (PLACES ≤ 128) }
        ensures { IsFirstPlaceFrom PLACES (row_word PLACES self.now.low self.now.high fl) start result }
    {
        if PLACES <= 64 {
            let places = self.low[fl] & (u64::MAX << start);
            if places != 0 {
                Some(places.trailing_zeros() as usize)
            } else {
                None
            }
        } else {
            let place = self.both(fl).bit_scan_forward(start as u32);
            if place < 128 {
                Some(place as usize)
            } else {
                None
            }
        }
    }

    /// Returns the least set place of a row behind `place`, if there is one.
    pub(crate) fn first_behind(&self, fl: usize, place: usize) -> Option<usize>
        requires { (fl < ROWS) × (place < PLACES) × (PLACES ≤ 128) }
        ensures { IsFirstPlaceFrom PLACES (row_word PLACES self.now.low self.now.high fl) (place + 1) result }
    {
        if PLACES <= 64 {
            // All ones but the lowest, moved up: no place has to be tested.
            let places = self.low[fl] & ((u64::MAX - 1) << place);
            if places != 0 {
                Some(places.trailing_zeros() as usize)
            } else {
                None
            }
        } else {
            let behind = self.both(fl).bit_scan_forward(place as u32 + 1);
            if behind < 128 {
                Some(behind as usize)
            } else {
                None
            }
        }
    }

    /// Returns the least set place of a row, or the number of scanned places if there is none.
    pub(crate) fn first(&self, fl: usize) -> usize
        requires { fl < ROWS }
        ensures { IsFirstOne (scanned_places PLACES) (row_word PLACES self.now.low self.now.high fl) 0 result }
    {
        if PLACES <= 64 {
            self.low[fl].trailing_zeros() as usize
        } else {
            self.both(fl).trailing_zeros() as usize
        }
    }

    /// Returns the bitmap of a row: a position has a one exactly if that place is set.
    pub(crate) fn bitmap<B: Bitmap>(&self, fl: usize) -> B
        requires { (fl < ROWS) × (PLACES ≤ B.width) }
        ensures within { (place : ℕ) → place < PLACES → bit (B.pattern result) place ≡ bit (row_word PLACES self.now.low self.now.high fl) place }
        ensures past { (place : ℕ) → PLACES ≤ place → bit (B.pattern result) place ≡ false }
    {
        let mut places = B::empty();
        for place in 0..PLACES {
            if self.has(fl, place) {
                places.insert_within(place as u32);
            }
        }
        places
    }

    // The two words of a row as one.
    fn both(&self, fl: usize) -> u128
        requires { fl < ROWS }
        ensures { result ≡ joined (slice_index self.now.low fl) (slice_index self.now.high fl) }
    {
        self.low[fl] as u128 + ((self.high[fl] as u128) << 64)
    }

    // Sets the two words of a row.
    fn set_both(&mut self, fl: usize, places: u128)
        requires { fl < ROWS }
        ensures own { joined (slice_index self.new.low fl) (slice_index self.new.high fl) ≡ places }
        ensures others { (i : ℕ) → i ≢ fl → (slice_index self.new.low i ≡ slice_index self.old.low i) × (slice_index self.new.high i ≡ slice_index self.old.high i) }
    {
        self.low[fl] = (places % (1 << 64)) as u64;
        self.high[fl] = (places >> 64) as u64;
    }
}
