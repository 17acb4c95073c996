//! The totals of a space.

/// What the ranges of a space total, in bytes.
#[derive(Clone, Copy)]
pub struct Stats {
    /// The number of live ranges.
    pub ranges: usize,
    /// The bytes of live ranges, with those that their alignments leave in front.
    pub used: usize,
    /// The bytes of free ranges.
    pub free: usize,
    /// The bytes of the longest free range, or 0 if there is none.
    pub longest: usize,
}
