//! Words for random runs.

/// The next word of Knuth's linear generator for 64 bits, of which the high bytes serve best.
pub(crate) fn next(word: u64) -> u64 {
    word.wrapping_mul(6364136223846793005)
        .wrapping_add(1442695040888963407)
}
