//! The parameters of the allocator that runs a trace.

ghost use Rattle.std.specs.Prelude.{◌≡◌};
ghost use Rattle.rlsf_trace_text.specs.Configurations.{configuration_named};

use crate::words::is_same;

/// The parameters of the allocator that runs a trace: how many first-level rows there are, how many classes each has, and the type
/// of the bitmaps.
#[derive(Clone, Copy, Debug, PartialEq, Eq)]
pub enum Configuration {
    /// `8x8`: 8 first-level rows of 8 classes, with bitmaps of type `u8`.
    EightByEight,
    /// `12x16`: 12 first-level rows of 16 classes, with bitmaps of type `u16`.
    TwelveBySixteen,
    /// `59x8`: 59 first-level rows of 8 classes, with bitmaps of type `u64`.
    FiftyNineByEight,
    /// `1x1`: one first-level row of one class, with bitmaps of type `u8`.
    OneByOne,
    /// `8x1`: 8 first-level rows of one class, with bitmaps of type `u8`.
    EightByOne,
}

impl Configuration {
    /// The configuration that the word names, if it names one.
    pub(crate) fn named(word: &[u8]) -> Option<Configuration>
        ensures { result ≡ configuration_named word.now }
    {
        if is_same(word, b"8x8") {
            Some(Configuration::EightByEight)
        } else if is_same(word, b"12x16") {
            Some(Configuration::TwelveBySixteen)
        } else if is_same(word, b"59x8") {
            Some(Configuration::FiftyNineByEight)
        } else if is_same(word, b"1x1") {
            Some(Configuration::OneByOne)
        } else if is_same(word, b"8x1") {
            Some(Configuration::EightByOne)
        } else {
            None
        }
    }
}
