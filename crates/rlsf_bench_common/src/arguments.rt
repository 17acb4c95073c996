//! The command line of the benchmarks.

ghost use Rattle.std.specs.Prelude.{◌≡◌};
ghost use Rattle.rlsf_bench_common.specs.Runs.{reallocates_at};

use std::num::{NonZeroU16, NonZeroUsize};

/// The parameters of the allocator: the number of first-level rows, the number of classes in each, and the type of the bitmaps.
#[derive(Clone, Copy)]
pub(crate) enum Configuration {
    /// `12x16`: 12 first-level rows of 16 classes, with bitmaps of type `u16`.
    TwelveBySixteen,
    /// `59x8`: 59 first-level rows of 8 classes, with bitmaps of type `u64`.
    FiftyNineByEight,
    /// `64x64`: 64 first-level rows of 64 classes, with bitmaps of type `usize`.
    SixtyFourBySixtyFour,
}

impl Configuration {
    /// The configuration that the word names, if it names one.
    fn named(word: &str) -> Option<Configuration> {
        match word {
            "12x16" => Some(Configuration::TwelveBySixteen),
            "59x8" => Some(Configuration::FiftyNineByEight),
            "64x64" => Some(Configuration::SixtyFourBySixtyFour),
            _ => None,
        }
    }
}

/// What a step does to a payload that its slot holds.
#[derive(Clone, Copy)]
pub(crate) enum Mode {
    /// `free`: it is freed.
    Free,
    /// `realloc`: each eighth step, from the first on, resizes it, and the others free it.
    Realloc,
}

impl Mode {
    /// The mode that the word names, if it names one.
    fn named(word: &str) -> Option<Mode> {
        match word {
            "free" => Some(Mode::Free),
            "realloc" => Some(Mode::Realloc),
            _ => None,
        }
    }

    /// Whether the step of this number, from 0 on, reallocates the payload that its slot holds.
    pub(crate) fn reallocates_at(self, step: u64) -> bool
        ensures { result ≡ reallocates_at self step }
    {
        match self {
            Mode::Free => false,
            Mode::Realloc => step % 8 == 0,
        }
    }
}

/// What the command line asks for.
#[derive(Clone, Copy)]
pub(crate) struct Arguments {
    /// The allocator's parameters.
    pub(crate) configuration: Configuration,
    /// How many payloads can be live at once.
    pub(crate) slots: NonZeroUsize,
    /// How many sizes a payload can have, from 0 bytes on.
    pub(crate) sizes: NonZeroU16,
    /// How often a payload is allocated, freed or reallocated.
    pub(crate) steps: u64,
    /// What a step does to a payload that its slot holds.
    pub(crate) mode: Mode,
}

impl Arguments {
    /// Reads the words of a command line, of which the first is the program's name. `None` where a word is missing, wrong or too many.
    pub(crate) fn read(words: &[String]) -> Option<Arguments> {
        let [_, configuration, slots, sizes, steps, mode] = words else {
            return None;
        };
        Some(Arguments {
            configuration: Configuration::named(configuration)?,
            slots: slots.parse().ok()?,
            sizes: sizes.parse().ok()?,
            steps: steps.parse().ok()?,
            mode: Mode::named(mode)?,
        })
    }
}
