//! Colours.

use std::fmt;

/// The bytes of a block before its payload, where no alignment asks for more.
const HEADER: u128 = 16;

/// The hues of sixteen first-level rows that follow one another, in degrees. To the eye they are about equally far apart, and those of
/// neighbouring rows are far apart. Only payloads have a hue: all else that is drawn is black, white or grey.
const HUES: [u128; 16] = [
    0, 179, 311, 106, 263, 48, 219, 20, 193, 335, 154, 283, 74, 233, 34, 206,
];

/// The size class of the block of a payload.
#[derive(Clone, Copy)]
pub(crate) struct Class {
    /// The first-level row: its sizes begin at 2 to this power.
    pub(crate) row: u32,
    /// The index of the class in its first-level row, from 0.
    pub(crate) part: u128,
    /// The number of classes in a first-level row.
    pub(crate) classes: u128,
}

impl Class {
    /// The class of the block of a payload with so many usable bytes, if a first-level row has so many classes.
    pub(crate) fn of(usable: usize, classes: u128) -> Class {
        let len = usable as u128 + HEADER;
        let row = len.ilog2();
        let least = 1u128.checked_shl(row).unwrap_or(1).max(1);
        let part = len.saturating_sub(least).saturating_mul(classes) / least;
        Class { row, part, classes }
    }

    /// Whether it is the class of the block of a payload with so many usable bytes.
    pub(crate) fn has(self, usable: usize) -> bool {
        let class = Class::of(usable, self.classes);
        class.row == self.row && class.part == self.part
    }

    // The hue of its first-level row, in degrees.
    fn hue(self) -> u128 {
        HUES[(self.row % 16) as usize]
    }

    // How light it is, in percent. Later classes of a first-level row are lighter.
    fn light(self) -> u128 {
        40u128.saturating_add(self.part.saturating_mul(30) / self.classes.max(1))
    }
}

/// What is drawn.
#[derive(Clone, Copy)]
pub(crate) enum Colour {
    /// Memory of a pool.
    Free,
    /// The end of a chunk.
    Sentinel,
    /// A payload whose block has the class.
    Class(Class),
}

/// As SVG has it.
impl fmt::Display for Colour {
    fn fmt<W: fmt::Write>(&self, f: &mut fmt::Formatter<W>) -> fmt::Result {
        match *self {
            Colour::Free => f.write_str("#eeeeee"),
            Colour::Sentinel => f.write_str("#444444"),
            Colour::Class(class) => {
                let (hue, light) = (class.hue(), class.light());
                write!(f, "hsl({hue},75%,{light}%)")
            }
        }
    }
}
