//! Which outcome each run has in which configurations.

use super::Choice;

/// 1x1, 1x2, 1x4, 1x8
pub const LIKE_1_BY_1: usize = 0;

/// 3x4, 3x16, 3x32
pub const LIKE_3_BY_4: usize = 1;

/// 5x4
pub const LIKE_5_BY_4: usize = 2;

/// 8x1
pub const LIKE_8_BY_1: usize = 3;

/// 8x8
pub const LIKE_8_BY_8: usize = 4;

/// 11x4
pub const LIKE_11_BY_4: usize = 5;

/// 16x4
pub const LIKE_16_BY_4: usize = 6;

/// 11x16
pub const LIKE_11_BY_16: usize = 7;

/// 16x16
pub const LIKE_16_BY_16: usize = 8;

/// 11x32
pub const LIKE_11_BY_32: usize = 9;

/// 16x32, 20x32, 27x32, 28x32, 29x32, 32x32
pub const LIKE_16_BY_32: usize = 10;

/// 58x8
pub const LIKE_58_BY_8: usize = 11;

/// 59x8, 60x8, 61x8, 64x8
pub const LIKE_59_BY_8: usize = 12;

pub static CHOICES: [Choice; 13] = [
    Choice {
        system: [0, 0, 0, 0, 0, 0, 0, 0],
        contiguous: [0, 0, 0, 0, 0, 0, 0, 0],
    },
    Choice {
        system: [1, 1, 1, 1, 1, 0, 1, 1],
        contiguous: [0, 1, 1, 1, 1, 0, 1, 1],
    },
    Choice {
        system: [2, 2, 2, 2, 2, 0, 2, 2],
        contiguous: [0, 1, 1, 2, 2, 0, 2, 2],
    },
    Choice {
        system: [2, 2, 3, 3, 3, 1, 3, 3],
        contiguous: [0, 1, 2, 3, 3, 1, 3, 3],
    },
    Choice {
        system: [2, 2, 4, 4, 4, 2, 4, 4],
        contiguous: [0, 1, 3, 4, 4, 2, 4, 4],
    },
    Choice {
        system: [2, 2, 5, 5, 5, 3, 2, 2],
        contiguous: [0, 1, 4, 5, 5, 3, 2, 2],
    },
    Choice {
        system: [2, 2, 6, 5, 5, 4, 2, 2],
        contiguous: [0, 1, 5, 5, 5, 4, 2, 2],
    },
    Choice {
        system: [2, 2, 7, 6, 6, 5, 5, 5],
        contiguous: [0, 1, 6, 6, 6, 5, 5, 5],
    },
    Choice {
        system: [2, 2, 7, 6, 6, 6, 5, 5],
        contiguous: [0, 1, 6, 6, 6, 6, 5, 5],
    },
    Choice {
        system: [2, 2, 8, 7, 7, 7, 5, 5],
        contiguous: [0, 1, 7, 7, 7, 7, 5, 5],
    },
    Choice {
        system: [2, 2, 8, 7, 7, 8, 5, 5],
        contiguous: [0, 1, 7, 7, 7, 8, 5, 5],
    },
    Choice {
        system: [2, 2, 9, 8, 8, 9, 4, 4],
        contiguous: [0, 1, 8, 8, 8, 9, 4, 4],
    },
    Choice {
        system: [2, 2, 9, 8, 8, 9, 4, 4],
        contiguous: [0, 2, 8, 9, 9, 10, 6, 6],
    },
];
