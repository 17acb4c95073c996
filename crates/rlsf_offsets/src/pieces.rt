//! The iteration over the pieces of a space.

ghost use Rattle.std.specs.Prelude.{◌≡◌, ◌≤◌, length};
ghost use Rattle.std.specs.Iterator.{at_most};
ghost use Rattle.std.specs.Map.Iter.{TakesFirst};
ghost use Rattle.rlsf_offsets.specs.Iteration.{IsInSpace, piece_of};

use crate::units::{SHADOW, START};
use rlsf_blocks::{BlockInfo, Blocks};
use std::iter::FusedIterator;
use std::marker::Model;

/// A piece of a space: a free range, or a live range with the units that its alignment leaves in front.
#[derive(Clone, Copy)]
pub struct Piece {
    /// Where the piece begins, in bytes.
    pub offset: usize,
    /// The length of the piece in bytes.
    pub len: usize,
    /// Whether the piece is free.
    pub is_free: bool,
}

/// The pieces of a space in order of offset. Each begins at the end of the one before.
#[derive(Drop)]
pub struct Pieces<'a, const UNIT: usize> {
    pub(crate) blocks: Blocks<'a>,
}

impl<'a, const UNIT: usize> Model for Pieces<'a, UNIT> {
    ghost use Rattle.std.specs.Prelude.{List};
    ghost use Rattle.rlsf_offsets.specs.declared.pieces.Piece.{Piece};
    ghost use Rattle.rlsf_offsets.specs.Iteration.{AreInSpace, pieces_of};

    ghost Value = { List Piece };

    ghost view = { λ p. pieces_of UNIT p.blocks };

    ghost invariant = { λ p. AreInSpace UNIT p.blocks };
}

impl<'a, const UNIT: usize> Iterator for Pieces<'a, UNIT> {
    type Item = Piece;

    ghost next_gives = { TakesFirst (λ p. p) };

    ghost remaining = { λ ps. at_most (length ps) };

    fn next(&mut self) -> Option<Piece> {
        let block = self.blocks.next()?;
        Some(piece_of::<UNIT>(block))
    }
}

impl<'a, const UNIT: usize> FusedIterator for Pieces<'a, UNIT> {}

/// Returns the piece of the space that a block of the shadow is for.
fn piece_of<const UNIT: usize>(block: BlockInfo) -> Piece
    requires { IsInSpace UNIT block }
    ensures { result ≡ piece_of UNIT block }
{
    let range = block.as_ptr();
    Piece {
        offset: (range.start - START) / SHADOW * UNIT,
        len: range.len / SHADOW * UNIT,
        is_free: !block.is_occupied(),
    }
}
