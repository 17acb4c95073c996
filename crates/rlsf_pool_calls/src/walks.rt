//! Blocks as C sees them.

ghost use Rattle.std.specs.Prelude.{◌≡◌};
ghost use Rattle.rlsf_pool_calls.specs.Walks.{block_of};

use crate::answers;
use crate::answers::{BlockAnswer, OK};
use rlsf_blocks::BlockInfo;

/// The value returned if there is no block.
pub(crate) const NO_BLOCK: BlockAnswer = BlockAnswer {
    error: answers::NO_BLOCK,
    start: 0,
    len: 0,
    used: 0,
};

/// Returns a block, or that there is none, as a `BlockAnswer`.
pub(crate) fn to_block(block: Option<BlockInfo>) -> BlockAnswer
    ensures { result ≡ block_of block }
{
    match block {
        Some(block) => {
            let range = block.as_ptr();
            BlockAnswer {
                error: OK,
                start: range.start,
                len: range.len,
                used: block.is_occupied() as usize,
            }
        }
        None => NO_BLOCK,
    }
}
