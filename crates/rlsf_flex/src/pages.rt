//! The page source: it provides complete pages of its space, from a cursor on.

ghost use Rattle.std.specs.Prelude.{◌≡◌, ◌<◌, ◌≤◌, ◌+◌, ◌^◌, ◌++◌, ◌∷◌, List, [], MatchOption};
ghost use Rattle.rlsf_base.specs.declared.memory.range.Range.{Range};
ghost use Rattle.rlsf_base.specs.Range.{end_of};
ghost use Rattle.rlsf_model_global.specs.Constant.{constant_pages};
ghost use Rattle.rlsf_model_global.specs.Pages.{MayOwe};
ghost use Rattle.rlsf_model.specs.Note.{dealloc};
ghost use Rattle.rlsf_model_global.specs.Cursor.{PageLeads, first_page, page_cursor, pages, terms_of};

use crate::options::GlobalTlsfOptions;
use crate::source::FlexSource;
use rlsf_base::memory::Range;
use std::marker::{Model, PhantomData};

/// The length of a page in bytes.
const PAGE: usize = 65536;

/// A source of complete pages of its space, 65,536 bytes each. It takes no range back.
///
/// A cursor begins at the start of the space, rounded up to a multiple of 32. All ranges that were provided lie before the cursor. The
/// range that ends at the cursor can grow if `COALESCE_POOLS` is true.
#[derive(Drop)]
pub struct Source<Options: GlobalTlsfOptions> {
    space: Range,
    at: usize,
    options: PhantomData<Options>,
}

impl<Options: GlobalTlsfOptions> Model for Source<Options> {
    ghost use Rattle.rlsf_model_global.specs.Pages.{IsPageCursor};
    ghost use Rattle.rlsf_model_global.specs.Cursor.{PageCursor, page_cursor};

    ghost Value = { PageCursor };

    ghost view = { λ s. page_cursor s.space s.at Options.COALESCE_POOLS };

    ghost invariant = { λ s. IsPageCursor (page_cursor s.space s.at Options.COALESCE_POOLS) };
}

impl<Options: GlobalTlsfOptions> Source<Options> {
    /// Creates a source of the space, which has not provided anything yet. If the space ends before its start rounded up to a multiple of
    /// 32, the source always refuses.
    ///
    /// The end of the space isn't past the greatest address.
    ///
    /// Completes in constant time.
    pub fn new(space: Range) -> Self
        requires { end_of space < 2 ^ 64 }
        ensures value { result ≡ page_cursor space (first_page space) Options.COALESCE_POOLS }
        ensures owed { MayOwe result [] }
    {
        let end = space.start + space.len;
        let at = match space.start.checked_next_multiple_of(32) {
            Some(at) => at.min(end),
            None => end,
        };
        Source {
            space,
            at,
            options: PhantomData,
        }
    }

    /// Returns the address before which all ranges lie that were provided.
    ///
    /// Completes in constant time.
    pub fn end(&self) -> usize
        ensures { result ≡ self.now.at }
    {
        self.at
    }

    /// Returns the end of the least number of complete pages, from an address on, that hold `len` bytes, if the space contains them.
    fn end_of_pages(&self, start: usize, len: usize) -> Option<usize>
        ensures { MatchOption result (end_of self.now.space < start + pages len) (λ end. (end ≡ start + pages len) × (end ≤ end_of self.now.space)) }
    {
        let last = self.space.start + self.space.len;
        let len = len.checked_next_multiple_of(PAGE)?;
        let end = start.checked_add(len)?;
        if end <= last { Some(end) } else { None }
    }
}

/// `alloc` rounds the size up to complete pages, provides the range at the cursor, and moves the cursor to its end. It returns `None`
/// exactly if the space ends before that.
///
/// A range grows exactly if it ends at the cursor and the space contains the bytes. Its new length is rounded up to complete pages, too,
/// and the cursor is then at its new end.
///
/// If a call returns `None`, nothing changes.
impl<Options: GlobalTlsfOptions> FlexSource for Source<Options> {
    ghost terms = { terms_of };

    ghost owes = { MayOwe };

    ghost leads = { PageLeads };

    fn alloc(&mut self, min_size: usize) -> Option<Range> {
        let start = self.at;
        let end = self.end_of_pages(start, min_size)?;
        self.at = end;
        Some(Range {
            start,
            len: end - start,
        })
    }

    fn realloc_inplace_grow(&mut self, range: Range, min_new_len: usize) -> Option<usize> {
        if self.at != range.start + range.len {
            return None;
        }
        let end = self.end_of_pages(range.start, min_new_len)?;
        self.at = end;
        Some(end - range.start)
    }

    // It asks nothing of its caller: what the trait requires, no caller of a source that takes nothing back meets.
    fn dealloc(&mut self, range: Range)
        ensures leads { PageLeads self.old (dealloc range) self.new }
        ensures owes { (before after : List Range) → MayOwe self.old (before ++ range ∷ after) → MayOwe self.new (before ++ after) }
    {
        let _ = range;
    }

    fn supports_dealloc(&self) -> bool {
        false
    }

    fn supports_realloc_inplace_grow(&self) -> bool {
        let _ = &self.space;
        Options::COALESCE_POOLS
    }

    fn is_contiguous_growable(&self) -> bool {
        false
    }

    fn min_align(&self) -> usize {
        32
    }

    ghost constant = { constant_pages };
}
