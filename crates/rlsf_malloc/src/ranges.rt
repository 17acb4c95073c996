//! Comparisons of ranges, for callers that keep a list of a heap's pools.

ghost use Rattle.std.specs.Prelude.{◌≡◌, ◌≢◌, ◌-◌};
ghost use Rattle.rlsf_base.specs.Range.{LiesIn, range_at};
ghost use Rattle.rlsf_malloc.specs.Ranges.{Overlap, past};

// A heap over all addresses has those from 32 up to 2^58.
const FIRST: usize = 32;

const PAST: usize = 1 << 58;

/// Returns 1 if a byte of a range has no address of a heap over all addresses, or the range begins or ends past these. Otherwise returns 0.
#[unsafe(no_mangle)]
pub extern "C" fn rlsf_range_is_outside(start: usize, len: usize) -> usize
    ensures inside { result ≡ 0 → LiesIn (range_at start len) 32 (past - 32) }
    ensures outside { result ≢ 0 → (result ≡ 1) × (LiesIn (range_at start len) 32 (past - 32) → ⊥) }
{
    if start < FIRST || start > PAST || len > PAST - start {
        1
    } else {
        0
    }
}

/// Returns 1 if two ranges have an address in common, else 0.
#[unsafe(no_mangle)]
pub extern "C" fn rlsf_ranges_overlap(
    start: usize,
    len: usize,
    other: usize,
    other_len: usize,
) -> usize
    ensures apart { result ≡ 0 → Overlap (range_at start len) (range_at other other_len) → ⊥ }
    ensures overlap { result ≢ 0 → (result ≡ 1) × Overlap (range_at start len) (range_at other other_len) }
{
    if start < other {
        if len > other - start && other_len > 0 {
            1
        } else {
            0
        }
    } else {
        if other_len > start - other && len > 0 {
            1
        } else {
            0
        }
    }
}
