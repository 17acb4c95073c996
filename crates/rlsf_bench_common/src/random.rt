//! The random numbers of the benchmarks.

ghost use Rattle.std.specs.Prelude.{◌≡◌, ◌*◌, ◌%◌, ◌^◌};
ghost use Rattle.rlsf_bench_common.specs.Draws.{next_state, seed};

/// A generator of numbers that seem random. Each follows from the one before by shifts and exclusive ors; the result is multiplied
/// by a constant.
#[derive(Drop)]
pub struct Xorshift {
    pub(crate) state: u64,
}

impl Xorshift {
    /// The generator at its beginning, which is always the same.
    pub fn new() -> Xorshift
        ensures { result.state ≡ seed }
    {
        Xorshift {
            state: 0x9E37_79B9_7F4A_7C15,
        }
    }

    /// The next number.
    pub fn next(&mut self) -> u64
        ensures state { self.new.state ≡ next_state self.old.state }
        ensures number { result ≡ self.new.state * 0x2545f4914f6cdd1d % 2 ^ 64 }
    {
        self.state ^= self.state << 13;
        self.state ^= self.state >> 7;
        self.state ^= self.state << 17;
        self.state.wrapping_mul(0x2545_F491_4F6C_DD1D)
    }
}
