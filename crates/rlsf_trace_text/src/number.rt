//! Reads numbers.

ghost use Rattle.std.specs.Prelude.{◌≡◌};
ghost use Rattle.rlsf_trace_text.specs.Numbers.{with_digit, value_of, number_of, byte_of};

use crate::fault::Fault;

/// The number that a word is: one to twenty ASCII digits with a value of at most `2^64 - 1`.
#[tactic(auto, unfolding(crate::specs::Numbers::number_of))]
pub(crate) fn number(word: &[u8]) -> Result<usize, Fault>
    ensures { result ≡ number_of word.now }
{
    if !matches!(word.len(), 1..=20) {
        return Err(Fault::BadNumber);
    }
    value_of(word).ok_or(Fault::BadNumber)
}

/// The byte that a number is, if it is at most 255.
#[tactic(auto, unfolding(crate::specs::Numbers::byte_of))]
pub(crate) fn byte(value: usize) -> Result<u8, Fault>
    ensures { result ≡ byte_of value }
{
    u8::try_from(value).or(Err(Fault::BadNumber))
}

#[tactic(auto, using(crate::proofs::NumberTests::value_read))]
fn value_of(word: &[u8]) -> Option<usize>
    ensures { result ≡ value_of word.now }
{
    let mut value = 0;
    for byte in word {
        value = with_digit(value, *byte)?;
    }
    Some(value)
}

fn with_digit(value: usize, byte: u8) -> Option<usize>
    ensures { result ≡ with_digit value byte }
{
    if !byte.is_ascii_digit() {
        return None;
    }
    value.checked_mul(10)?.checked_add(usize::from(byte - b'0'))
}
