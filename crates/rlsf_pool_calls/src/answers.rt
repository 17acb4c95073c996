//! The values that calls return to C: numbers and structs of numbers.

ghost use Rattle.std.specs.Prelude.{◌≡◌};
ghost use Rattle.rlsf_pool_calls.specs.Answers.{answer_of, reply_code, error_code, address_answer, refused_by};

use rlsf_base::memory::Addr;
use rlsf_checked::CheckedError;

/// No error.
pub(crate) const OK: usize = 0;

/// There is no such kind of pool. `CheckedError` has neither this number nor the three that follow.
pub(crate) const NO_KIND: usize = 11;

/// The memory starts at 0, which is no address.
pub(crate) const ZERO_START: usize = 12;

/// The end of a memory lies past the greatest address.
pub(crate) const TOO_LONG: usize = 13;

/// No block begins at an address or behind it.
pub(crate) const NO_BLOCK: usize = 14;

/// A payload is live in the range. It is the number of `CheckedError::InUse`.
pub(crate) const IN_USE: usize = 15;

/// A number, or the error because of which there is none.
#[repr(C)]
#[derive(Clone, Copy)]
pub struct Answer {
    /// 0, or the number of an error.
    pub error: usize,
    /// The number, or 0 on an error.
    pub value: usize,
}

/// A block, or the error because of which there is none.
#[repr(C)]
#[derive(Clone, Copy)]
pub struct BlockAnswer {
    /// 0, or the number of an error.
    pub error: usize,
    /// The address at which the block begins, or 0 on an error.
    pub start: usize,
    /// The length of the block in bytes, with its header, or 0 on an error.
    pub len: usize,
    /// 1 if the block is used, else 0.
    pub used: usize,
}

/// Returns the number of an error.
pub(crate) fn number(error: CheckedError) -> usize
    ensures { result ≡ error_code error }
{
    match error {
        CheckedError::InvalidClasses => 1,
        CheckedError::OutOfMemory => 2,
        CheckedError::UnknownAddress => 3,
        CheckedError::OutOfRange => 4,
        CheckedError::OutsideMemory => 5,
        CheckedError::NotBehind => 6,
        CheckedError::NotNext => 7,
        CheckedError::TooShort => 8,
        CheckedError::NoLayout => 9,
        CheckedError::NoRoom => 10,
        CheckedError::InUse => 15,
        CheckedError::NotChunks => 16,
    }
}

/// Returns an error as an `Answer`.
pub(crate) fn refused(error: CheckedError) -> Answer
    ensures { result ≡ refused_by error }
{
    Answer {
        error: number(error),
        value: 0,
    }
}

/// Returns a number or an error as an `Answer`.
pub(crate) fn to_answer(outcome: Result<usize, CheckedError>) -> Answer
    ensures { result ≡ answer_of outcome }
{
    match outcome {
        Ok(value) => Answer { error: OK, value },
        Err(error) => refused(error),
    }
}

/// Returns an address or an error as an `Answer`.
pub(crate) fn to_place(outcome: Result<Addr, CheckedError>) -> Answer
    ensures { result ≡ address_answer outcome }
{
    match outcome {
        Ok(addr) => Answer {
            error: OK,
            value: addr.get(),
        },
        Err(error) => refused(error),
    }
}

/// Returns 0, or the number of the error.
pub(crate) fn to_code(outcome: Result<(), CheckedError>) -> usize
    ensures { result ≡ reply_code outcome }
{
    match outcome {
        Ok(()) => OK,
        Err(error) => number(error),
    }
}
