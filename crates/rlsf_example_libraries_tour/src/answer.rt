//! What a call returned, as the tour prints it.

use std::fmt;

/// What a call returned, or why it was refused.
#[derive(Drop)]
pub(crate) struct Answer<T: Drop, E: Drop>(pub(crate) Result<T, E>);

impl<T: fmt::Display + Drop, E: fmt::Debug + Drop> fmt::Display for Answer<T, E> {
    fn fmt<W: fmt::Write>(&self, f: &mut fmt::Formatter<W>) -> fmt::Result {
        match &self.0 {
            Ok(given) => fmt::Display::fmt(given, f),
            Err(error) => write!(f, "refused, {error:?}"),
        }
    }
}

/// Nothing behind a call that was done, or why it was refused.
#[derive(Drop)]
pub(crate) struct Refusal<E: Drop>(pub(crate) Result<(), E>);

impl<E: fmt::Debug + Drop> fmt::Display for Refusal<E> {
    fn fmt<W: fmt::Write>(&self, f: &mut fmt::Formatter<W>) -> fmt::Result {
        match &self.0 {
            Ok(()) => Ok(()),
            Err(error) => write!(f, ": refused, {error:?}"),
        }
    }
}
