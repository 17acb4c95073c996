//! Closes the traits of this crate: no other crate can name `private`, so none can implement them.

/// An integer type of this crate's own choice.
pub trait Sealed {}
