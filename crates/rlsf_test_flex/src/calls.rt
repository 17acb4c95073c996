//! Calls on payloads that have names.

/// A call of a run.
#[derive(Clone, Copy)]
pub enum Call {
    /// A payload of this name is allocated, of so many bytes, with this alignment.
    Alloc(usize, usize, usize),
    /// It is deallocated.
    Free(usize),
    /// It gets this size.
    Realloc(usize, usize),
}
