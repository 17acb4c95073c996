//! The options of an allocator behind the lock.

ghost use Rattle.std.specs.Prelude.{Bool, true, false};

/// The options of an allocator behind the lock. Each implementation states both constants.
pub trait GlobalTlsfOptions {
    /// Whether `realloc` is the reallocation of the allocator itself, which doesn't move a payload if that is possible. Without it,
    /// `realloc` allocates a new payload, copies, and deallocates the old one.
    const ENABLE_REALLOCATION: bool;

    /// Whether the newest range of the page source grows, so that adjacent pools become one.
    const COALESCE_POOLS: bool;

    ghost ENABLE_REALLOCATION: { Bool };

    ghost COALESCE_POOLS: { Bool };
}

/// Both options.
impl GlobalTlsfOptions for () {
    const ENABLE_REALLOCATION: bool = true;

    const COALESCE_POOLS: bool = true;

    ghost ENABLE_REALLOCATION = { true };

    ghost COALESCE_POOLS = { true };
}

/// Neither option: less code, and pools that are not joined.
#[derive(Debug)]
pub struct SmallGlobalTlsfOptions;

impl GlobalTlsfOptions for SmallGlobalTlsfOptions {
    const ENABLE_REALLOCATION: bool = false;

    const COALESCE_POOLS: bool = false;

    ghost ENABLE_REALLOCATION = { false };

    ghost COALESCE_POOLS = { false };
}
