//! Two pools, with a copy from one to the other.

ghost use Rattle.std.specs.Prelude.{◌≡◌, ◌≢◌, ◌≤◌, ◌++◌, ℕ, drop, length, IsSome};
ghost use Rattle.rlsf.specs.Words.{align_at, at, bytes_at};

use crate::bytes::write_front;
use crate::pools::Pool;
use rlsf::Addr;

/// Copies all bytes of a payload of one pool over the first ones of a payload of another.
///
/// Both payloads are live, and the second one has as many bytes.
pub fn copy_across(from: &Pool, source: Addr, to: &mut Pool, target: Addr)
    requires source { IsSome (align_at from.now.state (at source)) }
    requires target { IsSome (align_at to.old.state (at target)) }
    requires long { length (bytes_at from.now.state (at source)) ≤ length (bytes_at to.old.state (at target)) }
    ensures copied { let bytes = bytes_at from.now.state (at source) in bytes_at to.new.state (at target) ≡ bytes ++ drop (length bytes) (bytes_at to.old.state (at target)) }
    ensures others { (a : ℕ) → a ≢ at target → bytes_at to.new.state a ≡ bytes_at to.old.state a }
    ensures aligns { align_at to.new.state ≡ align_at to.old.state }
{
    write_front(to.payload_mut(target), from.payload(source));
}
