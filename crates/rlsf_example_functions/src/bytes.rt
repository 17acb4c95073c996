//! Copies into a payload.

ghost use Rattle.std.specs.Prelude.{◌≡◌, ◌≤◌, ◌++◌, drop, length};

/// Writes bytes over the first ones of a payload, whose other bytes stay.
///
/// The payload has as many bytes.
pub fn write_front(payload: &mut [u8], bytes: &[u8])
    requires { length bytes.now ≤ length payload.old }
    ensures { payload.new ≡ bytes.now ++ drop (length bytes.now) payload.old }
{
    payload[..bytes.len()].copy_from_slice(bytes);
}
