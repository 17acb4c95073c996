//! Bytes of payloads and messages.

/// Copies as many bytes as both have.
pub(crate) fn copy_front(from: &[u8], to: &mut [u8]) {
    let n = to.len().min(from.len());
    to[..n].copy_from_slice(&from[..n]);
}

/// Whether the bytes are all `rest`.
pub(crate) fn is_all(bytes: &[u8], rest: u8) -> bool {
    for byte in bytes {
        if *byte != rest {
            return false;
        }
    }
    true
}
