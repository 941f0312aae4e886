//! Bytes of which each place is known.

/// Bytes that count up, and begin anew after 250.
pub(crate) fn counted_bytes<const N: usize>() -> [u8; N] {
    let mut bytes = [0u8; N];
    'fill: for i in 0..N {
        bytes[i] = (i % 251) as u8;
    }
    bytes
}
