//! Poly1305 in one call (RFC 8439, section 2.5).

ghost use Rattle.std.specs.Prelude.{◌≡◌};
ghost use Rattle.paseto_xchacha20poly1305.specs.Tag.{poly1305};

use super::hasher::Poly1305Hasher;

/// The Poly1305 tag, of 16 bytes, of a message of any length under a key of 32 bytes (RFC 8439, section 2.5).
///
/// **Use a key for only one message**, as with [`Poly1305Hasher`].
///
/// ```rust
/// use paseto_xchacha20poly1305::poly1305;
///
/// /// The Poly1305 tag of a message. A key serves one message.
/// pub fn tag(one_time_key: &[u8; 32], message: &[u8]) -> [u8; 16] {
///     poly1305(one_time_key, message)
/// }
/// ```
pub fn poly1305(key: &[u8; 32], message: &[u8]) -> [u8; 16]
    ensures { result ≡ poly1305 key.now message.now }
{
    let mut hasher = Poly1305Hasher::new(key);
    hasher.update(message);
    hasher.finalize()
}
