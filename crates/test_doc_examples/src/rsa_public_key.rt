//! Of `PublicKey` of `paseto_rsa`.

use paseto_rsa::PublicKey;
use rusty_paseto_core::PasetoError;

/// How many of the signatures of a message are valid, under a key that is read once.
pub fn count_valid(
    public: &[u8],
    message: &[u8],
    signatures: &[[u8; 256]],
) -> Result<usize, PasetoError> {
    let key = PublicKey::from_der(public).ok_or(PasetoError::InvalidKey)?;
    let mut valid = 0usize;
    for signature in signatures {
        if key.verify(message, signature) {
            valid = valid.saturating_add(1);
        }
    }
    Ok(valid)
}
