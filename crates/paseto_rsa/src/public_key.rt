//! A public key that is prepared for verifying.

ghost use Rattle.std.specs.Prelude.{◌<◌};

use paseto_montgomery::Modulus;

/// An RSA public key with a modulus of 2048 bits, read and prepared for verifying many signatures.
///
/// ```rust
/// use paseto_rsa::PublicKey;
/// use rusty_paseto_core::PasetoError;
///
/// /// How many of the signatures of a message are valid, under a key that is read once.
/// pub fn count_valid(
///     public: &[u8],
///     message: &[u8],
///     signatures: &[[u8; 256]],
/// ) -> Result<usize, PasetoError> {
///     let key = PublicKey::from_der(public).ok_or(PasetoError::InvalidKey)?;
///     let mut valid = 0usize;
///     for signature in signatures {
///         if key.verify(message, signature) {
///             valid = valid.saturating_add(1);
///         }
///     }
///     Ok(valid)
/// }
/// ```
#[derive(Clone, Copy)]
pub struct PublicKey {
    pub(crate) modulus: Modulus<32>,
    pub(crate) exponent: u64,
    ghost positive: { 0 < exponent },
}
