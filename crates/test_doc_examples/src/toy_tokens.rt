//! Of `test_toys`.

use rusty_paseto_core::{
    Paseto, PasetoAsymmetricPrivateKey, PasetoAsymmetricPublicKey, PasetoError, Public, V4,
};
use std::alloc::Global;
use test_toys::ToyV4;

/// Signs an empty message by a toy, and verifies it.
pub fn round_trip(
    alloc: Global,
    private: &PasetoAsymmetricPrivateKey<'_, V4, Public>,
    public: &PasetoAsymmetricPublicKey<'_, V4, Public>,
) -> Result<String, PasetoError> {
    let token = Paseto::<V4, Public>::builder().try_sign(alloc, &mut ToyV4, private)?;
    Paseto::<V4, Public>::try_verify(alloc, &ToyV4, token.as_str(), public, None, None)
}
