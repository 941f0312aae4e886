//! An example of a signature scheme for version 4. **It is not secure**: everyone who can verify can also sign, since
//! the signature is a hash under the public key. A secure scheme is Ed25519.

ghost use Rattle.std.specs.Prelude.{◌≡◌, length, IfErr, IfOk, OnOk};
ghost use Rattle.paseto_example.specs.KeyedHashScheme.{IsDeclined, IsRefused, IsValid, partner};

use rusty_paseto::prelude::{PasetoError, SignatureScheme};
use rusty_paseto_primitives::blake2b_keyed;
use std::alloc::Global;

/// How many bytes a private key has: a secret half, which this scheme does not need, and the public key.
const PRIVATE_LENGTH: usize = 64;

/// How many bytes a public key has.
const PUBLIC_LENGTH: usize = 32;

/// A signature is the message's BLAKE2b hash under the public key.
#[derive(Drop)]
pub struct KeyedHashScheme;

impl SignatureScheme<64> for KeyedHashScheme {
    ghost valid = { IsValid };

    ghost partner = { partner };

    ghost refused = { IsRefused };

    ghost declined = { IsDeclined };

    /// The signature of a message, or `KeyRejected` for a private key of another length than 64 bytes.
    fn sign(
        &mut self,
        _alloc: Global,
        private: &[u8],
        message: &[u8],
    ) -> Result<[u8; 64], PasetoError>
        ensures ok { IfOk result (λ signature. IsValid
            (partner private.now) message.now signature) }
        ensures err { IfErr result (λ error. IsDeclined private.now message.now error) }
    {
        if private.len() != PRIVATE_LENGTH {
            return Err(PasetoError::KeyRejected);
        }
        Ok(blake2b_keyed(public_key_of(private), message))
    }

    /// Returns `Ok` if and only if the signature is valid. Otherwise it returns `InvalidKey` for a public key of
    /// another length than 32 bytes, and `InvalidSignature` for an invalid signature.
    fn verify(
        &self,
        _alloc: Global,
        public: &[u8],
        message: &[u8],
        signature: &[u8; 64],
    ) -> Result<(), PasetoError>
        ensures ok { OnOk result (IsValid public.now message.now signature.now) }
        ensures err { IfErr result (λ error. (¬ IsValid public.now message.now signature.now)
            × IsRefused public.now message.now signature.now error) }
    {
        if public.len() != PUBLIC_LENGTH {
            return Err(PasetoError::InvalidKey);
        }
        let own: [u8; 64] = blake2b_keyed(public, message);
        if own.as_slice() != signature.as_slice() {
            return Err(PasetoError::InvalidSignature);
        }
        Ok(())
    }
}

// The public key in a private key: its second half.
fn public_key_of(private: &[u8]) -> &[u8]
    requires { length private.now ≡ 64 }
    ensures half { result.now ≡ partner private.now }
    ensures size { length (partner private.now) ≡ 32 }
{
    private.split_at(PRIVATE_LENGTH - PUBLIC_LENGTH).1
}
