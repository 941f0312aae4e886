//! What the toy signature schemes have in common: the signature, and the public key of a private key.

ghost use Rattle.std.specs.Prelude.{◌≡◌, ◌∷◌, ◌≤◌, IfErr, OnOk};
ghost use Rattle.rusty_paseto_primitives.specs.Blake2.Keyed.{blake2b};
ghost use Rattle.rusty_paseto_parts.specs.declared.error.PasetoError.TheVariants.{InvalidSignature};
ghost use Rattle.test_toys.specs.ToySchemes.{toy_valid};
ghost use Rattle.test_toys.specs.ToySignature.{toy_partner, toy_partner_v3, toy_signature};

use rusty_paseto_core::PasetoError;
use rusty_paseto_primitives::{Blake2b, blake2b_keyed};

/// How many bytes a block of a signature has.
const BLOCK_LENGTH: usize = 64;

/// What a public key of version 3 begins with.
pub const FIRST_BYTE: u8 = 2;

/// The public key of a private key, for the toys of versions 1, 2 and 4: its BLAKE2b hash of 32 bytes.
pub fn toy_partner(private: &[u8]) -> [u8; 32]
    ensures { result ≡ toy_partner private.now }
{
    blake2b_keyed(&[], private)
}

/// The public key of a private key, for the toy of version 3: the byte 2, and the key's BLAKE2b hash
/// of 48 bytes.
pub fn toy_partner_v3(private: &[u8]) -> [u8; 49]
    ensures { result ≡ toy_partner_v3 private.now }
{
    let hash: [u8; 48] = blake2b_keyed(&[], private);
    let mut partner = [FIRST_BYTE; 49];
    partner[1..].copy_from_slice(&hash);
    partner
}

/// The signature of a message for a public key: the front of four BLAKE2b hashes of 64 bytes.
pub fn toy_signature<const SIG: usize>(public: &[u8], message: &[u8]) -> [u8; SIG]
    requires { SIG ≤ 256 }
    ensures { result ≡ toy_signature SIG public.now message.now }
{
    let key: [u8; 32] = blake2b_keyed(&[], public);
    let mut joined = [0; 4 * BLOCK_LENGTH];
    'each: for i in 0..4u8 {
        let at = BLOCK_LENGTH * usize::from(i);
        joined[at..at + BLOCK_LENGTH].copy_from_slice(&toy_block(&key, i, message));
    }
    let mut signature = [0; SIG];
    signature.copy_from_slice(&joined[..SIG]);
    signature
}

// A block of a signature.
fn toy_block(key: &[u8; 32], i: u8, message: &[u8]) -> [u8; 64]
    ensures { result ≡ blake2b key.now 64 (i ∷ message.now) }
{
    let mut hasher = Blake2b::new(key, BLOCK_LENGTH);
    hasher.update(&[i]);
    hasher.update(message);
    let mut block = [0; BLOCK_LENGTH];
    hasher.finalize_into(&mut block);
    block
}

/// Is `Ok` exactly where the signature is the one that `toy_signature` makes. Else it fails by
/// `InvalidSignature`.
pub fn toy_verify<const SIG: usize>(
    public: &[u8],
    message: &[u8],
    signature: &[u8; SIG],
) -> Result<(), PasetoError>
    requires { SIG ≤ 256 }
    ensures ok { OnOk result (toy_valid SIG public.now message.now signature.now) }
    ensures err { IfErr result (λ error. (¬ toy_valid SIG public.now message.now signature.now)
        × (error ≡ InvalidSignature)) }
{
    let own: [u8; SIG] = toy_signature(public, message);
    if own.as_slice() != signature.as_slice() {
        return Err(PasetoError::InvalidSignature);
    }
    Ok(())
}
