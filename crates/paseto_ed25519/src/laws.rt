//! Laws of the scheme. Each function does nothing, and its contract is the theorem.

ghost use Rattle.std.specs.Prelude.{◌≡◌, List, ℕ, Some, length};
ghost use Rattle.rusty_paseto_parts.specs.declared.error.PasetoError.{PasetoError};
ghost use Rattle.paseto_edwards_laws.specs.Group.{Affine};
ghost use Rattle.rusty_paseto_core.specs.Public.{v2_public, v4_public};
ghost use Rattle.paseto_ed25519.specs.Ed25519.{Ed25519Verifies, IsDeclined, IsSigned, ed25519_public, ed25519_sign, partner};
ghost use Rattle.paseto_ed25519.specs.Uniqueness.{OnePayload, OneS};
ghost use Rattle.paseto_edwards25519.specs.Curve.{HasSmallOrder};
ghost use Rattle.paseto_edwards25519.specs.Encoding.{decoded};

use paseto_edwards25519::laws::{
    decoding, encoding, multiples_of_base, number_of_bytes, signature_sum, small_multiples,
};

/// A signature under a private key whose public half belongs to its seed is valid for that public key.
pub fn signed_verifies()
    ensures { (private message : List ℕ) → IsSigned private message
        → Ed25519Verifies (partner private) message (ed25519_sign private message) }
{
    decoding();
    encoding();
    multiples_of_base();
    number_of_bytes();
    signature_sum();
    small_multiples();
}

/// With a private key whose public half belongs to its seed, every message is signed, unless its nonce is 0.
pub fn own_keys_sign()
    ensures { (private message : List ℕ) (error : PasetoError) → length private ≡ 64
        → IsSigned private message → ¬ IsDeclined private message error }
{}

/// The public key of a seed is a point, and not of small order.
pub fn own_key_is_taken()
    ensures { (seed : List ℕ) → (a : Affine) × (decoded (ed25519_public seed) ≡ Some a) × ¬ HasSmallOrder a }
{
    decoding();
    multiples_of_base();
    small_multiples();
}

/// For a public key and a message, each R has at most one S. So nobody can change the second half of a signature, and a
/// public token of version 2 or 4 has no second payload with the same text, footer, implicit assertion and R.
pub fn signatures_have_one_s()
    ensures signatures { OneS }
    ensures v2 { OnePayload v2_public }
    ensures v4 { OnePayload v4_public }
{}
