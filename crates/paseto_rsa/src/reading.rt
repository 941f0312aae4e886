//! Keys in their encodings (RFC 8017, appendix A.1).

ghost use Rattle.std.specs.Prelude.{◌≡◌, ℕ, ◌^◌, ◌<◌, MatchOption};
ghost use Rattle.paseto_montgomery.specs.Words.{value};
ghost use Rattle.paseto_rsa.specs.Keys.{IsInRange, IsPublicKey};

use crate::integers::read_number;
use crate::public_key::PublicKey;
use paseto_der::{Element, read_element};
use paseto_montgomery::Modulus;

// The tag of a SEQUENCE.
const SEQUENCE: u8 = 0x30;

// The numbers of a public key.
#[derive(Drop)]
struct PublicNumbers {
    modulus: [u64; 32],
    exponent: [u64; 1],
}

// The numbers of a public key, whatever they are.
fn read_public(key: &[u8]) -> Option<PublicNumbers>
    ensures { MatchOption result
        ((n e : ℕ) → n < 2 ^ 2048 → e < 2 ^ 64 → IsPublicKey n e key.now → ⊥)
        (λ k. IsPublicKey (value k.modulus 32) (value k.exponent 1) key.now) }
{
    let Element { contents, behind } = read_element(SEQUENCE, key)?;
    if !behind.is_empty() {
        return None;
    }
    let modulus = read_number::<32>(contents)?;
    let exponent = read_number::<1>(modulus.behind)?;
    if !exponent.behind.is_empty() {
        return None;
    }
    Some(PublicNumbers {
        modulus: modulus.words,
        exponent: exponent.words,
    })
}

// The public exponent of the keys of version 1.
const PUBLIC_EXPONENT: u64 = 65537;

/// The public key of two numbers, if they are in range.
pub(crate) fn public_key(n: &[u64; 32], exponent: u64) -> Option<PublicKey>
    ensures { MatchOption result (IsInRange (value n.now 32) exponent → ⊥)
        (λ k. IsInRange (value n.now 32) exponent × (k.modulus.words ≡ n.now)
        × (k.exponent ≡ exponent)) }
{
    if exponent != PUBLIC_EXPONENT {
        return None;
    }
    let modulus = Modulus::new(n)?;
    Some(PublicKey { modulus, exponent })
}

impl PublicKey {
    /// The public key of its encoding as an RSAPublicKey of PKCS #1 (RFC 8017, appendix A.1.1), in DER. Does not
    /// allocate.
    ///
    /// `None` is returned for anything but such an encoding, where lengths and INTEGERs are in the fewest octets, and
    /// nothing follows the end; for a modulus that does not have 2048 bits or is even; and for a public exponent other
    /// than 65537, which version 1 demands.
    pub fn from_der(key: &[u8]) -> Option<PublicKey>
        ensures { MatchOption result
            ((n e : ℕ) → IsInRange n e → IsPublicKey n e key.now → ⊥)
            (λ k. IsInRange (value k.modulus.words 32) k.exponent
            × IsPublicKey (value k.modulus.words 32) k.exponent key.now) }
    {
        let numbers = read_public(key)?;
        public_key(&numbers.modulus, numbers.exponent[0])
    }
}
