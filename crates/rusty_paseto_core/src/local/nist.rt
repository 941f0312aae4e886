//! What the versions of the NIST family, 1 and 3, share: HKDF-SHA384 splits the key, AES-256 in counter
//! mode encrypts, and HMAC-SHA384 makes the tag (PASETO specification, "Version 1" and "Version 3").

ghost use Rattle.std.specs.Prelude.{◌≡◌, ◌≤◌, ◌++◌, ℕ, List, map, length, take};
ghost use Rattle.rusty_paseto_primitives.specs.Hkdf.{hkdf_expand};
ghost use Rattle.rusty_paseto_primitives.specs.Hmac.{Holds, hmac};
ghost use Rattle.rusty_paseto_parts.specs.PreAuthenticationEncoding.{pae};
ghost use Rattle.std.proofs.Common.{append_assoc, subst};

use rusty_paseto_parts::{Absorb, absorb_pieces};
use rusty_paseto_primitives::{HmacSha384, hkdf_sha384_expand};
use std::convert::Infallible;

/// The keys of a token, of which the one for authentication has N bytes.
#[derive(Clone, Copy)]
pub struct NistKeys<const N: usize> {
    pub(crate) encryption_key: [u8; 32],
    /// The first counter block.
    pub(crate) counter: [u8; 16],
    pub(crate) authentication_key: [u8; N],
}

/// N bytes expanded from a pseudorandom key and the info.
pub(crate) fn expand<const N: usize>(pseudorandom_key: &[u8; 48], info: &[u8]) -> [u8; N]
    requires { N ≤ 12240 }
    ensures { result ≡ hkdf_expand pseudorandom_key.now info.now N }
{
    let mut derived = [0u8; N];
    hkdf_sha384_expand(pseudorandom_key, info, &mut derived);
    derived
}

/// The first 32 of 48 bytes.
pub(crate) fn front(bytes: &[u8; 48]) -> [u8; 32]
    ensures { result ≡ take 32 bytes.now }
{
    let mut front = [0u8; 32];
    front.copy_from_slice(&bytes[..32]);
    front
}

/// An HMAC-SHA384 hasher that absorbs an encoding.
struct HmacTag(HmacSha384);

impl Absorb for HmacTag {
    type Error = Infallible;

    ghost absorbed = { λ first bytes second. (key message : List ℕ) → Holds first.0 key message
        → Holds second.0 key (message ++ bytes) };

    fn absorb(&mut self, bytes: &[u8]) -> Result<(), Infallible> {
        self.0.update(bytes);
        Ok(())
    }

    ghost joined = { λ first second third front back a b key message held.
        subst (λ m. Holds third.0 key m) (append_assoc message front back)
        (b key (message ++ front) (a key message held)) };
}

/// Writes the HMAC-SHA384 tag of the pieces, of 48 bytes.
pub(crate) fn write_hmac(key: &[u8], pieces: &[&[u8]], tag: &mut [u8])
    requires { length tag.old ≡ 48 }
    ensures { tag.new ≡ hmac key.now (pae (map (λ piece. piece.now) pieces.now)) }
{
    let mut hasher = HmacTag(HmacSha384::new(key));
    let Ok(()) = absorb_pieces(pieces, &mut hasher);
    let HmacTag(hasher) = hasher;
    tag.copy_from_slice(&hasher.finalize());
}
