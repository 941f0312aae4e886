//! HKDF (RFC 5869) with HMAC-SHA384.

ghost use Rattle.std.specs.Prelude.{◌≡◌, ◌≤◌, [], ◌∷◌, ◌++◌, length};
ghost use Rattle.rusty_paseto_primitives.specs.Hkdf.{hkdf_expand, hkdf_extract};
ghost use Rattle.rusty_paseto_primitives.specs.Hmac.{hmac};

use crate::hmac::{HmacSha384, hmac_sha384};

// The length in bytes of a block of the expansion, which is that of a code.
const BLOCK_LEN: usize = 48;

/// The pseudorandom key of a salt and the input keying material, both of any length (RFC 5869 section
/// 2.2). An empty salt means 48 zeros.
pub fn hkdf_sha384_extract(salt: &[u8], material: &[u8]) -> [u8; 48]
    ensures { result ≡ hkdf_extract salt.now material.now }
{
    // HMAC fills a short key up with zeros, so that the empty salt needs no case of its own.
    hmac_sha384(salt, material)
}

// Block T(number) of the expansion, from the one before it.
fn expansion_block(prk: &[u8; 48], previous: &[u8], info: &[u8], number: u8) -> [u8; 48]
    ensures { result ≡ hmac prk.now (previous.now ++ info.now ++ number ∷ []) }
{
    let mut hasher = HmacSha384::new(prk);
    hasher.update(previous);
    hasher.update(info);
    hasher.update(&[number]);
    hasher.finalize()
}

/// Fills `out` with keying material expanded from a pseudorandom key and the info, which may have any
/// length (RFC 5869 section 2.3). `out` has at most 12,240 bytes, 255 blocks of 48.
pub fn hkdf_sha384_expand(prk: &[u8; 48], info: &[u8], out: &mut [u8])
    requires { length out.old ≤ 12240 }
    ensures { out.new ≡ hkdf_expand prk.now info.now (length out.old) }
{
    let block_count = out.len().div_ceil(BLOCK_LEN);
    'fill: for i in 0..block_count {
        let at = BLOCK_LEN * i;
        let end = out.len().min(at + BLOCK_LEN);
        // Each block but the last is whole where it was written, and the first has none before it.
        let previous = &out[at.saturating_sub(BLOCK_LEN)..at];
        let block = expansion_block(prk, previous, info, i as u8 + 1);
        out[at..end].copy_from_slice(&block[..end - at]);
    }
}
