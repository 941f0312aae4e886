//! Version 3: HKDF-SHA384 splits the key, AES-256 in counter mode encrypts the text and HMAC-SHA384
//! makes the tag (PASETO specification, "Version 3").

ghost use Rattle.std.specs.Prelude.{◌≡◌, ◌≤◌, true, drop};
ghost use Rattle.rusty_paseto_core.specs.Local.V3.{v3, authentication_key, counter, encryption_key};
ghost use Rattle.rusty_paseto_core.specs.Local.V3Laws.{v3-IsLawful, v3-short_tag, v3-version};
ghost use Rattle.std.proofs.Common.{rules};

use crate::local::nist::{NistKeys, expand, front, write_hmac};
use crate::local::{AUTHENTICATION, ENCRYPTION, LocalSuite, info};
use rusty_paseto_parts::V3;
use rusty_paseto_primitives::{aes256_ctr_apply, hkdf_sha384_extract};

#[tactic(auto, unfolding(crate::specs::Local::V3::v3, rusty_paseto_parts::specs::Header::header_text, rusty_paseto_primitives::specs::Hkdf::hkdf))]
impl LocalSuite for V3 {
    type Keys = NistKeys<48>;

    ghost design = { v3 };

    ghost IsSplit = { λ keys key nonce. (keys.encryption_key ≡ encryption_key key nonce)
        × (keys.counter ≡ counter key nonce)
        × (keys.authentication_key ≡ authentication_key key nonce) };

    fn tag_length() -> usize {
        48
    }

    fn binds_assertion() -> bool {
        true
    }

    fn token_nonce(seed: &[u8], _text: &[u8]) -> [u8; 32] {
        let mut nonce = [0u8; 32];
        nonce.copy_from_slice(seed);
        nonce
    }

    fn split(key: &[u8; 32], nonce: &[u8; 32]) -> NistKeys<48> {
        let pseudorandom_key = hkdf_sha384_extract(&[], key);
        let encryption_info: [u8; 53] = info(ENCRYPTION, nonce);
        let authentication_info: [u8; 56] = info(AUTHENTICATION, nonce);
        let keys: [u8; 48] = expand(&pseudorandom_key, &encryption_info);
        NistKeys {
            encryption_key: front(&keys),
            counter: counter(&keys),
            authentication_key: expand(&pseudorandom_key, &authentication_info),
        }
    }

    fn apply_keystream(keys: &NistKeys<48>, bytes: &mut [u8]) {
        aes256_ctr_apply(&keys.encryption_key, &keys.counter, bytes);
    }

    fn write_tag(keys: &NistKeys<48>, pieces: &[&[u8]], tag: &mut [u8]) {
        write_hmac(&keys.authentication_key, pieces, tag);
    }

    ghost lawful = { v3-IsLawful };

    ghost has_version = { v3-version };

    ghost short_tag = { v3-short_tag };

    ghost has_nonces_of_32_alone = { Prim.search rules };
}

// The first counter block.
fn counter(keys: &[u8; 48]) -> [u8; 16]
    ensures { result ≡ drop 32 keys.now }
{
    let mut counter = [0u8; 16];
    counter.copy_from_slice(&keys[32..]);
    counter
}
