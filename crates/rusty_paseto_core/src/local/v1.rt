//! Version 1: HKDF-SHA384 splits the key, AES-256 in counter mode encrypts the text and HMAC-SHA384
//! makes the tag and the token's nonce (PASETO specification, "Version 1").

ghost use Rattle.std.specs.Prelude.{◌≡◌, ◌≤◌, false, take, drop};
ghost use Rattle.rusty_paseto_core.specs.Local.V1.{v1, authentication_key, counter, encryption_key, salt};
ghost use Rattle.rusty_paseto_core.specs.Local.V1Laws.{v1-IsLawful, v1-short_tag, v1-version};
ghost use Rattle.std.proofs.Common.{rules};

use crate::local::nist::{NistKeys, expand, front, write_hmac};
use crate::local::{AUTHENTICATION, ENCRYPTION, LocalSuite};
use rusty_paseto_parts::V1;
use rusty_paseto_primitives::{aes256_ctr_apply, hkdf_sha384_extract, hmac_sha384};

#[tactic(auto, unfolding(crate::specs::Local::V1::v1, rusty_paseto_parts::specs::Header::header_text, rusty_paseto_primitives::specs::Hkdf::hkdf))]
impl LocalSuite for V1 {
    type Keys = NistKeys<32>;

    ghost design = { v1 };

    ghost IsSplit = { λ keys key nonce. (keys.encryption_key ≡ encryption_key key nonce)
        × (keys.counter ≡ counter nonce)
        × (keys.authentication_key ≡ authentication_key key nonce) };

    fn tag_length() -> usize {
        48
    }

    fn binds_assertion() -> bool {
        false
    }

    // The nonce depends on the text too, so that a seed that comes twice does no harm to two
    // texts.
    fn token_nonce(seed: &[u8], text: &[u8]) -> [u8; 32] {
        front(&hmac_sha384(seed, text))
    }

    fn split(key: &[u8; 32], nonce: &[u8; 32]) -> NistKeys<32> {
        let pseudorandom_key = hkdf_sha384_extract(salt(nonce), key);
        NistKeys {
            encryption_key: expand(&pseudorandom_key, ENCRYPTION),
            counter: counter(nonce),
            authentication_key: expand(&pseudorandom_key, AUTHENTICATION),
        }
    }

    fn apply_keystream(keys: &NistKeys<32>, bytes: &mut [u8]) {
        aes256_ctr_apply(&keys.encryption_key, &keys.counter, bytes);
    }

    fn write_tag(keys: &NistKeys<32>, pieces: &[&[u8]], tag: &mut [u8]) {
        write_hmac(&keys.authentication_key, pieces, tag);
    }

    ghost lawful = { v1-IsLawful };

    ghost has_version = { v1-version };

    ghost short_tag = { v1-short_tag };

    ghost has_nonces_of_32_alone = { Prim.search rules };
}

// The salt of both keys.
fn salt(nonce: &[u8; 32]) -> &[u8]
    ensures { result.now ≡ salt nonce.now }
{
    &nonce[..16]
}

// The first counter block.
fn counter(nonce: &[u8; 32]) -> [u8; 16]
    ensures { result ≡ counter nonce.now }
{
    let mut counter = [0u8; 16];
    counter.copy_from_slice(&nonce[16..]);
    counter
}
