//! Keys and nonces.

use crate::expect::{expect_bytes, expect_text, expect_that};
use rusty_paseto_core::{
    Key, KeyPair, Local, PasetoAsymmetricPrivateKey, PasetoAsymmetricPublicKey, PasetoError,
    PasetoNonce, PasetoSymmetricKey, PrivateKey, Public, PublicKey, V1, V2, V3, V4, VersionTrait,
};
use std::alloc::Global;
use std::fmt;
use std::process::Abort;

#[test]
fn digits_of_either_case(rt: HostRuntime) {
    'texts: for text in ["0aff", "0AFF", "0aFf"] {
        let key = Key::<2>::try_from(text).expect(&rt, "a key");
        expect_bytes(&rt, key.as_bytes().as_slice(), &[10, 255]);
    }
}

#[test]
fn other_texts(rt: HostRuntime) {
    'texts: for text in ["", "0a", "0afg", "0aff0", "0aff00", " 0aff", "0x0a"] {
        let refused = matches!(&Key::<2>::try_from(text), Err(PasetoError::InvalidKey));
        expect_that(&rt, refused, &text);
    }
}

// So many bytes, none of which is like another.
fn bytes_of<const N: usize>() -> [u8; N] {
    let mut bytes = [0; N];
    let mut next = 1u8;
    'bytes: for byte in bytes.iter_mut() {
        *byte = next;
        next = next.wrapping_add(1);
    }
    bytes
}

#[test]
fn bytes_are_kept(rt: HostRuntime) {
    let bytes = bytes_of::<32>();
    let key = Key::<32>::from(bytes);
    expect_bytes(&rt, key.as_bytes().as_slice(), &bytes);
    let key = Key::<32>::from(&bytes);
    expect_bytes(&rt, key.as_bytes().as_slice(), &bytes);
    let key = Key::<32>::from_slice(&bytes);
    expect_bytes(&rt, key.as_bytes().as_slice(), &bytes);
    expect_bytes(&rt, key.clone().as_bytes().as_slice(), &bytes);
}

#[test]
fn a_key_of_zeros(rt: HostRuntime) {
    let key = Key::<3>::default();
    expect_bytes(&rt, key.as_bytes().as_slice(), &[0, 0, 0]);
}

// What is told of a key is this.
fn check_told(rt: &impl Abort, alloc: Global, key: &impl fmt::Debug, expected: &str) {
    let told = format!(in alloc; "{key:?}").expect(rt, "memory");
    expect_text(rt, told.as_str(), expected);
}

#[test]
fn no_byte_is_told(rt: HostRuntime) {
    let key = Key::<32>::from(bytes_of());
    let long = Key::<64>::from(bytes_of());
    let symmetric = PasetoSymmetricKey::<V4, Local>::from(key.clone());
    let private = PasetoAsymmetricPrivateKey::<V4, Public>::from(&long);
    let public = PasetoAsymmetricPublicKey::<V4, Public>::from(&key);
    let nonce = PasetoNonce::<V4, Local>::from(&key);
    check_told(&rt, rt.alloc(), &key, "!!! KEY IS PRIVATE !!!");
    check_told(&rt, rt.alloc(), &symmetric, "!!! KEY IS PRIVATE !!!");
    check_told(&rt, rt.alloc(), &private, "!!! KEY IS PRIVATE !!!");
    check_told(&rt, rt.alloc(), &public, "PasetoAsymmetricPublicKey { .. }");
    check_told(&rt, rt.alloc(), &nonce, "PasetoNonce { .. }");
}

#[test]
fn no_byte_of_an_owned_key_is_told(rt: HostRuntime) {
    let alloc = rt.alloc();
    let long = Key::<64>::from(bytes_of());
    let short = Key::<32>::from(bytes_of());
    let pair = pair_of(&rt, alloc, &long, &short);
    check_told(&rt, alloc, &pair, "!!! KEY IS PRIVATE !!!");
    let (private, public) = pair.into_keys();
    check_told(&rt, alloc, &private, "!!! KEY IS PRIVATE !!!");
    check_told(&rt, alloc, &public, "PublicKey { .. }");
}

// A pair of version 4 of these bytes.
fn pair_of(rt: &impl Abort, alloc: Global, private: &Key<64>, public: &Key<32>) -> KeyPair<V4> {
    let private = PrivateKey::copy_of(alloc, &PasetoAsymmetricPrivateKey::from(private));
    let public = PublicKey::copy_of(alloc, &PasetoAsymmetricPublicKey::from(public));
    KeyPair::new(private.expect(rt, "memory"), public.expect(rt, "memory"))
}

#[test]
fn a_pair_keeps_its_keys(rt: HostRuntime) {
    let long = Key::<64>::from(bytes_of());
    let short = Key::<32>::from(bytes_of());
    let pair = pair_of(&rt, rt.alloc(), &long, &short);
    expect_bytes(&rt, pair.private().as_bytes(), &bytes_of::<64>());
    expect_bytes(&rt, pair.public().as_bytes(), &bytes_of::<32>());
    let (private, public) = pair.into_keys();
    expect_bytes(&rt, private.lend().as_bytes(), &bytes_of::<64>());
    expect_bytes(&rt, public.lend().as_bytes(), &bytes_of::<32>());
}

// So many bytes, at most 65, each of which is 2.
fn owned_bytes(rt: &impl Abort, alloc: Global, length: usize) -> Vec<u8> {
    let bytes = [2u8; 65];
    Vec::from_slice(alloc, &bytes[..length.min(65)]).expect(rt, "memory")
}

// Whether a private key, and whether a public key, of the version may have so many bytes.
fn may_have<V: VersionTrait>(rt: &impl Abort, alloc: Global, length: usize) -> (bool, bool) {
    let private = PrivateKey::<V>::try_from(owned_bytes(rt, alloc, length));
    let public = PublicKey::<V>::try_from(owned_bytes(rt, alloc, length));
    let named = matches!(&private, Ok(_) | Err(PasetoError::InvalidKey))
        && matches!(&public, Ok(_) | Err(PasetoError::InvalidKey));
    expect_that(rt, named, &length);
    (private.is_ok(), public.is_ok())
}

#[test]
fn owned_keys_have_their_lengths(rt: HostRuntime) {
    'lengths: for length in 0..=65usize {
        let alloc = rt.alloc();
        expect_that(
            &rt,
            may_have::<V1>(&rt, alloc, length) == (true, true),
            &length,
        );
        let is_32 = length == 32;
        expect_that(
            &rt,
            may_have::<V2>(&rt, alloc, length) == (true, is_32),
            &length,
        );
        expect_that(
            &rt,
            may_have::<V4>(&rt, alloc, length) == (true, is_32),
            &length,
        );
        let of_v3 = (length == 48, length == 49);
        expect_that(&rt, may_have::<V3>(&rt, alloc, length) == of_v3, &length);
    }
}

#[test]
fn owned_points_are_compressed(rt: HostRuntime) {
    'bytes: for first in 0..=255u8 {
        let mut point = [2u8; 49];
        point[0] = first;
        let bytes = Vec::from_slice(rt.alloc(), &point).expect(&rt, "memory");
        let is_taken = PublicKey::<V3>::try_from(bytes).is_ok();
        expect_that(&rt, is_taken == (first == 2 || first == 3), &first);
    }
}

// A clone has the same bytes.
#[test]
fn cloned(rt: HostRuntime) {
    let key = Key::<32>::from(bytes_of());
    let long = Key::<64>::from(bytes_of());
    let symmetric = PasetoSymmetricKey::<V4, Local>::from(key.clone()).clone();
    expect_bytes(&rt, symmetric.as_bytes().as_slice(), &bytes_of::<32>());
    let private = PasetoAsymmetricPrivateKey::<V4, Public>::from(&long).clone();
    expect_bytes(&rt, private.as_bytes(), &bytes_of::<64>());
    let public = PasetoAsymmetricPublicKey::<V4, Public>::from(&key).clone();
    expect_bytes(&rt, public.as_bytes(), &bytes_of::<32>());
}

#[test]
fn keeps_nonces_and_symmetric_keys(rt: HostRuntime) {
    let key = Key::<32>::from(bytes_of());
    let nonce = PasetoNonce::<V4, Local>::from(&key);
    expect_bytes(&rt, nonce.as_bytes(), &bytes_of::<32>());
    let symmetric = PasetoSymmetricKey::<V4, Local>::from(key.clone());
    expect_bytes(&rt, symmetric.as_bytes().as_slice(), &bytes_of::<32>());
    let short = Key::<24>::from(bytes_of());
    let nonce = PasetoNonce::<V2, Local>::from(&short);
    expect_bytes(&rt, nonce.as_bytes(), &bytes_of::<24>());
}

#[test]
fn keeps_private_keys(rt: HostRuntime) {
    let key = Key::<64>::from(bytes_of());
    let private = PasetoAsymmetricPrivateKey::<V4, Public>::from(&key);
    expect_bytes(&rt, private.as_bytes(), &bytes_of::<64>());
    let scalar = Key::<48>::from(bytes_of());
    let private = PasetoAsymmetricPrivateKey::<V3, Public>::from(&scalar);
    expect_bytes(&rt, private.as_bytes(), &bytes_of::<48>());
    let short = bytes_of::<3>();
    let private = PasetoAsymmetricPrivateKey::<V2, Public>::from(short.as_slice());
    expect_bytes(&rt, private.as_bytes(), &short);
    let private = PasetoAsymmetricPrivateKey::<V1, Public>::from(short.as_slice());
    expect_bytes(&rt, private.as_bytes(), &short);
}

#[test]
fn keeps_public_keys(rt: HostRuntime) {
    let key = Key::<32>::from(bytes_of());
    let public = PasetoAsymmetricPublicKey::<V2, Public>::from(&key);
    expect_bytes(&rt, public.as_bytes(), &bytes_of::<32>());
    let short = bytes_of::<3>();
    let public = PasetoAsymmetricPublicKey::<V1, Public>::from(short.as_slice());
    expect_bytes(&rt, public.as_bytes(), &short);
}

#[test]
fn takes_compressed_points(rt: HostRuntime) {
    'bytes: for first in 0..=255u8 {
        let mut bytes = [9u8; 49];
        bytes[0] = first;
        let point = Key::<49>::from(bytes);
        match PasetoAsymmetricPublicKey::<V3, Public>::try_from(&point) {
            Ok(public) => {
                expect_that(&rt, first == 2 || first == 3, &first);
                expect_bytes(&rt, public.as_bytes(), &bytes);
            }
            Err(error) => {
                expect_that(&rt, first != 2 && first != 3, &first);
                expect_that(&rt, matches!(&error, PasetoError::InvalidKey), &first);
            }
        }
    }
}
