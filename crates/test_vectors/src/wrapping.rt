//! Keys under wrapping keys and under passwords: the PASERK specification's vectors, rows of an independent
//! implementation, and what is refused.

ghost use Rattle.std.specs.Prelude.{◌≡◌};
ghost use Rattle.paseto_wrapping.specs.Family.{family_of, nonce_length};
ghost use Rattle.paseto_wrapping.specs.Password.{salt_length};

mod refusals;
pub(crate) mod rows;
pub(crate) mod rsa;

use crate::expect::{expect_bytes, expect_same, expect_text};
use crate::hexadecimal::{array_of, bytes_of};
use paseto_rsa::private_key_from_pkcs1;
use paseto_wrapping::{
    PasswordCost, WrapError, WrappingKey, protect_local, protect_secret, unprotect_local,
    unprotect_secret, unwrap_local, unwrap_secret, wrap_local, wrap_secret,
};
use rows::{PROTECTED, Protected, WRAPPED, Wrapped};
use rusty_paseto_parts::{Key, Local, PasetoSymmetricKey, PrivateKey, V1, V2, V3, V4};
use rusty_paseto_paserk::{KeyVersion, PaserkVersion};
use std::alloc::Global;
use std::process::Abort;

fn key_of<const N: usize>(rt: &impl Abort, digits: &str) -> Key<N> {
    Key::from(array_of(rt, digits))
}

fn local_of<V>(rt: &impl Abort, digits: &str) -> PasetoSymmetricKey<V, Local> {
    PasetoSymmetricKey::from(key_of(rt, digits))
}

// The private key of octets that are wrapped, which in version 1 are an RSAPrivateKey.
fn private_of<V: KeyVersion>(rt: &impl Abort, alloc: Global, digits: &str) -> PrivateKey<V> {
    let octets = bytes_of(rt, alloc, digits);
    let bytes = match V::paserk_version() {
        PaserkVersion::V1 => rsa_key_of(rt, alloc, &octets),
        _ => octets,
    };
    PrivateKey::try_from(bytes).expect(rt, "a private key")
}

fn rsa_key_of(rt: &impl Abort, alloc: Global, octets: &[u8]) -> Vec<u8> {
    let found = private_key_from_pkcs1(alloc, octets).expect(rt, "memory");
    found.expect(rt, "a private key")
}

// The answer is the wanted text.
fn expect_answer(rt: &impl Abort, answer: Result<String, WrapError>, wanted: &str) {
    expect_text(rt, answer.expect(rt, "a text").as_str(), wanted);
}

fn agrees_locally<V: KeyVersion>(rt: &impl Abort, alloc: Global, row: &Wrapped) {
    let (_, _, digits, wrapping_key, nonce, text) = *row;
    let wrapping_key = WrappingKey::<V>::from(key_of(rt, wrapping_key));
    let key = local_of::<V>(rt, digits);
    let answer = wrap_local(alloc, &wrapping_key, &key_of(rt, nonce), &key);
    expect_answer(rt, answer, text);
    let again = unwrap_local(alloc, &wrapping_key, text).expect(rt, "a key");
    expect_bytes(rt, again.as_bytes().as_slice(), key.as_bytes().as_slice());
}

fn agrees_as_secret<V: KeyVersion>(rt: &impl Abort, alloc: Global, row: &Wrapped) {
    let (_, _, digits, wrapping_key, nonce, text) = *row;
    let wrapping_key = WrappingKey::<V>::from(key_of(rt, wrapping_key));
    let key = private_of::<V>(rt, alloc, digits);
    let answer = wrap_secret(alloc, &wrapping_key, &key_of(rt, nonce), &key.lend());
    expect_answer(rt, answer, text);
    let again = unwrap_secret(alloc, &wrapping_key, text).expect(rt, "a key");
    expect_bytes(rt, again.lend().as_bytes(), key.lend().as_bytes());
}

fn check_wrapped<V: KeyVersion>(rt: &impl Abort, alloc: Global, row: &Wrapped) {
    if row.1 == "local" {
        agrees_locally::<V>(rt, alloc, row);
    } else {
        agrees_as_secret::<V>(rt, alloc, row);
    }
}

#[test]
fn keys_under_wrapping_keys_are_those_of_the_rows(rt: HostRuntime) {
    'rows: for row in WRAPPED {
        match row.0 {
            1 => check_wrapped::<V1>(&rt, rt.alloc(), row),
            2 => check_wrapped::<V2>(&rt, rt.alloc(), row),
            3 => check_wrapped::<V3>(&rt, rt.alloc(), row),
            _ => check_wrapped::<V4>(&rt, rt.alloc(), row),
        }
    }
}

fn cost_of(row: &Protected) -> PasswordCost {
    let (iterations, memory, passes, lanes) = row.4;
    PasswordCost {
        iterations,
        memory,
        passes,
        lanes,
    }
}

fn protects_locally<V: KeyVersion, const S: usize, const N: usize>(
    rt: &impl Abort,
    alloc: Global,
    row: &Protected,
)
    requires salt { S ≡ salt_length (family_of V.paserk) }
    requires nonce { N ≡ nonce_length (family_of V.paserk) }
{
    let (_, _, digits, password, _, salt, nonce, text) = *row;
    let password = bytes_of(rt, alloc, password);
    let (salt, nonce): ([u8; S], [u8; N]) = (array_of(rt, salt), array_of(rt, nonce));
    let key = local_of::<V>(rt, digits);
    let answer = protect_local(alloc, &password, cost_of(row), &salt, &nonce, &key);
    expect_answer(rt, answer, text);
    let most = PasswordCost::most();
    let again = unprotect_local::<V>(alloc, &password, most, text).expect(rt, "a key");
    expect_bytes(rt, again.as_bytes().as_slice(), key.as_bytes().as_slice());
}

fn protects_secret<V: KeyVersion, const S: usize, const N: usize>(
    rt: &impl Abort,
    alloc: Global,
    row: &Protected,
)
    requires salt { S ≡ salt_length (family_of V.paserk) }
    requires nonce { N ≡ nonce_length (family_of V.paserk) }
{
    let (_, _, digits, password, _, salt, nonce, text) = *row;
    let password = bytes_of(rt, alloc, password);
    let (salt, nonce): ([u8; S], [u8; N]) = (array_of(rt, salt), array_of(rt, nonce));
    let key = private_of::<V>(rt, alloc, digits);
    let answer = protect_secret(alloc, &password, cost_of(row), &salt, &nonce, &key.lend());
    expect_answer(rt, answer, text);
    let most = PasswordCost::most();
    let again = unprotect_secret::<V>(alloc, &password, most, text).expect(rt, "a key");
    expect_bytes(rt, again.lend().as_bytes(), key.lend().as_bytes());
}

fn check_protected(rt: &impl Abort, alloc: Global, row: &Protected) {
    match (row.0, row.1 == "local") {
        (1, true) => protects_locally::<V1, 32, 16>(rt, alloc, row),
        (1, false) => protects_secret::<V1, 32, 16>(rt, alloc, row),
        (2, true) => protects_locally::<V2, 16, 24>(rt, alloc, row),
        (2, false) => protects_secret::<V2, 16, 24>(rt, alloc, row),
        (3, true) => protects_locally::<V3, 32, 16>(rt, alloc, row),
        (3, false) => protects_secret::<V3, 32, 16>(rt, alloc, row),
        (_, true) => protects_locally::<V4, 16, 24>(rt, alloc, row),
        (_, false) => protects_secret::<V4, 16, 24>(rt, alloc, row),
    }
}

#[test]
fn keys_under_passwords_are_those_of_the_rows(rt: HostRuntime) {
    'rows: for row in PROTECTED {
        check_protected(&rt, rt.alloc(), row);
    }
}

#[test]
fn the_default_cost_is_the_specifications(rt: HostRuntime) {
    let cost = PasswordCost::default();
    expect_same(&rt, cost.iterations, 100_000, "iterations");
    expect_same(&rt, cost.memory, 64 * 1024 * 1024, "memory");
    expect_same(&rt, cost.passes, 2, "passes");
    expect_same(&rt, cost.lanes, 1, "lanes");
}
