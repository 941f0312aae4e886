//! What is refused, by its name.

use crate::expect::{expect_text, expect_that};
use rusty_paseto_parts::{PasetoAsymmetricPrivateKey, Public, V1, V3, V4};
use rusty_paseto_paserk::{
    PaserkError, PaserkType, PaserkVersion, header_of, local_from_paserk, private_key_from_paserk,
    public_from_paserk, public_key_from_paserk, secret_from_paserk, secret_id, secret_to_paserk,
};
use std::process::Abort;

const LOCAL: &str = "k4.local.AAAAAAAAAAAAAAAAAAAAAAAAAAAAAAAAAAAAAAAAAAA";

// What the error says is the wanted text, which is `a key` where there is none.
pub(crate) fn expect_fault<T: Drop>(rt: &impl Abort, answer: Result<T, PaserkError>, wanted: &str) {
    match answer {
        Ok(key) => {
            drop(key);
            expect_text(rt, "a key", wanted);
        }
        Err(error) => {
            expect_text(rt, error.text(), wanted);
            drop(error);
        }
    }
}

// Each text with what is said of it where a local key of version 4 is asked for.
const REFUSED: &[(&str, &str)] = &[
    ("", "The text is no PASERK key"),
    ("k4", "The text is no PASERK key"),
    ("k4.local", "The text is no PASERK key"),
    ("k5.local.AAAA", "The text is no PASERK key"),
    ("K4.local.AAAA", "The text is no PASERK key"),
    ("k4.seal.AAAA", "The text is no PASERK key"),
    (
        "k4.lid.bqltbNc4JLUAmc9Xtpok-fBuI0dQN5_m3CD9W_nbh559",
        "The text is no PASERK key",
    ),
    (
        "v4.local.AAAAAAAAAAAAAAAAAAAAAAAAAAAAAAAAAAAAAAAAAAA",
        "The text is no PASERK key",
    ),
    (
        " k4.local.AAAAAAAAAAAAAAAAAAAAAAAAAAAAAAAAAAAAAAAAAAA",
        "The text is no PASERK key",
    ),
    (
        "k1.local.AAAAAAAAAAAAAAAAAAAAAAAAAAAAAAAAAAAAAAAAAAA",
        "The key is one of version 1",
    ),
    (
        "k2.local.AAAAAAAAAAAAAAAAAAAAAAAAAAAAAAAAAAAAAAAAAAA",
        "The key is one of version 2",
    ),
    ("k3.secret.", "The key is one of version 3"),
    ("k4.secret.AAAA", "The key is a private one, which signs"),
    ("k4.public.AAAA", "The key is a public one, which verifies"),
    ("k4.local.", "The key was not in the correct format"),
    (
        "k4.local.AAAAAAAAAAAAAAAAAAAAAAAAAAAAAAAAAAAAAAAAAA",
        "The key was not in the correct format",
    ),
    (
        "k4.local.AAAAAAAAAAAAAAAAAAAAAAAAAAAAAAAAAAAAAAAAAAAA",
        "The key was not in the correct format",
    ),
    (
        "k4.local.AAAAAAAAAAAAAAAAAAAAAAAAAAAAAAAAAAAAAAAAAAA=",
        "The key was not in the correct format",
    ),
    (
        "k4.local.AAAAAAAAAAAAAAAAAAAAAAAAAAAAAAAAAAAAAAAAAAB",
        "The key was not in the correct format",
    ),
    (
        "k4.local.AAAAAAAAAAAAAAAAAAAAAAAAAAAAAAAAAAAAAAAAAAA\n",
        "The key was not in the correct format",
    ),
];

#[test]
fn owned_keys_are_refused_by_name(rt: HostRuntime) {
    let alloc = rt.alloc();
    let private = private_key_from_paserk::<V4>(alloc, LOCAL);
    expect_fault(&rt, private, "The key is one for local tokens");
    let private = private_key_from_paserk::<V3>(alloc, "k3.secret.AAAA");
    expect_fault(&rt, private, "The key was not in the correct format");
    let public = public_key_from_paserk::<V3>(alloc, LOCAL);
    expect_fault(&rt, public, "The key is one of version 4");
    let public = public_key_from_paserk::<V4>(alloc, "k4.public.AAAA");
    expect_fault(&rt, public, "The key was not in the correct format");
}

#[test]
fn other_texts_are_refused_by_name(rt: HostRuntime) {
    'texts: for &(text, wanted) in REFUSED {
        expect_fault(&rt, local_from_paserk::<V4>(rt.alloc(), text), wanted);
    }
    expect_fault(
        &rt,
        local_from_paserk::<V1>(rt.alloc(), LOCAL),
        "The key is one of version 4",
    );
    expect_fault(
        &rt,
        secret_from_paserk::<V4, 64>(rt.alloc(), LOCAL),
        "The key is one for local tokens",
    );
    expect_fault(
        &rt,
        public_from_paserk::<V3, 49>(rt.alloc(), LOCAL),
        "The key is one of version 4",
    );
}

// A point of version 3 is compressed: its first byte is 2 or 3.
#[test]
fn only_compressed_points_are_keys(rt: HostRuntime) {
    let text = "k3.public.AgAAAAAAAAAAAAAAAAAAAAAAAAAAAAAAAAAAAAAAAAAAAAAAAAAAAAAAAAAAAAAAAA";
    expect_fault(&rt, public_from_paserk::<V3, 49>(rt.alloc(), text), "a key");
    let text = "k3.public.BAAAAAAAAAAAAAAAAAAAAAAAAAAAAAAAAAAAAAAAAAAAAAAAAAAAAAAAAAAAAAAAAA";
    expect_fault(
        &rt,
        public_from_paserk::<V3, 49>(rt.alloc(), text),
        "The key was not in the correct format",
    );
}

// A private key of version 4 may have any number of bytes, and one of another number than 64 has no text.
#[test]
fn short_private_keys_are_not_written(rt: HostRuntime) {
    let key = PasetoAsymmetricPrivateKey::<V4, Public>::from([0u8; 32].as_slice());
    expect_fault(
        &rt,
        secret_to_paserk(rt.alloc(), &key),
        "The key was not in the correct format",
    );
    expect_fault(
        &rt,
        secret_id(rt.alloc(), &key),
        "The key was not in the correct format",
    );
}

#[test]
fn a_text_says_what_it_begins_as(rt: HostRuntime) {
    let found = header_of("k3.public.AAAA");
    let wanted = Some((PaserkVersion::V3, PaserkType::Public, "AAAA"));
    expect_that(&rt, found == wanted, "a public key");
    expect_that(&rt, header_of("k3.pid.AAAA").is_none(), "an id");
}
