//! Keys of OpenSSL, both ways, and what is refused.

mod others;
mod refusals;
pub(crate) mod texts;

use crate::expect::{expect_digits, expect_text};
use crate::schemes::rsa;
use paseto_pem::{
    PemVersion, private_key_from_pem, private_key_to_pem, public_key_from_pem, public_key_to_pem,
};
use rusty_paseto_parts::{V1, V2, V3, V4};
use std::alloc::Global;
use std::process::Abort;
use texts::*;

// The key of the text is that of the digits.
fn reads_private<V: PemVersion>(rt: &impl Abort, alloc: Global, text: &str, digits: &str) {
    let key = private_key_from_pem::<V>(alloc, text).expect(rt, "a key");
    expect_digits(rt, alloc, key.lend().as_bytes(), digits);
}

fn reads_public<V: PemVersion>(rt: &impl Abort, alloc: Global, text: &str, digits: &str) {
    let key = public_key_from_pem::<V>(alloc, text).expect(rt, "a key");
    expect_digits(rt, alloc, key.lend().as_bytes(), digits);
}

// The key of a text is written as the wanted text.
fn writes_private<V: PemVersion>(rt: &impl Abort, alloc: Global, text: &str, wanted: &str) {
    let key = private_key_from_pem::<V>(alloc, text).expect(rt, "a key");
    let written = private_key_to_pem(alloc, &key.lend()).expect(rt, "a text");
    expect_text(rt, written.as_str(), wanted);
}

fn writes_public<V: PemVersion>(rt: &impl Abort, alloc: Global, text: &str, wanted: &str) {
    let key = public_key_from_pem::<V>(alloc, text).expect(rt, "a key");
    let written = public_key_to_pem(alloc, &key.lend()).expect(rt, "a text");
    expect_text(rt, written.as_str(), wanted);
}

#[test]
fn keys_of_ed25519(rt: HostRuntime) {
    let alloc = rt.alloc();
    let public = &ED25519_SEED_AND_KEY[64..];
    reads_private::<V4>(&rt, alloc, ED25519_PRIVATE, ED25519_SEED_AND_KEY);
    reads_private::<V2>(&rt, alloc, ED25519_PRIVATE_CRLF, ED25519_SEED_AND_KEY);
    reads_public::<V4>(&rt, alloc, ED25519_PUBLIC, public);
    writes_private::<V4>(&rt, alloc, ED25519_PRIVATE_CRLF, ED25519_PRIVATE);
    writes_private::<V2>(&rt, alloc, ED25519_PRIVATE, ED25519_PRIVATE);
    writes_public::<V2>(&rt, alloc, ED25519_PUBLIC, ED25519_PUBLIC);
    let open = ED25519_PUBLIC.strip_suffix('\n').expect(&rt, "a line feed");
    reads_public::<V2>(&rt, alloc, open, public);
}

// Lines of other lengths and ends, and a text in front.
#[test]
fn other_forms_of_texts(rt: HostRuntime) {
    let alloc = rt.alloc();
    'texts: for text in ED25519_PUBLIC_IN_OTHER_FORMS {
        writes_public::<V4>(&rt, alloc, text, ED25519_PUBLIC);
    }
}

#[test]
fn keys_of_p384(rt: HostRuntime) {
    let alloc = rt.alloc();
    'texts: for text in [P384_PRIVATE, P384_PRIVATE_ALONE, P384_SEC1, P384_SEC1_ALONE] {
        reads_private::<V3>(&rt, alloc, text, P384_NUMBER);
        writes_private::<V3>(&rt, alloc, text, P384_PRIVATE);
    }
    'publics: for text in [P384_PUBLIC, P384_COMPRESSED] {
        reads_public::<V3>(&rt, alloc, text, P384_POINT);
        writes_public::<V3>(&rt, alloc, text, P384_PUBLIC);
    }
}

#[test]
fn keys_of_rsa(rt: HostRuntime) {
    let alloc = rt.alloc();
    reads_private::<V1>(&rt, alloc, RSA_PRIVATE, rsa::PRIVATE);
    writes_private::<V1>(&rt, alloc, RSA_PRIVATE, RSA_PRIVATE);
    'publics: for text in [RSA_PUBLIC, RSA_PUBLIC_PKCS1] {
        reads_public::<V1>(&rt, alloc, text, rsa::PUBLIC);
        writes_public::<V1>(&rt, alloc, text, RSA_PUBLIC);
    }
}
