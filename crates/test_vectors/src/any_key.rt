//! Keys of any version and type: what they read and write, their texts and ids, and what is refused.

mod refusals;
mod rings;
mod rows;

use crate::expect::{expect_same, expect_shown, expect_text};
use crate::hexadecimal::bytes_of;
use crate::paserk::rows::ROWS;
use crate::paserk::rsa::{INFO, PUBLIC_ID, PUBLIC_TEXT, SECRET, SECRET_ID};
use crate::pem::texts::{
    ED25519_PRIVATE, P384_PRIVATE, P384_PUBLIC, RSA_PRIVATE, RSA_PRIVATE_PKCS1, RSA_PUBLIC,
    RSA_PUBLIC_PKCS1,
};
use paseto_key_files::Openers;
use paseto_keys::{
    AnyKey, ClaimsBuilder, ClaimsParser, TokenWriter, admit, decrypt, encrypt, issue, sign, verify,
};
use paseto_wrapping::PasswordCost;
use rows::{Token, VERIFIED, WRITTEN};
use rusty_paseto_core::{Footer, ImplicitAssertion, Key, PasetoSymmetricKey};
use rusty_paseto_generic::{AudienceClaim, ClaimSetter};
use rusty_paseto_paserk::{PaserkType, PaserkVersion};
use std::alloc::Global;
use std::process::Abort;
use test_toys::generators::{Counting, Zeros};

const ZEROS_LINE: &str = "k4.local.AAAAAAAAAAAAAAAAAAAAAAAAAAAAAAAAAAAAAAAAAAA";

const FIRST_ZEROS: &str = "k1.local.AAAAAAAAAAAAAAAAAAAAAAAAAAAAAAAAAAAAAAAAAAA";

const OPENERS: Openers<'static> = Openers {
    password: Some(b"a password"),
    key: None,
};

fn key_of(rt: &impl Abort, alloc: Global, line: &str) -> AnyKey {
    AnyKey::from_line(alloc, line).expect(rt, "a key")
}

fn file_key(rt: &impl Abort, alloc: Global, text: &str) -> AnyKey {
    AnyKey::unlock(alloc, &OPENERS, text).expect(rt, "a key")
}

fn reads(rt: &impl Abort, alloc: Global, token: &Token) {
    let (line, _, text, footer, assertion, token) = *token;
    let key = key_of(rt, alloc, line);
    let (footer, assertion) = (
        footer.map(Footer::from),
        assertion.map(ImplicitAssertion::from),
    );
    let read = match key.kind() {
        PaserkType::Local => decrypt(alloc, &key, token, footer, assertion),
        _ => verify(alloc, &key, token, footer, assertion),
    };
    drop(key);
    expect_text(rt, read.expect(rt, "a text").as_str(), text);
}

#[test]
fn keys_read_published_tokens(rt: HostRuntime) {
    'written: for token in WRITTEN {
        if token.0.contains(".local.") {
            reads(&rt, rt.alloc(), token);
        }
    }
    'verified: for token in VERIFIED {
        reads(&rt, rt.alloc(), token);
    }
}

fn writes(rt: &impl Abort, alloc: Global, token: &Token) {
    let (line, drawn, text, footer, assertion, token) = *token;
    let key = key_of(rt, alloc, line);
    let drawn = bytes_of(rt, alloc, drawn);
    assert!(rt; drawn.len() == key.draws(), "{line:?}");
    let (footer, assertion) = (
        footer.map(Footer::from),
        assertion.map(ImplicitAssertion::from),
    );
    let written = match key.kind() {
        PaserkType::Local => encrypt(alloc, &key, &drawn, text, footer, assertion),
        _ => sign(alloc, &key, &drawn, text, footer, assertion),
    };
    drop(key);
    expect_text(rt, written.expect(rt, "a token").as_str(), token);
}

#[test]
fn keys_write_published_tokens(rt: HostRuntime) {
    'rows: for token in WRITTEN {
        writes(&rt, rt.alloc(), token);
    }
}

// What the first key signs, the second verifies.
fn signs_for(rt: &impl Abort, alloc: Global, private: &AnyKey, public: &AnyKey, drawn: &[u8]) {
    assert!(rt; drawn.len() == private.draws(), "drawn bytes");
    let token = sign(alloc, private, drawn, "text", None, None).expect(rt, "a token");
    let text = verify(alloc, public, token.as_str(), None, None).expect(rt, "a text");
    expect_text(rt, text.as_str(), "text");
}

// What a key signs, the second verifies.
fn signs_for_half(rt: &impl Abort, alloc: Global, private: AnyKey, half: &AnyKey, drawn: &[u8]) {
    signs_for(rt, alloc, &private, half, drawn);
    drop(private);
}

// The key is of this type and version.
fn expect_key(rt: &impl Abort, key: AnyKey, kind: PaserkType, version: PaserkVersion) {
    expect_same(rt, key.kind(), kind, version);
    expect_same(rt, key.version(), version, kind);
    drop(key);
}

#[test]
fn keys_of_files_sign_and_verify(rt: HostRuntime) {
    let (alloc, drawn) = (rt.alloc(), [7u8; 48]);
    let half = file_key(&rt, alloc, RSA_PUBLIC);
    signs_for_half(&rt, alloc, file_key(&rt, alloc, RSA_PRIVATE), &half, &drawn);
    drop(half);
    let half = half_of(&rt, alloc, file_key(&rt, alloc, RSA_PRIVATE));
    signs_for_half(&rt, alloc, file_key(&rt, alloc, RSA_PRIVATE), &half, &drawn);
    signs_for_half(&rt, alloc, key_of(&rt, alloc, SECRET), &half, &drawn);
    drop(half);
    let (first, third, fourth) = (PaserkVersion::V1, PaserkVersion::V3, PaserkVersion::V4);
    expect_key(&rt, key_of(&rt, alloc, SECRET), PaserkType::Secret, first);
    expect_key(
        &rt,
        file_key(&rt, alloc, ED25519_PRIVATE),
        PaserkType::Secret,
        fourth,
    );
    expect_key(
        &rt,
        file_key(&rt, alloc, P384_PUBLIC),
        PaserkType::Public,
        third,
    );
}

#[test]
fn lines_and_ids_are_those_of_the_rows(rt: HostRuntime) {
    'rows: for &(_, _, _, line, id) in ROWS {
        has_line_and_id(&rt, rt.alloc(), key_of(&rt, rt.alloc(), line), line, id);
    }
}

// A key is written as this line, and has this id.
fn has_line_and_id(rt: &impl Abort, alloc: Global, key: AnyKey, line: &str, id: &str) {
    expect_text(rt, key.id(alloc).expect(rt, "an id").as_str(), id);
    expect_line(rt, alloc, key, line);
}

// A key is written as this line.
fn expect_line(rt: &impl Abort, alloc: Global, key: AnyKey, line: &str) {
    expect_text(rt, key.to_line(alloc).expect(rt, "a line").as_str(), line);
    drop(key);
}

// A key is written as this text in PEM.
fn expect_pem(rt: &impl Abort, alloc: Global, key: AnyKey, text: &str) {
    expect_text(rt, key.to_pem(alloc).expect(rt, "a text").as_str(), text);
    drop(key);
}

// The public half of a key.
fn half_of(rt: &impl Abort, alloc: Global, private: AnyKey) -> AnyKey {
    let half = private.public_half(alloc).expect(rt, "a public key");
    drop(private);
    half
}

#[test]
fn lines_and_ids_of_rsa(rt: HostRuntime) {
    let alloc = rt.alloc();
    'lines: for line in [SECRET, INFO] {
        let key = key_of(&rt, alloc, line);
        has_line_and_id(&rt, alloc, key, SECRET, SECRET_ID);
    }
    'files: for text in [RSA_PRIVATE, RSA_PRIVATE_PKCS1] {
        let key = file_key(&rt, alloc, text);
        has_line_and_id(&rt, alloc, key, SECRET, SECRET_ID);
    }
    let key = key_of(&rt, alloc, PUBLIC_TEXT);
    has_line_and_id(&rt, alloc, key, PUBLIC_TEXT, PUBLIC_ID);
    'halves: for text in [RSA_PUBLIC, RSA_PUBLIC_PKCS1] {
        let key = file_key(&rt, alloc, text);
        has_line_and_id(&rt, alloc, key, PUBLIC_TEXT, PUBLIC_ID);
    }
}

#[test]
fn halves_and_texts_in_pem(rt: HostRuntime) {
    let alloc = rt.alloc();
    'lines: for (line, half) in [(WRITTEN[4].0, VERIFIED[0].0), (SECRET, PUBLIC_TEXT)] {
        expect_line(
            &rt,
            alloc,
            half_of(&rt, alloc, key_of(&rt, alloc, line)),
            half,
        );
    }
    let half = half_of(&rt, alloc, file_key(&rt, alloc, P384_PRIVATE));
    expect_pem(&rt, alloc, half, P384_PUBLIC);
    expect_pem(
        &rt,
        alloc,
        file_key(&rt, alloc, ED25519_PRIVATE),
        ED25519_PRIVATE,
    );
    expect_pem(&rt, alloc, key_of(&rt, alloc, SECRET), RSA_PRIVATE);
    let half = half_of(&rt, alloc, key_of(&rt, alloc, SECRET));
    expect_pem(&rt, alloc, half, RSA_PUBLIC);
}

// The key that a text opens as, under the test's password or the key of a line, is that of the line.
fn expect_unlocked(rt: &impl Abort, alloc: Global, text: &str, opener: &str, line: &str) {
    let openers = Openers {
        key: Some(opener),
        ..OPENERS
    };
    let key = AnyKey::unlock(alloc, &openers, text).expect(rt, "a key");
    expect_line(rt, alloc, key, line);
}

#[test]
fn locked_keys_are_unlocked(rt: HostRuntime) {
    let (alloc, line, opener) = (rt.alloc(), WRITTEN[3].0, ZEROS_LINE);
    let (key, mut generator) = (key_of(&rt, alloc, line), Zeros);
    let cost = PasswordCost {
        memory: 8192,
        passes: 1,
        ..PasswordCost::default()
    };
    let text = key
        .protect(alloc, b"a password", cost, &mut generator)
        .expect(&rt, "a text");
    expect_unlocked(&rt, alloc, text.as_str(), opener, line);
    let text = key
        .wrap(alloc, opener, &mut generator)
        .expect(&rt, "a text");
    expect_unlocked(&rt, alloc, text.as_str(), opener, line);
    let (private, public) = (WRITTEN[5].0, VERIFIED[2].0);
    let text = key
        .seal(alloc, public, &mut generator)
        .expect(&rt, "a text");
    drop(key);
    expect_unlocked(&rt, alloc, text.as_str(), private, line);
}

#[test]
fn locked_keys_of_rsa_are_unlocked(rt: HostRuntime) {
    let (alloc, opener) = (rt.alloc(), FIRST_ZEROS);
    let (key, mut generator) = (file_key(&rt, alloc, RSA_PRIVATE), Zeros);
    let cost = PasswordCost {
        iterations: 2,
        ..PasswordCost::default()
    };
    let text = key
        .protect(alloc, b"a password", cost, &mut generator)
        .expect(&rt, "a text");
    assert!(rt;
        text.as_str().starts_with("k1.secret-pw."),
        "a key under a password"
    );
    expect_unlocked(&rt, alloc, text.as_str(), opener, SECRET);
    let text = key
        .wrap(alloc, opener, &mut generator)
        .expect(&rt, "a text");
    assert!(rt;
        text.as_str().starts_with("k1.secret-wrap.pie."),
        "a wrapped key"
    );
    drop(key);
    expect_unlocked(&rt, alloc, text.as_str(), opener, SECRET);
}

// A token of a claim, and its parser.
#[test]
fn claims_are_issued_and_admitted(rt: HostRuntime) {
    let alloc = rt.alloc();
    let key = AnyKey::V4Local(PasetoSymmetricKey::from(Key::from([7u8; 32])));
    let mut claims = ClaimsBuilder::new(alloc);
    claims
        .put_claim(&AudienceClaim::from("customers"))
        .expect(&rt, "a claim");
    let footer = Some(Footer::from("{\"kid\":\"2026-11\"}"));
    let drawn = key
        .draw(alloc, &mut Counting::new())
        .expect(&rt, "random bytes");
    let token = issue(alloc, &key, &drawn, &claims, footer, None).expect(&rt, "a token");
    drop(claims);
    let mut parser = ClaimsParser::new(alloc);
    parser.set_footer(Footer::from("{\"kid\":\"2026-11\"}"));
    let value = admit(alloc, &key, &parser, token.as_str()).expect(&rt, "claims");
    drop(key);
    drop(parser);
    expect_shown(&rt, alloc, &value, "{\"aud\":\"customers\"}");
    drop(value);
}

// A new key of a type and a version, from a generator that counts.
fn new_key(rt: &impl Abort, alloc: Global, kind: PaserkType, version: PaserkVersion) -> AnyKey {
    AnyKey::generate(alloc, kind, version, &mut Counting::new()).expect(rt, "a key")
}

const COUNTED_LOCAL: &str = "k3.local.AQIDBAUGBwgJCgsMDQ4PEBESExQVFhcYGRobHB0eHyA";

const COUNTED_SECRET: &str =
    "k3.secret.AQIDBAUGBwgJCgsMDQ4PEBESExQVFhcYGRobHB0eHyAhIiMkJSYnKCkqKywtLi8w";

#[test]
fn new_keys_are_made_of_drawn_bytes(rt: HostRuntime) {
    let alloc = rt.alloc();
    let local = new_key(&rt, alloc, PaserkType::Local, PaserkVersion::V3);
    expect_line(&rt, alloc, local, COUNTED_LOCAL);
    let private = new_key(&rt, alloc, PaserkType::Secret, PaserkVersion::V3);
    expect_line(&rt, alloc, private, COUNTED_SECRET);
    'pairs: for version in [PaserkVersion::V2, PaserkVersion::V3, PaserkVersion::V4] {
        let private = new_key(&rt, alloc, PaserkType::Secret, version);
        let public = private.public_half(alloc).expect(&rt, "a public key");
        signs_for_half(&rt, alloc, private, &public, &[]);
        drop(public);
    }
}
