//! What keys of any version and type refuse.

use super::key_of;
use super::rows::WRITTEN;
use crate::expect::expect_shown;
use crate::paserk::rsa::{PUBLIC_TEXT, RSA_PUBLIC_KEY, SHORT_KEY};
use crate::pem::texts::{RSA_1024_PUBLIC, RSA_PRIVATE};
use paseto_key_files::{KeyFileError, Openers};
use paseto_keys::{
    AdmitError, AnyKey, ClaimsBuilder, ClaimsParser, KeyError, TokenReader, TokenWriter, admit,
    decrypt, encrypt, issue, sign, verify,
};
use paseto_wrapping::PasswordCost;
use rand_core::TryRng;
use rusty_paseto_core::{ImplicitAssertion, Key, PasetoError, PasetoSymmetricKey};
use rusty_paseto_generic::GenericParserError;
use rusty_paseto_paserk::{PaserkError, PaserkType, PaserkVersion};
use serde_json::Value;
use std::alloc::Global;
use std::fmt::Display;
use std::process::Abort;
use test_toys::generators::{Failing, Zeros};

// The answer is the error that shows this.
fn expect_refusal<T: Drop, E: Display + Drop>(
    rt: &impl Abort,
    alloc: Global,
    answer: Result<T, E>,
    wanted: &str,
) {
    match answer {
        Ok(found) => {
            drop(found);
            assert!(rt; false, "{wanted:?}");
        }
        Err(error) => {
            expect_shown(rt, alloc, &error, wanted);
            drop(error);
        }
    }
}

const LOCAL: &str = "The key is one for local tokens";

const PRIVATE: &str = "The key is a private one, which signs";

const PUBLIC: &str = "The key is a public one, which verifies";

const UNBOUND: &str = "Keys of versions 1 and 2 take no implicit assertion";

const UNDRAWN: &str = "The key takes another number of random bytes for a token";

const FIRST: &str = "k1.local.cHFyc3R1dnd4eXp7fH1-f4CBgoOEhYaHiImKi4yNjo8";

const SECOND: &str = "k2.public.Hrnbu7wEfAP9cGBOAHHwmH4Wsot1ciXBHwBBXQ4gsaI";

pub(super) const THIRD: &str =
    "k3.secret.AuEW8g8o7tXDzTX8Dw6MaHSPfdVpnXl6-9C5aRANAPyPT83j_3yE-OJBBwq01JDM";

/// A call, the line of its key, whether an assertion is given, and what is said where 31 bytes are drawn.
const REFUSED: &[(&str, &str, bool, &str)] = &[
    ("decrypt", THIRD, true, PRIVATE),
    ("decrypt", SECOND, false, PUBLIC),
    ("verify", FIRST, true, LOCAL),
    ("verify", THIRD, false, PRIVATE),
    ("encrypt", THIRD, true, PRIVATE),
    ("sign", FIRST, false, LOCAL),
    ("sign", SECOND, true, PUBLIC),
    ("read", THIRD, true, PRIVATE),
    ("write", SECOND, true, PUBLIC),
    ("issue", SECOND, true, PUBLIC),
    ("admit", THIRD, true, PRIVATE),
    ("decrypt", FIRST, true, UNBOUND),
    ("encrypt", FIRST, true, UNBOUND),
    ("verify", SECOND, true, UNBOUND),
    ("read", SECOND, true, UNBOUND),
    ("write", FIRST, true, UNBOUND),
    ("issue", FIRST, true, UNBOUND),
    ("admit", SECOND, true, UNBOUND),
    ("encrypt", FIRST, false, UNDRAWN),
    ("sign", THIRD, true, UNDRAWN),
    ("write", THIRD, false, UNDRAWN),
    ("issue", FIRST, false, UNDRAWN),
    ("decrypt", FIRST, false, "The token header is invalid"),
    ("verify", SECOND, false, "The token header is invalid"),
    ("read", SECOND, false, "The token header is invalid"),
    ("admit", SECOND, false, "A paseto cipher error occurred"),
];

// What a call answers for the token or the text `v4.local.AAAA`.
fn answer(alloc: Global, call: &str, key: &AnyKey, is_bound: bool) -> Result<String, KeyError> {
    let assertion = is_bound.then(|| ImplicitAssertion::from("an assertion"));
    let (text, claims, drawn) = ("v4.local.AAAA", ClaimsBuilder::new(alloc), [7u8; 31]);
    let answer = match call {
        "decrypt" => decrypt(alloc, key, text, None, assertion),
        "verify" => verify(alloc, key, text, None, assertion),
        "read" => key.read(alloc, text, None, assertion),
        "encrypt" => encrypt(alloc, key, &drawn, text, None, assertion),
        "sign" => sign(alloc, key, &drawn, text, None, assertion),
        "write" => key.write(alloc, &drawn, text, None, assertion),
        _ => issue(alloc, key, &drawn, &claims, None, assertion),
    };
    drop(claims);
    answer
}

// What `admit` answers for the token `v4.local.AAAA`. Its parser has an assertion that it is given as one of version 4.
fn admitted(alloc: Global, key: &AnyKey, is_bound: bool) -> Result<Value, AdmitError> {
    let mut parser = ClaimsParser::new(alloc);
    if is_bound {
        parser.set_implicit_assertion(ImplicitAssertion::from("an assertion"));
    }
    let answer = admit(alloc, key, &parser, "v4.local.AAAA");
    drop(parser);
    answer
}

#[test]
fn types_assertions_and_tokens(rt: HostRuntime) {
    'rows: for &(call, line, is_bound, wanted) in REFUSED {
        let key = key_of(&rt, rt.alloc(), line);
        if call == "admit" {
            let answer = admitted(rt.alloc(), &key, is_bound);
            expect_refusal(&rt, rt.alloc(), answer, wanted);
        } else {
            let answer = answer(rt.alloc(), call, &key, is_bound);
            expect_refusal(&rt, rt.alloc(), answer, wanted);
        }
        drop(key);
    }
}

#[test]
fn tokens_beyond_the_limit(rt: HostRuntime) {
    let alloc = rt.alloc();
    let key = AnyKey::V4Local(PasetoSymmetricKey::from(Key::from([7u8; 32])));
    let mut parser = ClaimsParser::new(alloc);
    parser.set_longest(100);
    let answer = admit(alloc, &key, &parser, WRITTEN[0].5);
    drop(key);
    drop(parser);
    let is_too_long = matches!(
        &answer,
        Err(AdmitError::Parser(GenericParserError::CipherError {
            source: PasetoError::TooLong
        }))
    );
    drop(answer);
    assert!(rt; is_too_long, "a token that is too long");
}

// How many bytes are taken is told, and a generator that fails.
#[test]
fn drawn_bytes(rt: HostRuntime) {
    let alloc = rt.alloc();
    let key = key_of(&rt, alloc, FIRST);
    let answer = encrypt(alloc, &key, &[7u8; 33], "text", None, None);
    let is_told = matches!(&answer, Err(KeyError::OtherLength(32)));
    drop(answer);
    assert!(rt; is_told, "another number of bytes");
    let mut failing = Failing { asked: 0 };
    let wanted = "The generator of random bytes failed";
    expect_refusal(&rt, alloc, key.draw(alloc, &mut failing), wanted);
    assert!(rt; failing.asked == 1, "asked once");
    drop(key);
    let key = key_of(&rt, alloc, THIRD);
    let none = key.draw(alloc, &mut failing).expect(&rt, "no bytes");
    drop(key);
    assert!(rt; none.is_empty() && failing.asked == 1, "no bytes");
}

#[test]
fn halves_and_texts(rt: HostRuntime) {
    let alloc = rt.alloc();
    let local = key_of(&rt, alloc, WRITTEN[3].0);
    let first = key_of(&rt, alloc, PUBLIC_TEXT);
    expect_refusal(&rt, alloc, local.public_half(alloc), LOCAL);
    expect_refusal(&rt, alloc, first.public_half(alloc), PUBLIC);
    let wanted = "keys for local tokens have no PEM text";
    expect_refusal(&rt, alloc, local.to_pem(alloc), wanted);
    drop(local);
    drop(first);
    let odd = AnyKey::from_bytes(alloc, PaserkType::Secret, PaserkVersion::V4, &[7u8; 64]);
    let odd = odd.expect(&rt, "a key");
    let wanted = "The key was not in the correct format";
    expect_refusal(&rt, alloc, odd.public_half(alloc), wanted);
    drop(odd);
}

// The answer is refused as an invalid key of a line.
fn expect_no_line(rt: &impl Abort, answer: Result<String, KeyFileError>) {
    let is_told = matches!(&answer, Err(KeyFileError::Paserk(PaserkError::InvalidKey)));
    drop(answer);
    assert!(rt; is_told, "no line");
}

// What is no key of RSA may be held as one of version 1, and has no line, no id and no other half.
#[test]
fn bytes_of_no_rsa_key(rt: HostRuntime) {
    let (alloc, first) = (rt.alloc(), PaserkVersion::V1);
    let cost = PasswordCost::default();
    let wanted = "The key was not in the correct format";
    'kinds: for kind in [PaserkType::Secret, PaserkType::Public] {
        let key = AnyKey::from_bytes(alloc, kind, first, &[7u8; 64]).expect(&rt, "a key");
        expect_no_line(&rt, key.to_line(alloc));
        expect_no_line(&rt, key.to_pem(alloc));
        expect_no_line(&rt, key.protect(alloc, b"a", cost, &mut Zeros));
        expect_no_line(&rt, key.wrap(alloc, FIRST, &mut Zeros));
        expect_refusal(&rt, alloc, key.id(alloc), wanted);
        drop(key);
    }
    let key = AnyKey::from_bytes(alloc, PaserkType::Secret, first, &[]).expect(&rt, "a key");
    expect_refusal(&rt, alloc, key.public_half(alloc), wanted);
    drop(key);
}

/// A line, and what is said of it.
const LINES: &[(&str, &str)] = &[
    ("", "The text is no PASERK key"),
    ("k5.local.AAAA", "The text is no PASERK key"),
    ("k1.secret.AAAA", "The key was not in the correct format"),
    ("k1.public.AAAA", "The key was not in the correct format"),
    (SHORT_KEY, "The key was not in the correct format"),
    (RSA_PUBLIC_KEY, "The key was not in the correct format"),
    ("k4.local.AAAA", "The key was not in the correct format"),
    ("k3.public.AAAA", "The key was not in the correct format"),
    (RSA_PRIVATE, "The text is no PASERK key"),
    (RSA_1024_PUBLIC, "The text is no PASERK key"),
];

/// A text of a key file, and what is said of it.
const FILES: &[(&str, &str)] = &[
    ("", "The text is no PASERK key"),
    ("k1.secret.AAAA", "The key was not in the correct format"),
    ("-----BEGIN ", "The text is no PEM"),
    ("a text\n-----BEGIN ", "The text is no PEM"),
    (RSA_1024_PUBLIC, "The key has another size"),
];

#[test]
fn lines_of_no_key(rt: HostRuntime) {
    let alloc = rt.alloc();
    'lines: for &(line, wanted) in LINES {
        expect_refusal(&rt, alloc, AnyKey::from_line(alloc, line), wanted);
    }
    let openers = Openers {
        password: None,
        key: None,
    };
    'files: for &(text, wanted) in FILES {
        expect_refusal(&rt, alloc, AnyKey::unlock(alloc, &openers, text), wanted);
    }
}

#[test]
fn bytes_of_no_key(rt: HostRuntime) {
    let alloc = rt.alloc();
    'versions: for version in [PaserkVersion::V2, PaserkVersion::V3, PaserkVersion::V4] {
        'kinds: for kind in [PaserkType::Local, PaserkType::Secret, PaserkType::Public] {
            let answer = AnyKey::from_bytes(alloc, kind, version, &[7u8; 31]);
            expect_refusal(&rt, alloc, answer, "Key was not in the correct format");
        }
    }
}

// What is answered for a new key of a type and a version.
fn expect_no_new_key<G: TryRng>(
    rt: &impl Abort,
    alloc: Global,
    kind: PaserkType,
    version: PaserkVersion,
    generator: &mut G,
    wanted: &str,
) {
    let answer = AnyKey::generate(alloc, kind, version, generator);
    expect_refusal(rt, alloc, answer, wanted);
}

#[test]
fn new_keys(rt: HostRuntime) {
    let (alloc, mut failing) = (rt.alloc(), Failing { asked: 0 });
    let (secret, first) = (PaserkType::Secret, PaserkVersion::V1);
    let wanted = "Private keys of version 1 are not generated";
    expect_no_new_key(&rt, alloc, secret, first, &mut failing, wanted);
    expect_no_new_key(&rt, alloc, PaserkType::Public, first, &mut failing, PUBLIC);
    assert!(rt; failing.asked == 0, "not asked");
    let wanted = "The generator of random bytes failed";
    expect_no_new_key(&rt, alloc, PaserkType::Local, first, &mut failing, wanted);
    'pairs: for version in [PaserkVersion::V2, PaserkVersion::V3, PaserkVersion::V4] {
        expect_no_new_key(&rt, alloc, secret, version, &mut failing, wanted);
    }
    let answer = AnyKey::generate(alloc, secret, PaserkVersion::V3, &mut Zeros);
    let is_told = matches!(&answer, Err(KeyError::Refused(PasetoError::KeyRejected)));
    drop(answer);
    assert!(rt; is_told, "no private key");
}
