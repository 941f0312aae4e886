//! The texts of errors.

use crate::expect::expect_shown;
use base64::DecodeError;
use rusty_paseto_core::PasetoError;
use std::alloc::{AllocError, Global};
use std::process::Abort;

fn check(rt: &impl Abort, alloc: Global, error: PasetoError, text: &str) {
    expect_shown(rt, alloc, &error, text);
}

#[test]
fn of_tokens(rt: HostRuntime) {
    let alloc = rt.alloc();
    let text = "This string has an incorrect number of parts and cannot be parsed into a token";
    check(&rt, alloc, PasetoError::IncorrectSize, text);
    let text = "The token header is invalid";
    check(&rt, alloc, PasetoError::WrongHeader, text);
    let text = "The provided footer is invalid";
    check(&rt, alloc, PasetoError::FooterInvalid, text);
    let text = "An unspecified cryption error occured";
    check(&rt, alloc, PasetoError::Cryption, text);
    let error = PasetoError::from(DecodeError::InvalidPadding);
    check(&rt, alloc, error, "A base64 decode error occurred");
}

#[test]
fn of_texts(rt: HostRuntime) {
    let alloc = rt.alloc();
    let text = "A Utf8 parsing error occurred";
    let Err(not_utf8) = std::str::from_utf8(&[0xff]) else {
        panic!(rt; "a byte that no text has");
    };
    check(&rt, alloc, PasetoError::from(not_utf8), text);
    check(&rt, alloc, PasetoError::Infallibale, text);
    check(&rt, alloc, PasetoError::FromUtf8Error, text);
}

#[test]
fn of_keys_and_memory(rt: HostRuntime) {
    let alloc = rt.alloc();
    let text = "Key was not in the correct format";
    check(&rt, alloc, PasetoError::InvalidKey, text);
    let text = "A private RSA key was not in the correct format";
    check(&rt, alloc, PasetoError::KeyRejected, text);
    let text = "A slice conversion error occurred";
    check(&rt, alloc, PasetoError::TryFromSlice, text);
    let error = PasetoError::from(AllocError);
    check(&rt, alloc, error, "No memory was found");
    let text = "The token or its footer is longer than allowed";
    check(&rt, alloc, PasetoError::TooLong, text);
}

#[test]
fn of_ciphers(rt: HostRuntime) {
    let alloc = rt.alloc();
    let text = "An unspecified cipher error occurred";
    check(&rt, alloc, PasetoError::Cipher, text);
    check(&rt, alloc, PasetoError::RsaCipher, text);
    check(&rt, alloc, PasetoError::ChaChaCipherError, text);
    check(&rt, alloc, PasetoError::InvalidLength, text);
    let inner = Box::new(alloc, PasetoError::Cipher).expect(&rt, "memory");
    let error = PasetoError::PasetoCipherError(inner);
    check(&rt, alloc, error, "A cipher error occurred");
}

#[test]
fn of_signatures(rt: HostRuntime) {
    let alloc = rt.alloc();
    let text = "Could not assemble final signature.";
    check(&rt, alloc, PasetoError::Signature, text);
    let text = "The token signature could not be verified";
    check(&rt, alloc, PasetoError::InvalidSignature, text);
    let text = "An unspecified ECSDA error occurred";
    check(&rt, alloc, PasetoError::ECSDAError, text);
}
