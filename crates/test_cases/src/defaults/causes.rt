//! Why a token was refused, behind the errors of builders, parsers and rings, and who is to blame.

use crate::expect::expect_text;
use rusty_paseto::prelude::{
    GenericBuilderError, GenericParserError, KeyRingError, KeyRingParserError, PasetoClaimError,
    PasetoError,
};
use std::alloc::{AllocError, Global};
use std::process::Abort;

// The error tells its blame, its cause, and its text with that of its cause.
fn expect_builder(rt: &impl Abort, alloc: Global, error: GenericBuilderError, wanted: &str) {
    let (blame, cause, text) = (error.blame(), error.cause(), error.explained());
    let told = format!(in alloc; "{blame:?}, {cause:?}: {text}");
    drop(error);
    expect_text(rt, told.expect(rt, "memory").as_str(), wanted);
}

#[test]
fn of_builders(rt: HostRuntime) {
    let alloc = rt.alloc();
    let cipher = GenericBuilderError::from(PasetoError::ChaChaCipherError);
    let wanted =
        "Unfit, Some(ChaChaCipherError): A paseto cipher error occurred: An unspecified cipher error occurred";
    expect_builder(&rt, alloc, cipher, wanted);
    let generator = GenericBuilderError::from(PasetoError::Cipher);
    let wanted =
        "Unfit, Some(Cipher): A paseto cipher error occurred: An unspecified cipher error occurred";
    expect_builder(&rt, alloc, generator, wanted);
    let claim = GenericBuilderError::from(PasetoClaimError::Expired);
    expect_builder(&rt, alloc, claim, "Unfit, None: This token is expired");
    let memory = GenericBuilderError::from(AllocError);
    expect_builder(&rt, alloc, memory, "Memory, None: No memory was found");
}

fn expect_parser(rt: &impl Abort, alloc: Global, error: GenericParserError, wanted: &str) {
    let (blame, cause, text) = (error.blame(), error.cause(), error.explained());
    let told = format!(in alloc; "{blame:?}, {cause:?}: {text}");
    drop(error);
    expect_text(rt, told.expect(rt, "memory").as_str(), wanted);
}

#[test]
fn of_parsers(rt: HostRuntime) {
    let alloc = rt.alloc();
    let footer = GenericParserError::from(PasetoError::FooterInvalid);
    let wanted =
        "Foreign, Some(FooterInvalid): A paseto cipher error occurred: The provided footer is invalid";
    expect_parser(&rt, alloc, footer, wanted);
    let tag = GenericParserError::from(PasetoError::Cryption);
    let wanted =
        "Foreign, Some(Cryption): A paseto cipher error occurred: An unspecified cryption error occured";
    expect_parser(&rt, alloc, tag, wanted);
    let expired = GenericParserError::from(PasetoClaimError::Expired);
    expect_parser(&rt, alloc, expired, "Untimely, None: This token is expired");
    let early = PasetoClaimError::UseBeforeAvailable(String::new(alloc));
    let wanted = "Untimely, None: The token cannot be used before ";
    expect_parser(&rt, alloc, GenericParserError::from(early), wanted);
    let missing = PasetoClaimError::Missing(String::new(alloc));
    let wanted = "Unfit, None: The expected claim '' was not found in the payload";
    expect_parser(&rt, alloc, GenericParserError::from(missing), wanted);
    let wanted = "Memory, None: No memory was found";
    expect_parser(&rt, alloc, GenericParserError::from(AllocError), wanted);
    let memory = GenericParserError::from(PasetoError::Memory(AllocError));
    expect_parser(&rt, alloc, memory, wanted);
}

// The text of a ring's error is that of its cause.
fn expect_ring(rt: &impl Abort, alloc: Global, error: KeyRingError, wanted: &str) {
    let (blame, cause) = (error.blame(), error.cause());
    let told = format!(in alloc; "{blame:?}, {cause:?}: {error}");
    drop(error);
    expect_text(rt, told.expect(rt, "memory").as_str(), wanted);
}

#[test]
fn of_rings(rt: HostRuntime) {
    let alloc = rt.alloc();
    let cut = KeyRingError::Untrusted(PasetoError::IncorrectSize);
    let wanted =
        "Foreign, Some(IncorrectSize): This string has an incorrect number of parts and cannot be parsed into a token";
    expect_ring(&rt, alloc, cut, wanted);
    let wanted = "Foreign, None: The token has no footer";
    expect_ring(&rt, alloc, KeyRingError::NoFooter, wanted);
    let tag = KeyRingError::Token(PasetoError::Cryption);
    let wanted = "Foreign, Some(Cryption): An unspecified cryption error occured";
    expect_ring(&rt, alloc, tag, wanted);
}

fn expect_ring_parser(rt: &impl Abort, alloc: Global, error: KeyRingParserError, wanted: &str) {
    let (blame, cause) = (error.blame(), error.cause());
    let told = format!(in alloc; "{blame:?}, {cause:?}: {error}");
    drop(error);
    expect_text(rt, told.expect(rt, "memory").as_str(), wanted);
}

#[test]
fn of_rings_that_parse(rt: HostRuntime) {
    let alloc = rt.alloc();
    let token = KeyRingError::Token(PasetoError::Cryption);
    let wanted = "Foreign, Some(Cryption): An unspecified cryption error occured";
    expect_ring_parser(&rt, alloc, KeyRingParserError::from(token), wanted);
    let unnamed = KeyRingParserError::from(KeyRingError::NoKeyId);
    let wanted = "Foreign, None: The footer names no key";
    expect_ring_parser(&rt, alloc, unnamed, wanted);
    let claim = GenericParserError::from(PasetoClaimError::Expired);
    let wanted = "Untimely, None: This token is expired";
    expect_ring_parser(&rt, alloc, KeyRingParserError::from(claim), wanted);
    let memory = KeyRingParserError::from(AllocError);
    expect_ring_parser(&rt, alloc, memory, "Memory, None: No memory was found");
}
