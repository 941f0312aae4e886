//! A token is sealed and opened as a service does it.

use crate::expect::expect_same;
use rusty_paseto_core::{
    Footer, Key, Local, Paseto, PasetoError, PasetoNonce, PasetoSymmetricKey, Payload, V4,
};
use std::alloc::Global;

/// Seals a message, and opens it again.
fn there_and_back(
    alloc: Global,
    key_digits: &str,
    nonce_digits: &str,
) -> Result<String, PasetoError> {
    let key = PasetoSymmetricKey::<V4, Local>::from(Key::<32>::try_from(key_digits)?);
    let nonce = Key::<32>::try_from(nonce_digits)?;
    let footer = Footer::from("key-1");

    let mut paseto = Paseto::<V4, Local>::builder();
    paseto
        .set_payload(Payload::from("a message"))
        .set_footer(footer);
    let token = paseto.try_encrypt(alloc, &key, &PasetoNonce::from(&nonce))?;

    Paseto::<V4, Local>::try_decrypt(alloc, token.as_str(), &key, Some(footer), None)
}

#[test]
fn a_message_comes_back(rt: HostRuntime) {
    let digits = "000102030405060708090a0b0c0d0e0f101112131415161718191a1b1c1d1e1f";
    let message = there_and_back(rt.alloc(), digits, digits).expect(&rt, "a message");
    expect_same(&rt, message.as_str(), "a message", "the answer");
}
