//! A token is signed and verified as a service does it.

use crate::expect::expect_same;
use rusty_paseto_core::{
    Key, Paseto, PasetoAsymmetricPrivateKey, PasetoAsymmetricPublicKey, PasetoError, Payload,
    Public, SignatureScheme, V4,
};
use std::alloc::Global;
use test_toys::{ToyV4, toy_partner};

/// Signs a message, and verifies it again.
fn signed_and_verified<S: SignatureScheme<64>>(
    alloc: Global,
    scheme: &mut S,
    private: &Key<64>,
    public: &Key<32>,
) -> Result<String, PasetoError> {
    let private = PasetoAsymmetricPrivateKey::<V4, Public>::from(private);
    let public = PasetoAsymmetricPublicKey::<V4, Public>::from(public);

    let mut paseto = Paseto::<V4, Public>::builder();
    paseto.set_payload(Payload::from("a message"));
    let token = paseto.try_sign(alloc, scheme, &private)?;

    Paseto::<V4, Public>::try_verify(alloc, scheme, token.as_str(), &public, None, None)
}

#[test]
fn a_message_comes_back(rt: HostRuntime) {
    let private = Key::from([1; 64]);
    let public = Key::from(toy_partner(private.as_bytes()));
    let message = signed_and_verified(rt.alloc(), &mut ToyV4, &private, &public).expect(
        &rt,
        "a message",
    );
    expect_same(&rt, message.as_str(), "a message", "the answer");
}
