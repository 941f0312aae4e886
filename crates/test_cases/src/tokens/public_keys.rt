//! Public keys that the scheme refuses.

use crate::expect::expect_outcome;
use crate::kinds::{Binding, Kind, SECRET};
use rusty_paseto_core::{Key, Paseto, PasetoAsymmetricPublicKey, Public, V3};
use test_toys::{ToyV3, toy_partner_v3};

// A point that begins with 3 is a key of version 3, but none of the toy's.
#[test]
fn a_key_that_begins_with_3(rt: HostRuntime) {
    let token = Kind::V3Public.token(&rt, rt.alloc(), "hello", Binding::NONE);
    let mut point = toy_partner_v3(&SECRET[..48]);
    point[0] = 3;
    let point = Key::from(point);
    let public = PasetoAsymmetricPublicKey::try_from(&point).expect(&rt, "a key");
    let answer = Paseto::<V3, Public>::try_verify(
        rt.alloc(),
        &ToyV3,
        token.as_str(),
        &public,
        None,
        None,
    );
    expect_outcome(&rt, rt.alloc(), answer, "InvalidKey", "the scheme");
}
