//! A scheme's own errors are handed on, and a private key of another length is refused before the scheme
//! is asked.

use super::faults::token_of_zeros;
use super::refusals::LETTERS;
use crate::expect::{expect_outcome, expect_same};
use crate::kinds::{Kind, SECRET};
use rusty_paseto_core::{
    PasetoAsymmetricPrivateKey, PasetoError, Payload, Public, Signs, V1, V2, V2orV4, V3, V4,
    Verifies,
};
use std::alloc::Global;
use std::process::Abort;
use test_toys::counting::{Call, Calls, Counting};
use test_toys::keys::{Keys, ToyVersion};
use test_toys::{Refusing, ToyV1, ToyV2, ToyV4};

// Signs under a key by a scheme, and counts.
fn sign_by<V: ToyVersion + Signs<Counting<S>>, S>(
    alloc: Global,
    scheme: S,
    key: &PasetoAsymmetricPrivateKey<'_, V, Public>,
) -> (Result<String, PasetoError>, Calls)
where
    S: Drop,
{
    let mut scheme = Counting::new(scheme);
    let answer = V::sign(
        alloc,
        &mut scheme,
        key,
        Payload::from("hello"),
        None,
        V::bound(None),
    );
    (answer, scheme.calls())
}

// The scheme that refuses everything is asked once, and what it answers is the answer.
fn check_refusing<V>(rt: &impl Abort, alloc: Global, kind: Kind, token: &str, asked: Call)
where
    V: ToyVersion + Signs<Counting<Refusing>> + Verifies<Counting<Refusing>>,
{
    let keys = Keys::of(&SECRET);
    let (answer, calls) = sign_by::<V, Refusing>(alloc, Refusing, &V::private_key(&keys));
    expect_outcome(rt, alloc, answer, "Signature", kind);
    expect_same(rt, &calls, &Calls::once(asked), &kind);
    let scheme = Counting::new(Refusing);
    let key = V::public_key(&keys).expect(rt, "a key");
    let answer = V::verify(alloc, &scheme, token, &key, None, V::bound(None));
    expect_outcome(rt, alloc, answer, "Signature", kind);
    expect_same(rt, &scheme.calls(), &Calls::once(Call::Verify), &kind);
}

// In version 3 a scheme that tells no public key is not asked for a signature.
#[test]
fn a_scheme_that_refuses(rt: HostRuntime) {
    'kinds: for &(kind, letters) in LETTERS {
        let alloc = rt.alloc();
        let token = token_of_zeros(&rt, alloc, kind, letters);
        let token = token.as_str();
        match kind {
            Kind::V1Public => check_refusing::<V1>(&rt, alloc, kind, token, Call::Sign),
            Kind::V2Public => check_refusing::<V2>(&rt, alloc, kind, token, Call::Sign),
            Kind::V3Public => check_refusing::<V3>(&rt, alloc, kind, token, Call::PublicKey),
            Kind::V4Public => check_refusing::<V4>(&rt, alloc, kind, token, Call::Sign),
            _ => {}
        }
    }
}

// A private key of another length is refused, and the scheme is not asked.
fn check_length<V, S>(rt: &impl Abort, alloc: Global, scheme: S, bytes: &[u8])
where
    V: ToyVersion + V2orV4 + Signs<Counting<S>>,
    S: Drop,
{
    let key = PasetoAsymmetricPrivateKey::<V, Public>::from(bytes);
    let (answer, calls) = sign_by::<V, S>(alloc, scheme, &key);
    expect_outcome(rt, alloc, answer, "TryFromSlice", bytes.len());
    expect_same(rt, &calls, &Calls::NONE, "what was asked");
}

// Keys that are a byte too short and a byte too long.
#[test]
fn private_keys_of_other_lengths(rt: HostRuntime) {
    let alloc = rt.alloc();
    let bytes = [7u8; 65];
    'keys: for bytes in [&bytes[..63], &bytes[..65]] {
        check_length::<V2, ToyV2>(&rt, alloc, ToyV2, bytes);
        check_length::<V2, Refusing>(&rt, alloc, Refusing, bytes);
        check_length::<V4, ToyV4>(&rt, alloc, ToyV4, bytes);
        check_length::<V4, Refusing>(&rt, alloc, Refusing, bytes);
    }
}

// In version 1 the scheme looks at the key.
#[test]
fn an_empty_key(rt: HostRuntime) {
    let nothing: &[u8] = &[];
    let key = PasetoAsymmetricPrivateKey::<V1, Public>::from(nothing);
    let (answer, calls) = sign_by::<V1, ToyV1>(rt.alloc(), ToyV1, &key);
    expect_outcome(&rt, rt.alloc(), answer, "KeyRejected", "the scheme");
    expect_same(&rt, &calls, &Calls::once(Call::Sign), "what was asked");
}
