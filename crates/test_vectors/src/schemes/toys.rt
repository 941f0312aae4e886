//! The toy signature schemes by themselves, and the scheme that refuses everything.

use crate::expect::{expect_same, expect_that};
use crate::hexadecimal::array_of;
use rusty_paseto_core::{CompressedKey, PasetoError, SignatureScheme};
use std::alloc::Global;
use std::process::Abort;
use test_toys::{Refusing, ToyV1, ToyV2, ToyV3, ToyV4, toy_partner, toy_partner_v3};

const PRIVATE: &[u8] = b"private";

const MESSAGE: &[u8] = b"message";

// Whether a scheme answers that a signature is not valid.
fn is_invalid<const SIG: usize, S: SignatureScheme<SIG>>(
    alloc: Global,
    scheme: &S,
    public: &[u8],
    message: &[u8],
    signature: &[u8; SIG],
) -> bool {
    let answer = scheme.verify(alloc, public, message, signature);
    matches!(&answer, Err(PasetoError::InvalidSignature))
}

// A scheme verifies what it signs, for this message and this public key, and nothing else.
fn check<const SIG: usize, S: SignatureScheme<SIG>>(
    rt: &impl Abort,
    alloc: Global,
    scheme: &mut S,
    public: &[u8],
    other: &[u8],
) -> [u8; SIG] {
    let signature = scheme
        .sign(alloc, PRIVATE, MESSAGE)
        .expect(rt, "a signature");
    scheme
        .verify(alloc, public, MESSAGE, &signature)
        .expect(rt, "a signature");
    expect_that(
        rt,
        is_invalid(alloc, &*scheme, public, b"massage", &signature),
        "the answer",
    );
    expect_that(
        rt,
        is_invalid(alloc, &*scheme, other, MESSAGE, &signature),
        "the answer",
    );
    let mut changed = signature;
    if let Some(last) = changed.last_mut() {
        *last ^= 1;
    }
    expect_that(
        rt,
        is_invalid(alloc, &*scheme, public, MESSAGE, &changed),
        "the answer",
    );
    let declined = scheme.sign(alloc, b"", MESSAGE);
    expect_that(
        rt,
        matches!(&declined, Err(PasetoError::KeyRejected)),
        "the answer",
    );
    signature
}

#[test]
fn toys_verify_their_own(rt: HostRuntime) {
    let alloc = rt.alloc();
    let public = toy_partner(PRIVATE);
    let other = toy_partner(b"other");
    check::<256, ToyV1>(&rt, alloc, &mut ToyV1, &public, &other);
    check::<64, ToyV2>(&rt, alloc, &mut ToyV2, &public, &other);
    check::<64, ToyV4>(&rt, alloc, &mut ToyV4, &public, &other);
    let public = toy_partner_v3(PRIVATE);
    let other = toy_partner_v3(b"other");
    check::<96, ToyV3>(&rt, alloc, &mut ToyV3, &public, &other);
}

#[test]
fn the_toy_of_version_3_tells_public_keys(rt: HostRuntime) {
    let alloc = rt.alloc();
    let mut public = ToyV3.public_key(alloc, PRIVATE).expect(&rt, "a key");
    expect_same(
        &rt,
        public.as_slice(),
        toy_partner_v3(PRIVATE).as_slice(),
        "the answer",
    );
    let declined = ToyV3.public_key(alloc, b"");
    expect_that(
        &rt,
        matches!(&declined, Err(PasetoError::KeyRejected)),
        "the answer",
    );
    let signature = ToyV3
        .sign(alloc, PRIVATE, MESSAGE)
        .expect(&rt, "a signature");
    let answer = ToyV3.verify(alloc, &[2; 48], MESSAGE, &signature);
    expect_that(
        &rt,
        matches!(&answer, Err(PasetoError::InvalidKey)),
        "the answer",
    );
    public[0] = 3;
    let answer = ToyV3.verify(alloc, &public, MESSAGE, &signature);
    expect_that(
        &rt,
        matches!(&answer, Err(PasetoError::InvalidKey)),
        "the answer",
    );
}

// The values are those of Python's `hashlib.blake2b`.
#[test]
fn partners_and_signatures(rt: HostRuntime) {
    let known: [u8; 32] = array_of(
        &rt,
        "0e5751c026e543b2e8ab2eb06099daa1d1e5df47778f7787faab45cdf12fe3a8",
    );
    expect_same(
        &rt,
        toy_partner(b"").as_slice(),
        known.as_slice(),
        "the answer",
    );
    let known: [u8; 32] = array_of(
        &rt,
        "1875d1042dee92d2273e86f696e82157c8de79e1ffed3dfef1feafcabc56893c",
    );
    expect_same(
        &rt,
        toy_partner(PRIVATE).as_slice(),
        known.as_slice(),
        "the answer",
    );
    let known: [u8; 49] = array_of(
        &rt,
        concat!(
            "02b0735fd9d62e1274890e39884e153e918a2a2d11c7ca03",
            "cdd2f6ecd032bf5bde73f552c4d8b2971bc402f057c952ea5b",
        ),
    );
    expect_same(
        &rt,
        toy_partner_v3(PRIVATE).as_slice(),
        known.as_slice(),
        "the answer",
    );
    let known: [u8; 96] = array_of(
        &rt,
        concat!(
            "311ae114c442b452effdf41a78f8fe4771400ddab01737e34a9d8c982024bdd4",
            "e78ac81f11cc30dc26c2f6f477c41f5650b31eb2f195dcd654a26f5ba3b8b4c0",
            "33018d1cceca83db0b3048826353008d3e654eed3fffc95dcab7e8c44c943672",
        ),
    );
    let signature = ToyV3
        .sign(rt.alloc(), PRIVATE, MESSAGE)
        .expect(&rt, "a signature");
    expect_same(&rt, signature.as_slice(), known.as_slice(), "the answer");
}

#[test]
fn the_refusing_scheme_refuses(rt: HostRuntime) {
    let alloc = rt.alloc();
    let signed: Result<[u8; 64], PasetoError> = Refusing.sign(alloc, PRIVATE, MESSAGE);
    expect_that(
        &rt,
        matches!(&signed, Err(PasetoError::Signature)),
        "the answer",
    );
    let verified = Refusing.verify(alloc, &toy_partner(PRIVATE), MESSAGE, &[0; 64]);
    expect_that(
        &rt,
        matches!(&verified, Err(PasetoError::Signature)),
        "the answer",
    );
    let told = Refusing.public_key(alloc, PRIVATE);
    expect_that(
        &rt,
        matches!(&told, Err(PasetoError::Signature)),
        "the answer",
    );
}
