//! Local tokens of builders.

use crate::builders::every_kind::builder_of;
use crate::builders::payloads::put;
use crate::expect::{expect_outcome, expect_same, expect_text, expect_that};
use crate::kinds::{Binding, Kind, SECRET, symmetric_key};
use rusty_paseto_claims::AudienceClaim;
use rusty_paseto_core::{
    Footer, Key, Local, Paseto, PasetoNonce, PasetoSymmetricKey, Payload, V1, V2, V3, V4,
    VersionTrait,
};
use rusty_paseto_generic::{GenericBuilder, GenericLocalVersion};
use std::alloc::Global;
use std::process::Abort;
use test_toys::ToyBox;
use test_toys::generators::{Counting, Failing, Zeros};
use test_toys::long::text_of;

/// `wubbalubbadubdubwubbalubbadubdub`
const KEY: [u8; 32] = *b"wubbalubbadubdubwubbalubbadubdub";

const PAYLOAD: &str = "{\"aud\":\"customers\",\"seats\":4}";

// A builder of the payload, with a footer.
fn payload_builder<V: VersionTrait>(
    rt: &impl Abort,
    alloc: Global,
) -> GenericBuilder<'static, V, Local> {
    builder_of(rt, alloc, "customers", Binding::of_footer(Some("key-1")))
}

// That the generator failed.
const NO_BYTES: &str = "CipherError { source: Cipher }";

// The core's token of the payload, with the builder's footer, under the generator's 32 bytes.
fn core_token<V: GenericLocalVersion>(
    rt: &impl Abort,
    alloc: Global,
    key: &PasetoSymmetricKey<V, Local>,
) -> String {
    let given = Key::<32>::try_new_random(&mut Counting::new()).expect(rt, "a key");
    let nonce = PasetoNonce::<V, Local>::from(&given);
    let footer = Some(Footer::from("key-1"));
    V::seal(alloc, key, &nonce, Payload::from(PAYLOAD), footer, None).expect(rt, "a token")
}

fn check_token<V: GenericLocalVersion>(
    rt: &impl Abort,
    builder: &GenericBuilder<'_, V, Local>,
    key: &PasetoSymmetricKey<V, Local>,
    wanted: &str,
) {
    let token = builder
        .try_encrypt(&mut Counting::new(), key)
        .expect(rt, "a token");
    expect_text(rt, token.as_str(), wanted);
}

// A generator that fails is asked once.
fn check_failing<V: GenericLocalVersion>(
    rt: &impl Abort,
    alloc: Global,
    builder: &GenericBuilder<'_, V, Local>,
    key: &PasetoSymmetricKey<V, Local>,
) {
    let mut failing = Failing { asked: 0 };
    let answer = builder.try_encrypt(&mut failing, key);
    expect_outcome(rt, alloc, answer, NO_BYTES, "the builder");
    expect_same(rt, failing.asked, 1, "how often it was asked");
}

// The token is the core's, twice, and once more after a generator that failed.
fn check<V: GenericLocalVersion>(rt: &impl Abort, alloc: Global) {
    let key = PasetoSymmetricKey::<V, Local>::from(Key::from(KEY));
    let builder = payload_builder::<V>(rt, alloc);
    let wanted = core_token::<V>(rt, alloc, &key);
    check_token(rt, &builder, &key, wanted.as_str());
    check_token(rt, &builder, &key, wanted.as_str());
    check_failing(rt, alloc, &builder, &key);
    check_token(rt, &builder, &key, wanted.as_str());
    drop(builder);
}

#[test]
fn of_versions_1_3_and_4(rt: HostRuntime) {
    check::<V1>(&rt, rt.alloc());
    check::<V3>(&rt, rt.alloc());
    check::<V4>(&rt, rt.alloc());
}

// The core's token by the toy box, under the generator's 24 bytes.
fn boxed_token(rt: &impl Abort, alloc: Global, key: &PasetoSymmetricKey<V2, Local>) -> String {
    let given = Key::<24>::try_new_random(&mut Counting::new()).expect(rt, "a key");
    let mut paseto = Paseto::<V2, Local>::builder();
    paseto
        .set_payload(Payload::from(PAYLOAD))
        .set_footer(Footer::from("key-1"));
    paseto
        .try_encrypt(alloc, &ToyBox, key, &PasetoNonce::from(&given))
        .expect(rt, "a token")
}

fn check_boxed_token(
    rt: &impl Abort,
    builder: &GenericBuilder<'_, V2, Local>,
    key: &PasetoSymmetricKey<V2, Local>,
    wanted: &str,
) {
    let token = builder
        .try_encrypt(&ToyBox, &mut Counting::new(), key)
        .expect(rt, "a token");
    expect_text(rt, token.as_str(), wanted);
}

fn check_failing_box(
    rt: &impl Abort,
    alloc: Global,
    builder: &GenericBuilder<'_, V2, Local>,
    key: &PasetoSymmetricKey<V2, Local>,
) {
    let mut failing = Failing { asked: 0 };
    let answer = builder.try_encrypt(&ToyBox, &mut failing, key);
    expect_outcome(rt, alloc, answer, NO_BYTES, "the builder");
    expect_same(rt, failing.asked, 1, "how often it was asked");
}

#[test]
fn of_version_2(rt: HostRuntime) {
    let key = PasetoSymmetricKey::<V2, Local>::from(Key::from(KEY));
    let builder = payload_builder::<V2>(&rt, rt.alloc());
    let wanted = boxed_token(&rt, rt.alloc(), &key);
    check_boxed_token(&rt, &builder, &key, wanted.as_str());
    check_failing_box(&rt, rt.alloc(), &builder, &key);
    check_boxed_token(&rt, &builder, &key, wanted.as_str());
    drop(builder);
}

// The toy box has no sealing of more than 4,096 bytes.
#[test]
fn a_payload_that_the_box_does_not_seal(rt: HostRuntime) {
    let alloc = rt.alloc();
    let key = PasetoSymmetricKey::<V2, Local>::from(Key::from(KEY));
    let mut builder = payload_builder::<V2>(&rt, alloc);
    let long = text_of(alloc, 5000).expect(&rt, "memory");
    put(&rt, &mut builder, AudienceClaim::from(long.as_str()));
    let answer = builder.try_encrypt(&ToyBox, &mut Zeros, &key);
    drop(builder);
    let wanted = "CipherError { source: ChaChaCipherError }";
    expect_outcome(&rt, alloc, answer, wanted, "the box");
}

#[test]
fn of_no_claims(rt: HostRuntime) {
    let builder = GenericBuilder::<V4, Local>::default(rt.alloc());
    let answer = builder.try_encrypt(&mut Zeros, &symmetric_key(&SECRET));
    drop(builder);
    let token = answer.expect(&rt, "a token");
    expect_that(&rt, token.len() == 97, "the answer");
    let wanted = Kind::V4Local.token(&rt, rt.alloc(), "{}", Binding::NONE);
    expect_text(&rt, token.as_str(), wanted.as_str());
}
