//! The payloads of builders.

use crate::claims::json::value_of;
use crate::expect::expect_text;
use crate::parsers::steps::values_of;
use rusty_paseto_claims::{AudienceClaim, ClaimValue, CustomClaim, PasetoClaim};
use rusty_paseto_core::{Local, PurposeTrait, V4, VersionTrait};
use rusty_paseto_generic::{ClaimSetter, GenericBuilder};
use std::alloc::Global;
use std::process::Abort;

type Builder<'a> = GenericBuilder<'a, V4, Local>;

/// The builder's payload is this one.
pub(crate) fn check(rt: &impl Abort, builder: &Builder<'_>, payload: &str) {
    let built = builder.build_payload_from_claims().expect(rt, "a payload");
    expect_text(rt, built.as_str(), payload);
}

/// Puts a claim that is accepted.
pub(crate) fn put<V: VersionTrait, P: PurposeTrait, C: PasetoClaim + Drop>(
    rt: &impl Abort,
    builder: &mut GenericBuilder<'_, V, P>,
    claim: C,
) {
    builder.put_claim(&claim).expect(rt, "a claim");
}

// Sets two claims, by calls that lend the builder back.
fn set_both<C: PasetoClaim, D: PasetoClaim>(
    rt: &impl Abort,
    builder: &mut Builder<'_>,
    first: &C,
    second: &D,
) {
    builder
        .set_claim(first)
        .expect(rt, "a claim")
        .set_claim(second)
        .expect(rt, "a claim");
}

// The payload of one claim of a caller's own.
fn check_custom<T: ClaimValue + Drop>(
    rt: &impl Abort,
    alloc: Global,
    key: &str,
    value: T,
    payload: &str,
) {
    let mut builder = Builder::new(alloc);
    let claim = CustomClaim::try_from_str(alloc, key, value).expect(rt, "a claim");
    put(rt, &mut builder, claim);
    check(rt, &builder, payload);
    drop(builder);
}

// The payload of one entry of JSON, which is stored twice.
fn check_entry(rt: &impl Abort, alloc: Global, key: &str, json: &str, payload: &str) {
    let mut builder = Builder::new(alloc);
    let more = values_of(rt, alloc, &[(key, json)]);
    builder.extend_claims(more).expect(rt, "claims");
    check(rt, &builder, payload);
    let more = values_of(rt, alloc, &[(key, json)]);
    builder.put_claims(more).expect(rt, "claims");
    check(rt, &builder, payload);
    drop(builder);
}

#[test]
fn keys_are_in_byte_order(rt: HostRuntime) {
    let alloc = rt.alloc();
    let audience = AudienceClaim::from("customers");
    let seats = CustomClaim::try_from_str(alloc, "seats", 4u64).expect(&rt, "a claim");
    let payload = "{\"aud\":\"customers\",\"seats\":4}";
    let mut builder = Builder::new(alloc);
    check(&rt, &builder, "{}");
    set_both(&rt, &mut builder, &audience, &seats);
    check(&rt, &builder, payload);
    drop(builder);
    let mut builder = Builder::default(alloc);
    set_both(&rt, &mut builder, &seats, &audience);
    check(&rt, &builder, payload);
    builder.remove_claim("seat");
    check(&rt, &builder, payload);
    builder.remove_claim("aud");
    check(&rt, &builder, "{\"seats\":4}");
    builder
        .remove_claim("seats")
        .set_claim(&audience)
        .expect(&rt, "a claim");
    check(&rt, &builder, "{\"aud\":\"customers\"}");
    // A key that is there gets the new value.
    put(&rt, &mut builder, AudienceClaim::from("others"));
    check(&rt, &builder, "{\"aud\":\"others\"}");
    drop(builder);
}

// A claim is unwrapped once, and one with the empty key is not written.
#[test]
fn of_each_kind_of_value(rt: HostRuntime) {
    let alloc = rt.alloc();
    check_custom(&rt, alloc, "i'm good tho", true, "{\"i'm good tho\":true}");
    check_custom(&rt, alloc, "n", u64::MAX, "{\"n\":18446744073709551615}");
    check_custom(&rt, alloc, "n", i64::MIN, "{\"n\":-9223372036854775808}");
    let value = value_of(&rt, alloc, "{\"a\":{\"a\":1}}");
    check_custom(&rt, alloc, "a", value, "{\"a\":{\"a\":{\"a\":1}}}");
    check_custom(&rt, alloc, "", 1u64, "{}");
    let fraction = value_of(&rt, alloc, "3.5");
    check_custom(&rt, alloc, "", fraction, "{}");
}

// An entry's key, its JSON, and the payload.
const ENTRIES: &[(&str, &str, &str)] = &[
    ("a", "{\"a\":1}", "{\"a\":{\"a\":1}}"),
    ("", "1", "{\"\":1}"),
    // Any whole number is stored under `exp`, though a default parser refuses it.
    ("exp", "5", "{\"exp\":5}"),
];

#[test]
fn of_entries(rt: HostRuntime) {
    'entries: for &(key, json, payload) in ENTRIES {
        check_entry(&rt, rt.alloc(), key, json, payload);
    }
}
