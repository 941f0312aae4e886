//! The texts of versions, purposes and headers, and those that a token carries.

use crate::expect::{expect_bytes, expect_shown, expect_text, expect_that};
use rusty_paseto_core::{
    Footer, Header, ImplicitAssertion, Local, Payload, Public, PurposeTrait, V1, V2, V3, V4,
    VersionTrait,
};

#[test]
fn shown(rt: HostRuntime) {
    let alloc = rt.alloc();
    let version = V4::default();
    let purpose = Local::default();
    let header = Header::<V4, Local>::default();
    let same = header;
    expect_text(&rt, version.as_str(), "v4");
    expect_text(&rt, purpose.as_str(), "local");
    expect_text(&rt, header.as_str(), "v4.local.");
    expect_bytes(&rt, same.as_bytes(), b"v4.local.");
    expect_shown(&rt, alloc, &version, "v4");
    expect_shown(&rt, alloc, &purpose, "local");
    expect_shown(&rt, alloc, &header, "v4.local.");
    expect_shown(&rt, alloc, &V2::default(), "v2");
    expect_shown(&rt, alloc, &Public::default(), "public");
    expect_shown(&rt, alloc, &Header::<V2, Public>::default(), "v2.public.");
}

#[test]
fn kept(rt: HostRuntime) {
    let alloc = rt.alloc();
    let payload = Payload::from("pay");
    let footer = Footer::from("foot");
    let assertion = ImplicitAssertion::from("said");
    expect_shown(&rt, alloc, &payload, "pay");
    expect_shown(&rt, alloc, &footer, "foot");
    expect_shown(&rt, alloc, &assertion, "said");
    expect_text(&rt, payload.as_str(), "pay");
    expect_text(&rt, footer.as_str(), "foot");
    expect_text(&rt, assertion.as_str(), "said");
    expect_bytes(&rt, payload.as_bytes(), b"pay");
    expect_bytes(&rt, footer.as_bytes(), b"foot");
    expect_bytes(&rt, assertion.as_bytes(), b"said");
}

#[test]
fn headers_of_the_versions(rt: HostRuntime) {
    expect_text(&rt, V1::default().as_str(), "v1");
    expect_text(&rt, V3::default().as_str(), "v3");
    expect_text(&rt, Header::<V1, Local>::default().as_str(), "v1.local.");
    expect_text(&rt, Header::<V3, Local>::default().as_str(), "v3.local.");
}

#[test]
fn compared(rt: HostRuntime) {
    let footer = Footer::from("foot");
    let copy = footer;
    expect_that(&rt, footer == copy, "the answer");
    expect_that(&rt, footer != Footer::from("fool"), "the answer");
    expect_that(&rt, Footer::from("") == Footer::default(), "the answer");
    expect_that(&rt, Payload::from("a") == Payload::from("a"), "the answer");
    expect_that(&rt, Payload::from("a") != Payload::default(), "the answer");
    expect_that(
        &rt,
        ImplicitAssertion::from("a") == ImplicitAssertion::from("a"),
        "the answer",
    );
    expect_that(
        &rt,
        ImplicitAssertion::from("a") != ImplicitAssertion::default(),
        "the answer",
    );
}
