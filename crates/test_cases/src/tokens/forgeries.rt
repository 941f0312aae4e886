//! Tokens that were issued, and tokens that were not.

use crate::expect::expect_that;
use crate::kinds::{Binding, Kind, SECRET, symmetric_key};
use rusty_paseto_core::{
    BoxForgery, Local, LocalVersion, Opening, Paseto, PasetoSymmetricKey, Public, SignatureForgery,
    SignedToken, TagForgery, V1, V2, V3, V4, Verifies,
};
use std::alloc::Global;
use std::process::Abort;
use test_toys::ToyBox;
use test_toys::keys::{Keys, ToyVersion};

// A token that is to be opened with no footer and no implicit assertion.
fn opening_of<'a, V>(key: &'a PasetoSymmetricKey<V, Local>, token: &'a str) -> Opening<'a, V> {
    Opening {
        key,
        token,
        footer: None,
        assertion: None,
    }
}

// A token that is to be verified so.
fn signed_of(token: &str) -> SignedToken<'_> {
    SignedToken {
        token,
        footer: None,
        assertion: None,
    }
}

// What a token shows where another was issued.
fn tag_of<'a, V: LocalVersion>(
    rt: &impl Abort,
    alloc: Global,
    key: &'a PasetoSymmetricKey<V, Local>,
    issued: &'a str,
    token: &'a str,
) -> Option<TagForgery> {
    let openings = [opening_of(key, issued)];
    let answer = Paseto::<V, Local>::forgery(alloc, &openings, opening_of(key, token));
    answer.expect(rt, "an answer")
}

// A token is no forgery where it was issued, with its footer's section or without, and one of another text is.
fn check_local<V: LocalVersion>(rt: &impl Abort, alloc: Global, kind: Kind) {
    let bare = kind.token(rt, alloc, "a", Binding::NONE);
    let section = kind.token(rt, alloc, "a", Binding::of_footer(Some("")));
    let other = kind.token(rt, alloc, "b", Binding::NONE);
    let key = symmetric_key::<V>(&SECRET);
    let own = tag_of(rt, alloc, &key, bare.as_str(), section.as_str());
    expect_that(rt, own.is_none(), kind);
    let new = tag_of(rt, alloc, &key, bare.as_str(), other.as_str());
    expect_that(rt, new.is_some(), kind);
}

#[test]
fn forgeries_of_tags(rt: HostRuntime) {
    check_local::<V1>(&rt, rt.alloc(), Kind::V1Local);
    check_local::<V3>(&rt, rt.alloc(), Kind::V3Local);
    check_local::<V4>(&rt, rt.alloc(), Kind::V4Local);
}

// The same with the toy box.
fn box_of<'a>(
    rt: &impl Abort,
    alloc: Global,
    key: &'a PasetoSymmetricKey<V2, Local>,
    issued: &'a str,
    token: &'a str,
) -> Option<BoxForgery> {
    let openings = [opening_of(key, issued)];
    let answer = Paseto::<V2, Local>::forgery(alloc, &ToyBox, &openings, opening_of(key, token));
    answer.expect(rt, "an answer")
}

#[test]
fn forgeries_of_boxes(rt: HostRuntime) {
    let alloc = rt.alloc();
    let kind = Kind::V2Local;
    let bare = kind.token(&rt, alloc, "a", Binding::NONE);
    let section = kind.token(&rt, alloc, "a", Binding::of_footer(Some("")));
    let other = kind.token(&rt, alloc, "b", Binding::NONE);
    let key = symmetric_key::<V2>(&SECRET);
    let own = box_of(&rt, alloc, &key, bare.as_str(), section.as_str());
    expect_that(&rt, own.is_none(), kind);
    let new = box_of(&rt, alloc, &key, bare.as_str(), other.as_str());
    expect_that(&rt, new.is_some(), kind);
}

// The same of signed tokens.
fn signature_of<'a, V>(
    rt: &impl Abort,
    alloc: Global,
    keys: &Keys,
    issued: &'a str,
    token: &'a str,
) -> Option<SignatureForgery>
where
    V: ToyVersion + Verifies<V::Toy>,
{
    let scheme = V::toy();
    let key = V::public_key(keys).expect(rt, "a key");
    let issued = [signed_of(issued)];
    let token = signed_of(token);
    let answer = Paseto::<V, Public>::signature_forgery(alloc, &scheme, &key, &issued, token);
    answer.expect(rt, "an answer")
}

fn check_public<V>(rt: &impl Abort, alloc: Global, kind: Kind)
where
    V: ToyVersion + Verifies<V::Toy>,
{
    let bare = kind.token(rt, alloc, "a", Binding::NONE);
    let section = kind.token(rt, alloc, "a", Binding::of_footer(Some("")));
    let other = kind.token(rt, alloc, "b", Binding::NONE);
    let keys = Keys::of(&SECRET);
    let own = signature_of::<V>(rt, alloc, &keys, bare.as_str(), section.as_str());
    expect_that(rt, own.is_none(), kind);
    let new = signature_of::<V>(rt, alloc, &keys, bare.as_str(), other.as_str());
    expect_that(rt, new.is_some(), kind);
}

#[test]
fn forgeries_of_signatures(rt: HostRuntime) {
    check_public::<V1>(&rt, rt.alloc(), Kind::V1Public);
    check_public::<V2>(&rt, rt.alloc(), Kind::V2Public);
    check_public::<V3>(&rt, rt.alloc(), Kind::V3Public);
    check_public::<V4>(&rt, rt.alloc(), Kind::V4Public);
}
