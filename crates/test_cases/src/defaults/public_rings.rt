//! Rings of public keys, and rings of version 2.

use crate::defaults::key_rings::{Opened, Question, put_key};
use crate::defaults::ring_parsing::{
    CLAIMS, PARSED, ROWS, Row, expect_claims, parser_of, token_of,
};
use crate::kinds::{Binding, Kind, OTHER_SECRET, SECRET, symmetric_key};
use rusty_paseto::prelude::{
    DefaultAssertionVersion, GenericParser, KeyRing, Local, OwnedPublicKeyRing, Public, PublicKey,
    PublicKeyRing, V1, V2, V3, V4, Verifies,
};
use std::alloc::Global;
use std::process::Abort;
use test_toys::ToyBox;
use test_toys::keys::{Keys, ToyVersion};

// A ring with the key of the first secret as `k1`, and of the second as `k2`.
fn ring_of<'a, V: ToyVersion>(
    rt: &impl Abort,
    alloc: Global,
    first: &'a Keys,
    second: &'a Keys,
) -> PublicKeyRing<'a, V> {
    let mut ring = PublicKeyRing::<V>::new(alloc);
    put_key(
        rt,
        &mut ring,
        "k1",
        V::public_key(first).expect(rt, "a key"),
    );
    put_key(
        rt,
        &mut ring,
        "k2",
        V::public_key(second).expect(rt, "a key"),
    );
    ring
}

fn check_row<V: ToyVersion + Verifies<V::Toy>>(
    rt: &impl Abort,
    alloc: Global,
    kind: Kind,
    ring: &PublicKeyRing<'_, V>,
    row: Row,
) {
    let token = token_of(rt, alloc, kind, row.payload);
    let parser = parser_of::<V, Public>(rt, alloc, row);
    let answer = ring.parse(&V::toy(), &parser, token.as_str());
    expect_claims(rt, alloc, answer, row.told);
}

fn check_version<V: ToyVersion + Verifies<V::Toy>>(rt: &impl Abort, alloc: Global, kind: Kind) {
    let (first, second) = (Keys::of(&SECRET), Keys::of(&OTHER_SECRET));
    let ring = ring_of::<V>(rt, alloc, &first, &second);
    'rows: for &row in ROWS {
        check_row::<V>(rt, alloc, kind, &ring, row);
    }
    let token = token_of(rt, alloc, kind, CLAIMS);
    let generic = GenericParser::<V, Public>::new(alloc);
    let answer = ring.parse_by(&V::toy(), &generic, token.as_str());
    expect_claims(rt, alloc, answer, PARSED);
    drop(ring);
}

// A ring that owns its keys, with the first secret's as `k1`.
fn owned_ring<V: ToyVersion>(rt: &impl Abort, alloc: Global) -> OwnedPublicKeyRing<V> {
    let keys = Keys::of(&SECRET);
    let lent = V::public_key(&keys).expect(rt, "a key");
    let copied = PublicKey::copy_of(alloc, &lent).expect(rt, "memory");
    let mut ring = OwnedPublicKeyRing::<V>::new(alloc);
    put_key(rt, &mut ring, "k1", copied);
    ring
}

fn check_owned_row<V: ToyVersion + Verifies<V::Toy>>(
    rt: &impl Abort,
    alloc: Global,
    kind: Kind,
    ring: &OwnedPublicKeyRing<V>,
    row: Row,
) {
    let token = token_of(rt, alloc, kind, row.payload);
    let parser = parser_of::<V, Public>(rt, alloc, row);
    let answer = ring.parse(&V::toy(), &parser, token.as_str());
    expect_claims(rt, alloc, answer, row.told);
}

// A ring that owns its keys answers what one with lent keys does.
fn check_owned<V: ToyVersion + Verifies<V::Toy>>(rt: &impl Abort, alloc: Global, kind: Kind) {
    let ring = owned_ring::<V>(rt, alloc);
    'rows: for &row in ROWS {
        check_owned_row::<V>(rt, alloc, kind, &ring, row);
    }
    let token = token_of(rt, alloc, kind, CLAIMS);
    let generic = GenericParser::<V, Public>::new(alloc);
    let answer = ring.parse_by(&V::toy(), &generic, token.as_str());
    expect_claims(rt, alloc, answer, PARSED);
    drop(ring);
}

#[test]
fn owned_keys_verify(rt: HostRuntime) {
    check_owned::<V1>(&rt, rt.alloc(), Kind::V1Public);
    check_owned::<V2>(&rt, rt.alloc(), Kind::V2Public);
    check_owned::<V3>(&rt, rt.alloc(), Kind::V3Public);
    check_owned::<V4>(&rt, rt.alloc(), Kind::V4Public);
}

#[test]
fn claims_of_public_tokens_are_checked(rt: HostRuntime) {
    check_version::<V1>(&rt, rt.alloc(), Kind::V1Public);
    check_version::<V2>(&rt, rt.alloc(), Kind::V2Public);
    check_version::<V3>(&rt, rt.alloc(), Kind::V3Public);
    check_version::<V4>(&rt, rt.alloc(), Kind::V4Public);
}

/// What a ring of public keys answers, of version 1.
pub(crate) fn ask_version_1(rt: &impl Abort, alloc: Global, question: Question<'_>) -> Opened {
    let (first, second) = (Keys::of(&SECRET), Keys::of(&OTHER_SECRET));
    let mut ring = ring_of::<V1>(rt, alloc, &first, &second);
    change_second(rt, &mut ring, &first, question);
    let answer = ring.verify(&V1::toy(), question.token);
    drop(ring);
    answer
}

/// The same of version 2.
pub(crate) fn ask_version_2(rt: &impl Abort, alloc: Global, question: Question<'_>) -> Opened {
    let (first, second) = (Keys::of(&SECRET), Keys::of(&OTHER_SECRET));
    let mut ring = ring_of::<V2>(rt, alloc, &first, &second);
    change_second(rt, &mut ring, &first, question);
    let answer = ring.verify(&V2::toy(), question.token);
    drop(ring);
    answer
}

/// The same of a version with implicit assertions.
pub(crate) fn ask_asserting<V: ToyVersion + DefaultAssertionVersion + Verifies<V::Toy>>(
    rt: &impl Abort,
    alloc: Global,
    question: Question<'_>,
) -> Opened {
    let (first, second) = (Keys::of(&SECRET), Keys::of(&OTHER_SECRET));
    let mut ring = ring_of::<V>(rt, alloc, &first, &second);
    change_second(rt, &mut ring, &first, question);
    let assertion = Binding::of_assertion(question.assertion).assertion();
    let answer = ring.verify(&V::toy(), question.token, assertion);
    drop(ring);
    answer
}

// Gives `k2` the key of `k1`, where the question is about that.
fn change_second<'a, V: ToyVersion>(
    rt: &impl Abort,
    ring: &mut PublicKeyRing<'a, V>,
    first: &'a Keys,
    question: Question<'_>,
) {
    if question.is_second_changed {
        let key = V::public_key(first).expect(rt, "a key");
        put_key(rt, ring, "k2", key);
    }
}

/// What a ring of version 2 answers by the toy box.
pub(crate) fn ask_box(rt: &impl Abort, alloc: Global, question: Question<'_>) -> Opened {
    let mut ring = boxed_ring(rt, alloc);
    if question.is_second_changed {
        put_key(rt, &mut ring, "k2", symmetric_key(&SECRET));
    }
    let answer = ring.open(&ToyBox, question.token);
    drop(ring);
    answer
}

// A ring of version 2 with the first secret's key as `k1`, and the second's as `k2`.
fn boxed_ring(rt: &impl Abort, alloc: Global) -> KeyRing<V2> {
    let mut ring = KeyRing::<V2>::new(alloc);
    put_key(rt, &mut ring, "k1", symmetric_key(&SECRET));
    put_key(rt, &mut ring, "k2", symmetric_key(&OTHER_SECRET));
    ring
}

fn check_boxed_row(rt: &impl Abort, alloc: Global, ring: &KeyRing<V2>, row: Row) {
    let token = token_of(rt, alloc, Kind::V2Local, row.payload);
    let parser = parser_of::<V2, Local>(rt, alloc, row);
    let answer = ring.parse(&ToyBox, &parser, token.as_str());
    expect_claims(rt, alloc, answer, row.told);
}

#[test]
fn claims_of_boxed_tokens_are_checked(rt: HostRuntime) {
    let (alloc, kind) = (rt.alloc(), Kind::V2Local);
    let ring = boxed_ring(&rt, alloc);
    'rows: for &row in ROWS {
        check_boxed_row(&rt, alloc, &ring, row);
    }
    let token = token_of(&rt, alloc, kind, CLAIMS);
    let generic = GenericParser::<V2, Local>::new(alloc);
    let answer = ring.parse_by(&ToyBox, &generic, token.as_str());
    expect_claims(&rt, alloc, answer, PARSED);
    drop(ring);
}
