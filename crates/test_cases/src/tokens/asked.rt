//! What is asked of a box or a scheme where the framing of a token has no fault: each call once.

ghost use Rattle.std.specs.Prelude.{⊤, replicate};

use super::faults::token_of_zeros;
use super::refusals::LETTERS;
use crate::expect::{expect_outcome, expect_same};
use crate::kinds::{Binding, Kind, OTHER_SECRET, SECRET};
use rusty_paseto_core::{
    CompressedKey, PasetoError, Payload, SignatureScheme, Signs, V1, V2, V3, V4,
};
use std::alloc::Global;
use std::process::Abort;
use test_toys::counting::{Call, Calls, Counting};
use test_toys::keys::{Keys, ToyVersion};
use test_toys::long;

const FOOTER: Binding<'static> = Binding {
    footer: Some("footer"),
    assertion: None,
};

// A footer and an implicit assertion, each without the other, both and neither.
const BINDINGS: &[Binding<'static>] = &[
    FOOTER,
    Binding {
        footer: None,
        assertion: Some("assertion"),
    },
    Binding {
        footer: Some("footer"),
        assertion: Some("assertion"),
    },
    Binding::NONE,
];

// The kinds that ask a box or a scheme.
const ASKING_KINDS: &[Kind] = &[
    Kind::V2Local,
    Kind::V1Public,
    Kind::V2Public,
    Kind::V3Public,
    Kind::V4Public,
];

// What is asked to make a token. In version 3 the public key is asked for before the signature.
fn asked_to_make(kind: Kind) -> Calls {
    match kind {
        Kind::V2Local => Calls::once(Call::Seal),
        Kind::V3Public => Calls::twice(Call::PublicKey, Call::Sign),
        Kind::V1Public | Kind::V2Public | Kind::V4Public => Calls::once(Call::Sign),
        _ => Calls::NONE,
    }
}

// What is asked to read a token.
fn asked_to_read(kind: Kind) -> Calls {
    match kind {
        Kind::V1Local | Kind::V3Local | Kind::V4Local => Calls::NONE,
        Kind::V2Local => Calls::once(Call::Open),
        _ => Calls::once(Call::Verify),
    }
}

// A token of each kind is made and read under the binding.
fn check_binding(rt: &impl Abort, alloc: Global, binding: Binding<'_>) {
    'kinds: for &kind in ASKING_KINDS {
        let (made, calls) = kind.make_counted(alloc, &SECRET, "hello", binding);
        let token = made.expect(rt, "a token");
        expect_same(rt, &calls, &asked_to_make(kind), &kind);
        let (read, calls) = kind.read_counted(alloc, &SECRET, token.as_str(), binding);
        expect_same(rt, read.expect(rt, "a text").as_str(), "hello", &kind);
        expect_same(rt, &calls, &asked_to_read(kind), &kind);
    }
}

#[test]
fn made_and_read(rt: HostRuntime) {
    'bindings: for &binding in BINDINGS {
        check_binding(&rt, rt.alloc(), binding);
    }
}

// The toy box has no sealing of 4,097 bytes.
#[test]
fn no_sealing(rt: HostRuntime) {
    let text = long::text_of(rt.alloc(), 4_097).expect(&rt, "memory");
    let (made, calls) = Kind::V2Local.make_counted(rt.alloc(), &SECRET, text.as_str(), FOOTER);
    expect_outcome(&rt, rt.alloc(), made, "ChaChaCipherError", "the box");
    expect_same(&rt, &calls, &Calls::once(Call::Seal), "what was asked");
}

/// A scheme that signs everything by zeros, and holds everything valid.
#[derive(Drop)]
struct Blank;

impl<const SIG: usize> SignatureScheme<SIG> for Blank {
    ghost valid = { λ public message signature. ⊤ };

    ghost partner = { λ private. replicate 49 2 };

    ghost refused = { λ public message signature error. ⊥ };

    ghost declined = { λ private message error. ⊥ };

    fn sign(
        &mut self,
        _alloc: Global,
        _private: &[u8],
        _message: &[u8],
    ) -> Result<[u8; SIG], PasetoError> {
        Ok([0; SIG])
    }

    fn verify(
        &self,
        _alloc: Global,
        _public: &[u8],
        _message: &[u8],
        _signature: &[u8; SIG],
    ) -> Result<(), PasetoError> {
        Ok(())
    }
}

impl CompressedKey for Blank {
    fn public_key(&self, _alloc: Global, _private: &[u8]) -> Result<[u8; 49], PasetoError> {
        Ok([2; 49])
    }
}

// What is asked to sign by zeros.
fn asked_of_blank<V>(rt: &impl Abort, alloc: Global) -> Calls
where
    V: ToyVersion + Signs<Counting<Blank>>,
{
    let keys = Keys::of(&SECRET);
    let mut scheme = Counting::new(Blank);
    let key = V::private_key(&keys);
    let made = V::sign(alloc, &mut scheme, &key, Payload::from("hello"), None, None);
    expect_outcome(rt, alloc, made, "Ok", "the scheme");
    scheme.calls()
}

#[test]
fn signatures_of_zeros(rt: HostRuntime) {
    expect_same(
        &rt,
        &asked_of_blank::<V1>(&rt, rt.alloc()),
        &asked_to_make(Kind::V1Public),
        "the answer",
    );
    expect_same(
        &rt,
        &asked_of_blank::<V2>(&rt, rt.alloc()),
        &asked_to_make(Kind::V2Public),
        "the answer",
    );
    expect_same(
        &rt,
        &asked_of_blank::<V3>(&rt, rt.alloc()),
        &asked_to_make(Kind::V3Public),
        "the answer",
    );
    expect_same(
        &rt,
        &asked_of_blank::<V4>(&rt, rt.alloc()),
        &asked_to_make(Kind::V4Public),
        "the answer",
    );
}

// A token under another key is looked at once too.
#[test]
fn refused(rt: HostRuntime) {
    'kinds: for &kind in ASKING_KINDS {
        let token = kind.token(&rt, rt.alloc(), "hello", FOOTER);
        let (answer, calls) = kind.read_counted(rt.alloc(), &OTHER_SECRET, token.as_str(), FOOTER);
        expect_outcome(&rt, rt.alloc(), answer, kind.refusal(), kind);
        expect_same(&rt, &calls, &asked_to_read(kind), &kind);
    }
}

// The shortest payload that is looked at.
#[test]
fn shortest_payloads(rt: HostRuntime) {
    'kinds: for &(kind, letters) in LETTERS {
        let token = token_of_zeros(&rt, rt.alloc(), kind, letters);
        let (answer, calls) = kind.read_counted(rt.alloc(), &SECRET, token.as_str(), Binding::NONE);
        expect_outcome(&rt, rt.alloc(), answer, kind.refusal(), kind);
        expect_same(&rt, &calls, &asked_to_read(kind), &kind);
    }
}
