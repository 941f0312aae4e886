//! The calls of `Paseto`, which make the same tokens and read the same texts as those of the versions'
//! traits.

use crate::expect::{expect_outcome, expect_same};
use crate::kinds::{ASSERTED_KINDS, Binding, KINDS, Kind, SECRET, symmetric_key};
use rusty_paseto_core::{
    AssertionVersion, Footer, ImplicitAssertion, Key, Local, LocalVersion, Paseto, PasetoError,
    PasetoNonce, Payload, Public, PurposeTrait, Signs, V1, V2, V3, V4, Verifies, VersionTrait,
};
use std::alloc::Global;
use std::process::Abort;
use test_toys::keys::{Keys, ToyVersion};
use test_toys::{ToyBox, ToyV1, ToyV2};

type Answer = Result<String, PasetoError>;

fn footer() -> Option<Footer<'static>> {
    Some(Footer::from("footer"))
}

// How a token is made: by `default`, of the text `hello` with a footer, or with an implicit assertion too, where the
// version has one.
#[derive(Clone, Copy)]
enum Form {
    Default,
    Footer,
    Asserted,
}

// What a token is made of, with no implicit assertion.
fn bare<V: VersionTrait, P: PurposeTrait>(form: Form) -> Paseto<'static, V, P> {
    match form {
        Form::Default => Paseto::default(),
        Form::Footer | Form::Asserted => {
            let mut paseto = Paseto::<V, P>::builder();
            paseto
                .set_payload(Payload::from("hello"))
                .set_footer(Footer::from("footer"));
            paseto
        }
    }
}

// What a token is made of, in a version with implicit assertions.
fn asserted<V: AssertionVersion, P: PurposeTrait>(form: Form) -> Paseto<'static, V, P> {
    let mut paseto = bare::<V, P>(form);
    if let Form::Asserted = form {
        paseto.set_implicit_assertion(ImplicitAssertion::from("assertion"));
    }
    paseto
}

fn encrypt<V: LocalVersion>(alloc: Global, paseto: &Paseto<'_, V, Local>) -> Answer {
    let nonce = Key::from([0u8; 32]);
    paseto.try_encrypt(alloc, &symmetric_key(&SECRET), &PasetoNonce::from(&nonce))
}

fn encrypt_boxed(alloc: Global, paseto: &Paseto<'_, V2, Local>) -> Answer {
    let nonce = Key::from([0u8; 32]);
    let key = symmetric_key(&SECRET);
    paseto.try_encrypt(alloc, &ToyBox, &key, &PasetoNonce::from(&nonce))
}

fn sign<V: ToyVersion + Signs<V::Toy>>(alloc: Global, paseto: &Paseto<'_, V, Public>) -> Answer {
    let keys = Keys::of(&SECRET);
    paseto.try_sign(alloc, &mut V::toy(), &V::private_key(&keys))
}

// The token that is made so.
fn make(alloc: Global, kind: Kind, form: Form) -> Answer {
    match kind {
        Kind::V1Local => encrypt::<V1>(alloc, &bare(form)),
        Kind::V2Local => encrypt_boxed(alloc, &bare(form)),
        Kind::V3Local => encrypt::<V3>(alloc, &asserted(form)),
        Kind::V4Local => encrypt::<V4>(alloc, &asserted(form)),
        Kind::V1Public => sign::<V1>(alloc, &bare(form)),
        Kind::V2Public => sign::<V2>(alloc, &bare(form)),
        Kind::V3Public => sign::<V3>(alloc, &asserted(form)),
        Kind::V4Public => sign::<V4>(alloc, &asserted(form)),
    }
}

fn decrypt_v1(alloc: Global, token: &str) -> Answer {
    Paseto::<V1, Local>::try_decrypt(alloc, token, &symmetric_key(&SECRET), footer())
}

fn decrypt_v2(alloc: Global, token: &str) -> Answer {
    let key = symmetric_key(&SECRET);
    Paseto::<V2, Local>::try_decrypt(alloc, &ToyBox, token, &key, footer())
}

fn decrypt<V: AssertionVersion>(
    alloc: Global,
    token: &str,
    assertion: Option<ImplicitAssertion<'_>>,
) -> Answer {
    Paseto::<V, Local>::try_decrypt(alloc, token, &symmetric_key(&SECRET), footer(), assertion)
}

fn verify_v1(rt: &impl Abort, alloc: Global, token: &str) -> Answer {
    let keys = Keys::of(&SECRET);
    let key = V1::public_key(&keys).expect(rt, "a key");
    Paseto::<V1, Public>::try_verify(alloc, &ToyV1, token, &key, footer())
}

fn verify_v2(rt: &impl Abort, alloc: Global, token: &str) -> Answer {
    let keys = Keys::of(&SECRET);
    let key = V2::public_key(&keys).expect(rt, "a key");
    Paseto::<V2, Public>::try_verify(alloc, &ToyV2, token, &key, footer())
}

fn verify<V: AssertionVersion + ToyVersion + Verifies<V::Toy>>(
    rt: &impl Abort,
    alloc: Global,
    token: &str,
    assertion: Option<ImplicitAssertion<'_>>,
) -> Answer {
    let keys = Keys::of(&SECRET);
    let key = V::public_key(&keys).expect(rt, "a key");
    Paseto::<V, Public>::try_verify(alloc, &V::toy(), token, &key, footer(), assertion)
}

// What a token with a footer is read as.
fn read(
    rt: &impl Abort,
    alloc: Global,
    kind: Kind,
    token: &str,
    assertion: Option<ImplicitAssertion<'_>>,
) -> Answer {
    match kind {
        Kind::V1Local => decrypt_v1(alloc, token),
        Kind::V2Local => decrypt_v2(alloc, token),
        Kind::V3Local => decrypt::<V3>(alloc, token, assertion),
        Kind::V4Local => decrypt::<V4>(alloc, token, assertion),
        Kind::V1Public => verify_v1(rt, alloc, token),
        Kind::V2Public => verify_v2(rt, alloc, token),
        Kind::V3Public => verify::<V3>(rt, alloc, token, assertion),
        Kind::V4Public => verify::<V4>(rt, alloc, token, assertion),
    }
}

// The call's token is the one of the traits, and is read as its text.
fn check(rt: &impl Abort, alloc: Global, kind: Kind, token: &str, binding: Binding<'_>) {
    let same = kind.token(rt, alloc, "hello", binding);
    expect_same(rt, token, same.as_str(), &kind);
    let text = read(rt, alloc, kind, token, binding.assertion()).expect(rt, "a text");
    expect_same(rt, text.as_str(), "hello", &kind);
}

#[test]
fn a_text_with_a_footer(rt: HostRuntime) {
    let binding = Binding::of_footer(Some("footer"));
    'kinds: for &kind in KINDS {
        let token = make(rt.alloc(), kind, Form::Footer).expect(&rt, "a token");
        check(&rt, rt.alloc(), kind, token.as_str(), binding);
    }
}

#[test]
fn a_text_with_a_footer_and_an_assertion(rt: HostRuntime) {
    let binding = Binding {
        footer: Some("footer"),
        assertion: Some("assertion"),
    };
    'kinds: for &kind in ASSERTED_KINDS {
        let token = make(rt.alloc(), kind, Form::Asserted).expect(&rt, "a token");
        check(&rt, rt.alloc(), kind, token.as_str(), binding);
        let answer = read(&rt, rt.alloc(), kind, token.as_str(), None);
        expect_outcome(&rt, rt.alloc(), answer, kind.refusal(), kind);
    }
}

#[test]
fn made_by_default(rt: HostRuntime) {
    'kinds: for &kind in KINDS {
        let token = make(rt.alloc(), kind, Form::Default).expect(&rt, "a token");
        let same = kind.token(&rt, rt.alloc(), "", Binding::NONE);
        expect_same(&rt, token.as_str(), same.as_str(), &kind);
    }
}
