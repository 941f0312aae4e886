//! The calls of local and of public tokens.

use crate::kinds::{Cases, Signed, ask_kinds, footer, symmetric_key};
use crate::run::{Run, calls};
use anyhow::Result;
use rusty_paseto::prelude::*;
use std::alloc::Global;
use test_toys::keys::{Keys, SECRET, ToyVersion};
use test_toys::{Lenient, PlainBox};

/// A token, or what one is read as.
type Answer = Result<String, PasetoError>;

/// Asks them.
pub fn ask(run: &mut Run<'_>) -> Result<()> {
    ask_kinds::<Kinds>(run)?;
    ask_verifying(run)?;
    ask_bound(run)
}

/// The local token of a text.
pub fn seal<V: LocalVersion>(alloc: Global, text: &str, footer: Footer<'_>) -> Answer {
    let nonce = Key::<32>::from([0; 32]);
    let (key, nonce) = (symmetric_key(), PasetoNonce::from(&nonce));
    V::seal(alloc, &key, &nonce, Payload::from(text), Some(footer), None)
}

/// The same of version 2, over a box.
pub fn seal_boxed(alloc: Global, text: &str, footer: Footer<'_>) -> Answer {
    let nonce = Key::<32>::from([0; 32]);
    let (key, nonce) = (symmetric_key(), PasetoNonce::from(&nonce));
    let mut paseto = token_of::<V2, Local>(text);
    paseto.set_footer(footer);
    paseto.try_encrypt(alloc, &PlainBox, &key, &nonce)
}

/// The public token of a text.
pub fn sign<V: Signed>(alloc: Global, text: &str, footer: Footer<'_>) -> Answer {
    let keys = Keys::of(&SECRET);
    let (key, text) = (V::private_key(&keys), Payload::from(text));
    V::sign(alloc, &mut Lenient, &key, text, Some(footer), None)
}

fn token_of<V: VersionTrait, P: PurposeTrait>(text: &str) -> Paseto<'_, V, P> {
    let mut paseto = Paseto::<V, P>::builder();
    paseto.set_payload(Payload::from(text)).set_footer(footer());
    paseto
}

struct Kinds;

impl Cases for Kinds {
    fn ask_local<V: DefaultLocalVersion>(run: &mut Run<'_>, kind: &str) -> Result<()> {
        let (alloc, text, key) = (run.alloc, run.text, symmetric_key::<V>());
        let bytes = Key::<32>::from([0; 32]);
        let (paseto, nonce) = (token_of::<V, Local>(text), PasetoNonce::from(&bytes));
        calls!(run, kind;
            "LocalVersion::seal of {}" => seal::<V>(alloc, text, footer());
            "Paseto::try_encrypt of {}" => paseto.try_encrypt(alloc, &key, &nonce);
        )?;
        ask_opening::<V>(run, kind)
    }

    fn ask_boxed(run: &mut Run<'_>) -> Result<()> {
        let (alloc, text, own) = (run.alloc, run.text, Some(footer()));
        let first = seal::<V1>(alloc, text, footer())?;
        let third = seal::<V3>(alloc, text, footer())?;
        let fourth = seal::<V4>(alloc, text, footer())?;
        let boxed = seal_boxed(alloc, text, footer())?;
        let other = seal_boxed(alloc, "another text", footer())?;
        calls! { run;
            "Paseto::try_decrypt of v1.local"
                => Paseto::<V1, Local>::try_decrypt(alloc, first.as_str(), &symmetric_key(), own);
            "Paseto::try_decrypt of v3.local"
                => Paseto::<V3, Local>::try_decrypt(alloc, third.as_str(), &symmetric_key(), own, None);
            "Paseto::try_decrypt of v4.local"
                => Paseto::<V4, Local>::try_decrypt(alloc, fourth.as_str(), &symmetric_key(), own, None);
            "Paseto::try_encrypt of v2.local" => seal_boxed(alloc, text, footer());
            "Paseto::try_decrypt of v2.local"
                => Paseto::<V2, Local>::try_decrypt(alloc, &PlainBox, boxed.as_str(), &symmetric_key(), own);
            "Paseto::forgery of v2.local"
                => forged_box(alloc, &symmetric_key(), other.as_str(), boxed.as_str());
        }
    }

    fn ask_public<V: Signed>(run: &mut Run<'_>, kind: &str, keys: &Keys) -> Result<()> {
        let (alloc, text) = (run.alloc, run.text);
        let (paseto, key) = (token_of::<V, Public>(text), V::private_key(keys));
        let (token, public) = (sign::<V>(alloc, text, footer())?, V::public_key(keys)?);
        let other = sign::<V>(alloc, "another text", footer())?;
        calls! { run, kind;
            "Signs::sign of {}" => V::sign(alloc, &mut Lenient, &key, Payload::from(text), Some(footer()), None);
            "Paseto::try_sign of {}" => paseto.try_sign(alloc, &mut Lenient, &key);
            "Verifies::verify of {}" => V::verify(alloc, &Lenient, token.as_str(), &public, Some(footer()), None);
            "Paseto::signature_forgery of {}"
                => forged_signature(alloc, &public, other.as_str(), token.as_str());
        }
    }
}

fn ask_opening<V: LocalVersion>(run: &mut Run<'_>, kind: &str) -> Result<()> {
    let (alloc, key, own) = (run.alloc, symmetric_key(), Some(footer()));
    let other = PasetoSymmetricKey::<V, Local>::from(Key::<32>::from([8; 32]));
    let token = seal::<V>(alloc, run.text, footer())?;
    let second = seal::<V>(alloc, "another text", footer())?;
    let (token, second) = (token.as_str(), second.as_str());
    calls! { run, kind;
        "LocalVersion::open of {}" => V::open(alloc, token, &key, own, None);
        "LocalVersion::open of {} under another key, refused" => V::open(alloc, token, &other, own, None);
        "Paseto::tag_collision of {}" => collision(alloc, &key, token, second);
        "Paseto::forgery of {}" => forged_tag(alloc, &key, second, token);
    }
}

fn opening_of<'a, V: VersionTrait>(
    key: &'a PasetoSymmetricKey<V, Local>,
    token: &'a str,
) -> Opening<'a, V> {
    Opening {
        key,
        token,
        footer: Some(footer()),
        assertion: None,
    }
}

// The tag of a token where another one was issued.
fn forged_tag<V: LocalVersion>(
    alloc: Global,
    key: &PasetoSymmetricKey<V, Local>,
    issued: &str,
    token: &str,
) -> Result<Option<Vec<u8>>, PasetoError> {
    let (issued, token) = ([opening_of(key, issued)], opening_of(key, token));
    let found = Paseto::<V, Local>::forgery(alloc, &issued, token)?;
    Ok(found.map(|forgery| forgery.tag))
}

// The same of version 2: the sealing by the box.
fn forged_box(
    alloc: Global,
    key: &PasetoSymmetricKey<V2, Local>,
    issued: &str,
    token: &str,
) -> Result<Option<Vec<u8>>, PasetoError> {
    let (issued, token) = ([opening_of(key, issued)], opening_of(key, token));
    let found = Paseto::<V2, Local>::forgery(alloc, &PlainBox, &issued, token)?;
    Ok(found.map(|forgery| forgery.sealing))
}

fn signed_token(token: &str) -> SignedToken<'_> {
    SignedToken {
        token,
        footer: Some(footer()),
        assertion: None,
    }
}

// The signature of a token where another one was issued.
fn forged_signature<V: Signed>(
    alloc: Global,
    key: &PasetoAsymmetricPublicKey<'_, V, Public>,
    issued: &str,
    token: &str,
) -> Result<Option<Vec<u8>>, PasetoError> {
    let (issued, token) = ([signed_token(issued)], signed_token(token));
    let found = Paseto::<V, Public>::signature_forgery(alloc, &Lenient, key, &issued, token)?;
    Ok(found.map(|forgery| forgery.signature))
}

// What is found among the first token, the second and the first again.
fn collision<'a, V: LocalVersion>(
    alloc: Global,
    key: &'a PasetoSymmetricKey<V, Local>,
    first: &'a str,
    second: &'a str,
) -> Result<Option<Vec<u8>>, PasetoError> {
    let openings = [first, second, first].map(|token| Opening {
        key,
        token,
        footer: Some(footer()),
        assertion: None,
    });
    let found = Paseto::<V, Local>::tag_collision(alloc, &openings)?;
    Ok(found.map(|collision| collision.tag))
}

fn ask_verifying(run: &mut Run<'_>) -> Result<()> {
    let (alloc, text, keys, own) = (run.alloc, run.text, Keys::of(&SECRET), Some(footer()));
    let (first, first_key) = (sign::<V1>(alloc, text, footer())?, V1::public_key(&keys)?);
    let (second, second_key) = (sign::<V2>(alloc, text, footer())?, V2::public_key(&keys)?);
    calls! { run;
        "Paseto::try_verify of v1.public"
            => Paseto::<V1, Public>::try_verify(alloc, &Lenient, first.as_str(), &first_key, own);
        "Paseto::try_verify of v2.public"
            => Paseto::<V2, Public>::try_verify(alloc, &Lenient, second.as_str(), &second_key, own);
    }
}

fn ask_bound(run: &mut Run<'_>) -> Result<()> {
    let (alloc, text, keys, own) = (run.alloc, run.text, Keys::of(&SECRET), Some(footer()));
    let (third, third_key) = (sign::<V3>(alloc, text, footer())?, V3::public_key(&keys)?);
    let (fourth, fourth_key) = (sign::<V4>(alloc, text, footer())?, V4::public_key(&keys)?);
    calls! { run;
        "Paseto::try_verify of v3.public"
            => Paseto::<V3, Public>::try_verify(alloc, &Lenient, third.as_str(), &third_key, own, None);
        "Paseto::try_verify of v4.public"
            => Paseto::<V4, Public>::try_verify(alloc, &Lenient, fourth.as_str(), &fourth_key, own, None);
    }
}
