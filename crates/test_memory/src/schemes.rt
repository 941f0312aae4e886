//! The calls of the box of version 2 and of the schemes, and of the validators that stand ready.

use crate::rsa_key::{PRIVATE, PUBLIC};
use crate::run::{Run, calls};
use anyhow::{Context, Result};
use paseto_ed25519::{Ed25519, Ed25519Signer};
use paseto_p384::P384;
use paseto_rsa::RsaPss;
use paseto_xchacha20poly1305::XChaCha20Poly1305;
use rusty_paseto::prelude::*;
use rusty_paseto::validators::*;
use serde_json::Value;
use std::alloc::Global;
use test_toys::generators::{Counting, Zeros};

/// Asks them.
pub fn ask(run: &mut Run<'_>) -> Result<()> {
    ask_box(run)?;
    ask_ed25519(run)?;
    ask_p384(run)?;
    ask_rsa(run)?;
    ask_validators(run)
}

fn ask_box(run: &mut Run<'_>) -> Result<()> {
    let (alloc, text) = (run.alloc, run.text.as_bytes());
    let (key, nonce) = ([7u8; 32], [1u8; 24]);
    let boxed = XChaCha20Poly1305.seal(alloc, &key, &nonce, b"data", text)?;
    let boxed = boxed.context("there is no box")?;
    // The box under other data has another tag.
    calls! { run;
        "SealedBox::seal of XChaCha20Poly1305" => XChaCha20Poly1305.seal(alloc, &key, &nonce, b"data", text);
        "SealedBox::open of XChaCha20Poly1305"
            => XChaCha20Poly1305.open(alloc, &key, &nonce, b"data", &boxed);
        "SealedBox::open of XChaCha20Poly1305 that has another tag, with no memory"
            => XChaCha20Poly1305.open(alloc, &key, &nonce, b"other data", &boxed);
    }
}

// The private half of a key pair.
fn private_half<const N: usize, const M: usize>(pair: (Key<N>, Key<M>)) -> [u8; N] {
    *pair.0.as_bytes()
}

// The front of the private key of a pair.
fn private_front<V: VersionTrait>(pair: KeyPair<V>) -> Option<[u8; 48]> {
    pair.private().as_bytes().first_chunk::<48>().copied()
}

// A pair of version 4.
fn pair_of_v4(alloc: Global) -> Result<KeyPair<V4>, PasetoError> {
    Ed25519::try_new_pair(alloc, &mut Zeros)
}

// That there is a signer.
fn let_go(_signer: Ed25519Signer) {}

// A signature under a key that is asked once.
fn signed(alloc: Global, private: &Key<64>, text: &[u8]) -> Result<[u8; 64], PasetoError> {
    Ed25519::with_key(private)?.sign(alloc, private.as_bytes(), text)
}

fn ask_ed25519(run: &mut Run<'_>) -> Result<()> {
    let (alloc, text) = (run.alloc, run.text.as_bytes());
    let (private, public) = Ed25519::key_pair(&mut Zeros)?;
    let signature = Ed25519.sign(alloc, private.as_bytes(), text)?;
    let signer = Ed25519::with_key(&private)?;
    calls! { run;
        "Ed25519::key_pair of a generator, with no memory" => Ed25519::key_pair(&mut Zeros).map(private_half);
        "Ed25519::try_new_pair of a generator" => pair_of_v4(alloc).map(private_front);
        "Ed25519::with_key of a private key, with no memory" => Ed25519::with_key(&private).map(let_go);
        "SignatureScheme::sign of Ed25519, with no memory" => Ed25519.sign(alloc, private.as_bytes(), text);
        "SignatureScheme::verify of Ed25519, with no memory"
            => Ed25519.verify(alloc, public.as_bytes(), text, &signature);
        "SignatureScheme::sign of Ed25519Signer, with no memory"
            => signed(alloc, &private, text);
        "SignatureScheme::verify of Ed25519Signer, with no memory"
            => signer.verify(alloc, public.as_bytes(), text, &signature);
    }
}

fn ask_p384(run: &mut Run<'_>) -> Result<()> {
    let (alloc, text) = (run.alloc, run.text.as_bytes());
    let private = [7u8; 48];
    let public = P384.public_key(alloc, &private)?;
    let signature = P384.sign(alloc, &private, text)?;
    calls! { run;
        "P384::key_pair of a generator, with no memory"
            => P384::key_pair(&mut Counting::new()).map(private_half);
        "P384::try_new_pair of a generator"
            => P384::try_new_pair(alloc, &mut Counting::new()).map(private_front);
        "CompressedKey::public_key of P384, with no memory" => P384.public_key(alloc, &private);
        "SignatureScheme::sign of P384, with no memory" => P384.sign(alloc, &private, text);
        "SignatureScheme::verify of P384, with no memory" => P384.verify(alloc, &public, text, &signature);
    }
}

fn ask_rsa(run: &mut Run<'_>) -> Result<()> {
    let (alloc, text) = (run.alloc, run.text.as_bytes());
    let (private, public) = (from_section(alloc, PRIVATE)?, from_section(alloc, PUBLIC)?);
    let signature = RsaPss::new(Zeros).sign(alloc, &private, text)?;
    calls! { run;
        "SignatureScheme::sign of RsaPss, with no memory" => RsaPss::new(Zeros).sign(alloc, &private, text);
        "SignatureScheme::verify of RsaPss, with no memory"
            => RsaPss::new(Zeros).verify(alloc, &public, text, &signature);
    }
}

fn ask_validators(run: &mut Run<'_>) -> Result<()> {
    let (alloc, key, value) = (run.alloc, "seats", &Value::Null);
    let one_of = OneOf::new(alloc, &["a", "b"])?;
    let begins_with = BeginsWith(String::from_str(alloc, run.text)?);
    let holding = Holding(String::from_str(alloc, run.text)?);
    calls! { run;
        "Validator::validate of Present, refused" => Present.validate(alloc, key, value);
        "Validator::validate of AtMost, refused" => AtMost(8).validate(alloc, key, value);
        "Validator::validate of AtLeast, refused" => AtLeast(8).validate(alloc, key, value);
        "Validator::validate of Within, refused" => Within { least: 0, most: 8 }.validate(alloc, key, value);
        "Validator::validate of OneOf, refused" => one_of.validate(alloc, key, value);
        "Validator::validate of AtMostCharacters, refused" => AtMostCharacters(8).validate(alloc, key, value);
        "Validator::validate of BeginsWith, refused" => begins_with.validate(alloc, key, value);
        "Validator::validate of Holding, refused" => holding.validate(alloc, key, value);
    }
}
