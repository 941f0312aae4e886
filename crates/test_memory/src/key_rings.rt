//! The calls of key rings.

use crate::kinds::{Signed, symmetric_key};
use crate::parsers::{good, now};
use crate::run::{Run, Snapshot, calls, edits, shown};
use crate::tokens::{seal, seal_boxed, sign};
use anyhow::Result;
use rusty_paseto::prelude::*;
use rusty_paseto::{footer_of, key_id};
use std::alloc::Global;
use test_toys::keys::{Keys, SECRET, ToyVersion};
use test_toys::{Lenient, PlainBox};

/// Names the key whose id is `new`.
const NEW: &str = "{\"kid\":\"new\"}";

/// Names the key whose id is `old`.
const OLD: &str = "{\"kid\":\"old\"}";

/// A ring is known by what it answers for a token of each id.
impl<V: DefaultLocalVersion> Snapshot for KeyRing<V> {
    fn snapshot(&self, alloc: Global) -> Result<String> {
        let (new, old) = (parsed(self, alloc, NEW)?, parsed(self, alloc, OLD)?);
        Ok(format!(in alloc; "{new} {old}")?)
    }
}

// What a ring answers for a token whose footer names an id.
fn parsed<V: DefaultLocalVersion>(ring: &KeyRing<V>, alloc: Global, id: &str) -> Result<String> {
    let token = seal::<V>(alloc, "{}", Footer::from(id))?;
    let parser = GenericParser::<V, Local>::new(alloc);
    shown(alloc, ring.parse_by(&parser, token.as_str()))
}

/// Asks them.
pub fn ask(run: &mut Run<'_>) -> Result<()> {
    ask_local::<V1, _>(run, "v1.local", |ring, token| ring.open(token))?;
    ask_local::<V3, _>(run, "v3.local", |ring, token| ring.open(token, None))?;
    ask_local::<V4, _>(run, "v4.local", |ring, token| ring.open(token, None))?;
    ask_boxed(run)?;
    ask_id(run)?;
    ask_publics(run)
}

// A ring takes an id of the text, and finds its key by a footer that names it.
fn ask_id(run: &mut Run<'_>) -> Result<()> {
    let (alloc, text) = (run.alloc, run.text);
    let footer = key_footer(alloc, text)?;
    let section = to_section(alloc, text.as_bytes())?;
    let token = format!(in alloc; "v4.local.AAAA.{section}")?;
    calls! { run;
        "key_footer of an id" => key_footer(alloc, text);
        "footer_of of a token" => footer_of(alloc, token.as_str());
        "key_id of a footer" => key_id(alloc, NEW);
        "Ring::add of v4.local, an id of the text" => key_by(alloc, text, footer.as_str());
    }
}

fn key_by(alloc: Global, id: &str, footer: &str) -> Result<[u8; 32], KeyRingError> {
    let mut ring = KeyRing::<V4>::new(alloc);
    ring.add(id, symmetric_key())?;
    ring.key_of(footer).map(|key| *key.as_bytes())
}

fn ask_publics(run: &mut Run<'_>) -> Result<()> {
    let keys = Keys::of(&SECRET);
    ask_verifying(run, &keys)?;
    ask_bound(run, &keys)?;
    ask_public::<V1>(run, "v1.public", &keys)?;
    ask_public::<V2>(run, "v2.public", &keys)?;
    ask_public::<V3>(run, "v3.public", &keys)?;
    ask_public::<V4>(run, "v4.public", &keys)
}

// A ring of twelve keys, none of which is the one that tokens are sealed under.
fn ring_of<V: DefaultLocalVersion>(alloc: Global) -> Result<KeyRing<V>> {
    let mut ring = KeyRing::new(alloc);
    'ids: for number in 0..11u64 {
        let id = format!(in alloc; "{number}")?;
        ring.add(id.as_str(), other_key())?;
    }
    ring.add("old", other_key())?;
    Ok(ring)
}

// The same with the tokens' key.
fn full_ring<V: DefaultLocalVersion>(alloc: Global) -> Result<KeyRing<V>> {
    let mut ring = ring_of(alloc)?;
    ring.add("new", symmetric_key())?;
    Ok(ring)
}

fn other_key<V: DefaultLocalVersion>() -> PasetoSymmetricKey<V, Local> {
    PasetoSymmetricKey::from(Key::<32>::from([8; 32]))
}

// Asks the rings of a version, which open a token with no implicit assertion so.
fn ask_local<V: DefaultLocalVersion, F>(run: &mut Run<'_>, kind: &str, opened: F) -> Result<()>
where
    F: Copy + FnOnce(&KeyRing<V>, &str) -> Result<(String, String), KeyRingError>,
    requires { F.IsAlwaysCallable opened }
{
    let (alloc, key) = (run.alloc, symmetric_key::<V>());
    edits!(run, kind, "Ring::", ring = ring_of::<V>(alloc);
        "add of {}, a new id" => ring.add("new", key.clone());
        "add of {}, an id that is there" => ring.add("old", key.clone());
    )?;
    let token = seal::<V>(alloc, run.text, Footer::from(NEW))?;
    let (ring, other) = (full_ring::<V>(alloc)?, ring_of::<V>(alloc)?);
    calls!(run, kind;
        "Ring::open of {}" => opened(&ring, token.as_str());
        "Ring::open of {}, an id that is not there, refused" => opened(&other, token.as_str());
        "Ring::key_of of {}" => ring.key_of(NEW).map(|key| *key.as_bytes());
    )?;
    ask_parsing::<V>(run, kind)
}

fn ask_parsing<V: DefaultLocalVersion>(run: &mut Run<'_>, kind: &str) -> Result<()> {
    let alloc = run.alloc;
    let token = seal::<V>(alloc, good(alloc, run.text)?.as_str(), Footer::from(NEW))?;
    let ring = full_ring::<V>(alloc)?;
    let parser = PasetoParser::<V, Local>::default(alloc, now()?)?;
    let generic = GenericParser::<V, Local>::new(alloc);
    calls! { run, kind;
        "Ring::parse of {}" => ring.parse(&parser, token.as_str());
        "Ring::parse_by of {}" => ring.parse_by(&generic, token.as_str());
    }
}

fn ask_boxed(run: &mut Run<'_>) -> Result<()> {
    let alloc = run.alloc;
    let token = seal_boxed(alloc, good(alloc, run.text)?.as_str(), Footer::from(NEW))?;
    let mut ring = KeyRing::<V2>::new(alloc);
    ring.add("new", symmetric_key())?;
    let parser = PasetoParser::<V2, Local>::default(alloc, now()?)?;
    let generic = GenericParser::<V2, Local>::new(alloc);
    calls! { run;
        "Ring::open of v2.local" => ring.open(&PlainBox, token.as_str());
        "Ring::parse of v2.local" => ring.parse(&PlainBox, &parser, token.as_str());
        "Ring::parse_by of v2.local" => ring.parse_by(&PlainBox, &generic, token.as_str());
    }
}

// A ring with the key that verifies.
fn ring_of_public<'a, V: Signed>(alloc: Global, keys: &'a Keys) -> Result<PublicKeyRing<'a, V>> {
    let mut ring = PublicKeyRing::<V>::new(alloc);
    ring.add("new", V::public_key(keys)?)?;
    Ok(ring)
}

// A token that the ring's key verifies.
fn signed<V: Signed>(run: &Run<'_>) -> Result<String> {
    let payload = good(run.alloc, run.text)?;
    Ok(sign::<V>(run.alloc, payload.as_str(), Footer::from(NEW))?)
}

fn ask_verifying(run: &mut Run<'_>, keys: &Keys) -> Result<()> {
    let (first, first_ring) = (signed::<V1>(run)?, ring_of_public::<V1>(run.alloc, keys)?);
    let (second, second_ring) = (signed::<V2>(run)?, ring_of_public::<V2>(run.alloc, keys)?);
    calls! { run;
        "Ring::verify of v1.public" => first_ring.verify(&Lenient, first.as_str());
        "Ring::verify of v2.public" => second_ring.verify(&Lenient, second.as_str());
    }
}

fn ask_bound(run: &mut Run<'_>, keys: &Keys) -> Result<()> {
    let (third, third_ring) = (signed::<V3>(run)?, ring_of_public::<V3>(run.alloc, keys)?);
    let (fourth, fourth_ring) = (signed::<V4>(run)?, ring_of_public::<V4>(run.alloc, keys)?);
    calls! { run;
        "Ring::verify of v3.public" => third_ring.verify(&Lenient, third.as_str(), None);
        "Ring::verify of v4.public" => fourth_ring.verify(&Lenient, fourth.as_str(), None);
    }
}

fn ask_public<V: Signed>(run: &mut Run<'_>, kind: &str, keys: &Keys) -> Result<()> {
    let (ring, token) = (ring_of_public::<V>(run.alloc, keys)?, signed::<V>(run)?);
    let parser = PasetoParser::<V, Public>::default(run.alloc, now()?)?;
    let generic = GenericParser::<V, Public>::new(run.alloc);
    calls! { run, kind;
        "Ring::parse of {}" => ring.parse(&Lenient, &parser, token.as_str());
        "Ring::parse_by of {}" => ring.parse_by(&Lenient, &generic, token.as_str());
    }
}
