//! The calls that take no memory. `tests/memory.sh` counts that they make no request for any: the name of
//! each case ends in `with no memory`.

use crate::claims::{DATE, tree};
use crate::kinds::bytes_of;
use crate::parsers::now;
use crate::run::{Run, Snapshot, calls, edits, put, shown};
use crate::{builders, defaults, parsers, primitives};
use anyhow::Result;
use rusty_paseto::prelude::*;
use rusty_paseto_parts::is_section_of;
use serde_json::Value;
use std::alloc::Global;
use test_toys::generators::Zeros;
use test_toys::keys::{Keys, SECRET, ToyVersion};

/// Asks them.
pub fn ask(run: &mut Run<'_>) -> Result<()> {
    ask_keys(run)?;
    ask_owned_keys(run)?;
    ask_texts(run)?;
    ask_limits(run)?;
    ask_values(run)?;
    ask_claims(run)?;
    ask_objects(run)?;
    let (now, text) = (now()?, run.text.as_bytes());
    calls! { run;
        "fits_default of a moment, with no memory" => always(fits_default(now));
        "has_short_year of a moment, with no memory" => always(has_short_year(now));
        "the primitives of a text, with no memory" => always(primitives::digest(text));
    }
}

// What calls that refuse nothing answer.
fn always<T>(value: T) -> Result<T, PasetoError> {
    Ok(value)
}

const DIGITS: &str = "77756262616c7562626164756264756277756262616c75626261647562647562";

fn ask_keys(run: &mut Run<'_>) -> Result<()> {
    calls! { run;
        "TryFrom::try_from of Key, with no memory" => Key::<32>::try_from(DIGITS).map(bytes_of);
        "TryFrom::try_from of Key of no digits, with no memory, refused"
            => Key::<32>::try_from("no digits").map(bytes_of);
        "Key::try_new_random of a generator, with no memory"
            => Key::<32>::try_new_random(&mut Zeros).map(bytes_of);
        "PasetoSymmetricKey::try_new_random of a generator, with no memory"
            => PasetoSymmetricKey::<V4, Local>::try_new_random(&mut Zeros).map(|key| *key.as_bytes());
        "TryFrom::try_from of PasetoAsymmetricPublicKey, with no memory"
            => PasetoAsymmetricPublicKey::<V3, Public>::try_from(&Key::<49>::from([2; 49]))
                .map(|key| key.as_bytes().first_chunk::<49>().copied());
    }
}

/// A key that owns its bytes is known by them.
impl<V: VersionTrait> Snapshot for PrivateKey<V> {
    fn snapshot(&self, alloc: Global) -> Result<String> {
        shown(alloc, self.lend().as_bytes())
    }
}

impl<V: VersionTrait> Snapshot for PublicKey<V> {
    fn snapshot(&self, alloc: Global) -> Result<String> {
        shown(alloc, self.lend().as_bytes())
    }
}

// Keys that take the bytes that they are given.
fn ask_owned_keys(run: &mut Run<'_>) -> Result<()> {
    let alloc = run.alloc;
    edits!(run, "TryFrom::try_from of ", slot = Ok(None);
        "PrivateKey, with no memory", bytes = Vec::from_slice(alloc, &[7; 48])?
            => put(slot, PrivateKey::<V3>::try_from(bytes));
        "PrivateKey of 47 bytes, with no memory, refused", bytes = Vec::from_slice(alloc, &[7; 47])?
            => put(slot, PrivateKey::<V3>::try_from(bytes));
    )?;
    edits! { run, "TryFrom::try_from of ", slot = Ok(None);
        "PublicKey, with no memory", bytes = Vec::from_slice(alloc, &[7; 32])?
            => put(slot, PublicKey::<V4>::try_from(bytes));
        "PublicKey of 33 bytes, with no memory, refused", bytes = Vec::from_slice(alloc, &[7; 33])?
            => put(slot, PublicKey::<V4>::try_from(bytes));
    }
}

fn ask_texts(run: &mut Run<'_>) -> Result<()> {
    let text = run.text;
    let token = format!(in run.alloc; "v4.local.{text}.a2V5LTE")?;
    let token = token.as_str();
    calls! { run;
        "UntrustedToken::try_parse of a token, with no memory" => UntrustedToken::try_parse(token);
        "UntrustedToken::try_parse of two sections, with no memory, refused"
            => UntrustedToken::try_parse("v4.local");
        "UntrustedToken::try_parse_within of a token, with no memory"
            => UntrustedToken::try_parse_within(token, token.len());
        "UntrustedToken::try_parse_within of a longer token, with no memory, refused"
            => UntrustedToken::try_parse_within(token, 8);
        "the parts of a token of its text, with no memory" => UntrustedToken::try_parse(token).map(|parts| (
            (parts.version(), parts.purpose(), parts.footer_base64()), split_token(token),
            is_section_of(parts.footer_base64().unwrap_or(""), b"key-1"),
        ));
        "texts, keys and Paseto of a text, with no memory" => texts_of(text);
    }
}

// What is refused for its length takes no memory.
fn ask_limits(run: &mut Run<'_>) -> Result<()> {
    let alloc = run.alloc;
    let token = format!(in alloc; "v4.local.{}.a2V5LTE", run.text)?;
    let (token, key) = (
        token.as_str(),
        PasetoSymmetricKey::<V4, Local>::from(Key::default()),
    );
    let mut parser = GenericParser::<V4, Local>::new(alloc);
    parser.set_longest(8);
    let (mut ring, mut footers) = (KeyRing::<V4>::new(alloc), KeyRing::<V4>::new(alloc));
    ring.set_longest(8);
    footers.set_longest_footer(4);
    calls! { run;
        "TokenParser::parse of a longer token, with no memory, refused" => parser.parse(token, &key);
        "Ring::open of a longer token, with no memory, refused" => ring.open(token, None);
        "Ring::open of a longer footer, with no memory, refused" => footers.open(token, None);
        "Ring::key_of of a longer footer, with no memory, refused"
            => footers.key_of("key-1").map(|key| *key.as_bytes());
    }
}

// How many bytes the texts and keys have that are made of a text.
fn texts_of(text: &str) -> Result<[usize; 8], PasetoError> {
    let (key, keys) = (Key::<32>::from_slice(&[7; 32]).clone(), Keys::of(&SECRET));
    let secret = PasetoSymmetricKey::<V4, Local>::from(Key::default());
    let mut paseto = Paseto::<V4, Local>::builder();
    paseto.set_payload(Payload::from(text));
    paseto.set_footer(Footer::default());
    paseto.set_implicit_assertion(ImplicitAssertion::default());
    Ok([
        Header::<V4, Local>::default().as_str().len(),
        Payload::from(text).as_str().len(),
        Footer::from(text).as_str().len(),
        ImplicitAssertion::from(text).as_str().len(),
        PasetoNonce::<V4, Local>::from(&key).as_bytes().len(),
        V4::private_key(&keys).as_bytes().len(),
        V4::public_key(&keys)?.as_bytes().len(),
        secret.as_bytes().len(),
    ])
}

fn ask_values(run: &mut Run<'_>) -> Result<()> {
    let (alloc, value) = (run.alloc, &tree(run.alloc, run.text)?);
    calls! { run;
        "ClaimValue::to_value of bool, with no memory" => true.to_value(alloc);
        "ClaimValue::to_value of i8, with no memory" => (-8i8).to_value(alloc);
        "ClaimValue::to_value of i16, with no memory" => (-16i16).to_value(alloc);
        "ClaimValue::to_value of i32, with no memory" => (-32i32).to_value(alloc);
        "ClaimValue::to_value of i64, with no memory" => (-64i64).to_value(alloc);
        "ClaimValue::to_value of u8, with no memory" => 8u8.to_value(alloc);
        "ClaimValue::to_value of u16, with no memory" => 16u16.to_value(alloc);
        "ClaimValue::to_value of u32, with no memory" => 32u32.to_value(alloc);
        "ClaimValue::to_value of u64, with no memory" => 64u64.to_value(alloc);
        "is_whole, odd_key and same_value of JSON, with no memory"
            => always((same_value(value, value), is_whole(value), odd_key(value).is_some()));
    }
}

fn ask_claims(run: &mut Run<'_>) -> Result<()> {
    let (alloc, text) = (run.alloc, run.text);
    let claim = CustomClaim::try_from_str(alloc, "a", "b")?;
    calls!(run;
        "get_key and as_pair of claims, with no memory" => always((
            (claim.get_key().len(), claim.as_pair().0.len()),
            (AudienceClaim::from(text).as_pair().1.len(), AudienceClaim::default().get_key().len()),
        ));
    )?;
    // Claims that are made of a text that is given, and so not copied.
    edits!(run, "CustomClaim::", slot = Ok(None);
        "try_from_string of a key, with no memory", key = String::from_str(alloc, text)?
            => put(slot, CustomClaim::try_from_string(key, "a"));
    )?;
    edits! { run, "DateClaim::", slot = Ok(None);
        "try_from_string of a date, with no memory", text = String::from_str(alloc, DATE)?
            => put(slot, ExpirationClaim::try_from_string(alloc, text));
    }
}

// Sets the footer and the implicit assertion of a builder or of a default parser.
macro_rules! bind {
    ($object:expr) => {{
        $object.set_footer(Footer::from("another"));
        $object.set_implicit_assertion(ImplicitAssertion::from("tenant-1"));
        always(())
    }};
}

fn ask_objects(run: &mut Run<'_>) -> Result<()> {
    let (alloc, now) = (run.alloc, now()?);
    edits!(run, "GenericBuilder::", slot = Ok(None);
        "new of nothing, with no memory" => put(slot, always(GenericBuilder::<V4, Local>::new(alloc)));
    )?;
    edits!(run, "TokenParser::", slot = Ok(None);
        "new of nothing, with no memory" => put(slot, always(GenericParser::<V4, Local>::new(alloc)));
    )?;
    edits!(run, "DefaultParser::", slot = Ok(None);
        "new of nothing, with no memory" => put(slot, always(PasetoParser::<V4, Local>::new(alloc)));
    )?;
    edits!(run, "GenericBuilder::", builder = builders::builder_of::<V4, Local>(alloc, "a");
        "remove_claim and others of a builder, with no memory" => bind!(builder.remove_claim("aud"));
    )?;
    edits!(run, "PasetoBuilder::", builder = defaults::builder_of::<V4, Local>(alloc, "a", 0);
        "set_footer and others of a builder, with no memory" => bind!(builder);
    )?;
    edits!(run, "TokenParser::", parser = parsers::parser_of::<V4, Local>(alloc);
        "set_footer and others of a parser, with no memory" => {
            let is_empty = parser.get_footer().as_str().is_empty();
            parser.set_now(now).set_footer(Footer::from(if is_empty { "" } else { "another" }));
            always(())
        };
    )?;
    edits! { run, "DefaultParser::", parser = defaults::parser_of::<V4, Local>(alloc);
        "set_footer and others of a parser, with no memory" => bind!(parser.set_now(now));
    }
}
