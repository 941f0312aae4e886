//! The calls of generic builders.

use crate::claims::numbered;
use crate::kinds::{Cases, Signed, ask_kinds, footer, symmetric_key};
use crate::run::{Run, Snapshot, calls, edits, shown};
use anyhow::{Result, bail};
use rusty_paseto::prelude::*;
use serde_json::{Map, Value};
use std::alloc::Global;
use test_toys::generators::Zeros;
use test_toys::keys::Keys;
use test_toys::{Lenient, PlainBox};

/// A builder is known by its token.
impl Snapshot for GenericBuilder<'_, V4, Local> {
    fn snapshot(&self, alloc: Global) -> Result<String> {
        shown(alloc, self.try_encrypt(&mut Zeros, &symmetric_key()))
    }
}

/// Asks them.
pub fn ask(run: &mut Run<'_>) -> Result<()> {
    ask_claims(run)?;
    ask_payload(run)?;
    ask_kinds::<Kinds>(run)
}

/// The members of an object of JSON.
pub fn map_of(alloc: Global, json: &str) -> Result<Map<String, Value>> {
    match Value::from_str(alloc, json)? {
        Value::Object(members) => Ok(members),
        _ => bail!("{json} is no object"),
    }
}

/// JSON that holds a fraction.
pub fn odd_claim(alloc: Global) -> Result<CustomClaim<Value>> {
    Ok(CustomClaim::try_from_str(alloc, "odd", Value::from_str(alloc, "[3.5]")?)?)
}

/// The same in a map.
pub const ODD: &str = "{\"a\":1,\"b\":3.5}";

/// A builder of fifteen claims, one of them with the text, and a footer.
pub fn builder_of<V: VersionTrait, P: PurposeTrait>(
    alloc: Global,
    text: &str,
) -> Result<GenericBuilder<'static, V, P>> {
    let mut builder = GenericBuilder::new(alloc);
    builder.put_claim(&AudienceClaim::from("customers"))?;
    builder.put_claim(&CustomClaim::try_from_str(alloc, "data", text)?)?;
    builder.put_claim(&CustomClaim::try_from_str(alloc, "seats", 4u64)?)?;
    'numbers: for number in 0..12u64 {
        builder.put_claim(&numbered(alloc, number)?)?;
    }
    builder.set_footer(footer());
    Ok(builder)
}

const SEVERAL: &str = "{\"a\":[1,2],\"aud\":null,\"z\":{\"b\":\"c\"}}";

fn ask_claims(run: &mut Run<'_>) -> Result<()> {
    let (alloc, text) = (run.alloc, run.text);
    let (other, odd) = (AudienceClaim::from("another one"), odd_claim(alloc)?);
    let claim = CustomClaim::try_from_str(alloc, "text", text)?;
    edits! { run, "GenericBuilder::", builder = builder_of::<V4, Local>(alloc, text);
        "put_claim of a claim" => builder.put_claim(&claim);
        "set_claim of a claim" => builder.set_claim(&claim).map(drop);
        "put_claim of a key that is there" => builder.put_claim(&other);
        "put_claim of a fraction, refused" => builder.put_claim(&odd);
        "put_claims of a map", map = map_of(alloc, SEVERAL)? => builder.put_claims(map);
        "extend_claims of a map", map = map_of(alloc, SEVERAL)? => builder.extend_claims(map).map(drop);
        "put_claims of a map with a fraction, refused", map = map_of(alloc, ODD)? => builder.put_claims(map);
    }
}

fn ask_payload(run: &mut Run<'_>) -> Result<()> {
    let builder = builder_of::<V4, Local>(run.alloc, run.text)?;
    calls! { run; "GenericBuilder::build_payload_from_claims of some claims"
        => builder.build_payload_from_claims(); }
}

struct Kinds;

impl Cases for Kinds {
    fn ask_local<V: DefaultLocalVersion>(run: &mut Run<'_>, kind: &str) -> Result<()> {
        let builder = builder_of::<V, Local>(run.alloc, run.text)?;
        let key = symmetric_key();
        calls! { run, kind; "GenericBuilder::try_encrypt of {}" => builder.try_encrypt(&mut Zeros, &key); }
    }

    fn ask_boxed(run: &mut Run<'_>) -> Result<()> {
        let key = symmetric_key();
        let builder = builder_of::<V2, Local>(run.alloc, run.text)?;
        calls! { run; "GenericBuilder::try_encrypt of v2.local"
            => builder.try_encrypt(&PlainBox, &mut Zeros, &key); }
    }

    fn ask_public<V: Signed>(run: &mut Run<'_>, kind: &str, keys: &Keys) -> Result<()> {
        let builder = builder_of::<V, Public>(run.alloc, run.text)?;
        let key = V::private_key(keys);
        calls! { run, kind; "GenericBuilder::try_sign of {}" => builder.try_sign(&mut Lenient, &key); }
    }
}
