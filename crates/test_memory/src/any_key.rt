//! The calls of keys of any version and type, and of key files. The text of a token, a claim and a password is the one that
//! the calls are about.

use crate::builders::map_of;
use crate::kinds::symmetric_key;
use crate::rsa_key::PRIVATE;
use crate::run::{Run, Snapshot, calls, edits, shown, with};
use anyhow::Result;
use paseto_key_files::{KeyFileError, Openers, pem_of, protect, seal, unlock, wrap};
use paseto_keys::{
    AnyKey, ClaimsBuilder, ClaimsParser, TokenReader, TokenWriter, admit, admit_by_ring, decrypt,
    encrypt, issue, sign, verify,
};
use paseto_pem::private_key_to_pem;
use paseto_wrapping::PasswordCost;
use rusty_paseto::prelude::*;
use rusty_paseto_paserk::{PaserkType, PaserkVersion};
use std::alloc::Global;
use test_toys::generators::Zeros;

/// What a password costs: next to nothing.
const COST: PasswordCost = PasswordCost {
    iterations: 1,
    memory: 8192,
    passes: 1,
    lanes: 1,
};

/// A builder is known by its payload.
impl Snapshot for ClaimsBuilder {
    fn snapshot(&self, alloc: Global) -> Result<String> {
        shown(alloc, self.build_payload_from_claims())
    }
}

/// Asks them.
pub fn ask(run: &mut Run<'_>) -> Result<()> {
    with(local_key(), |key| ask_local(run, key))?;
    with(private_key(run.alloc)?, |key| ask_public(run, key))?;
    ask_claims(run)?;
    ask_builder(run)?;
    with(private_key(run.alloc)?, |key| ask_private(run, key))?;
    ask_rsa(run)
}

fn ask_private(run: &mut Run<'_>, key: &AnyKey) -> Result<()> {
    ask_keys(run, key)?;
    ask_texts(run, key)?;
    ask_files(run, key)
}

// The key of all local tokens.
fn local_key() -> AnyKey {
    AnyKey::V4Local(symmetric_key())
}

// A new private key of version 4.
fn private_key(alloc: Global) -> Result<AnyKey> {
    let version = PaserkVersion::V4;
    Ok(AnyKey::generate(alloc, PaserkType::Secret, version, &mut Zeros)?)
}

fn line_of(alloc: Global, key: AnyKey) -> Result<String> {
    let line = key.to_line(alloc);
    drop(key);
    Ok(line?)
}

fn public_line(alloc: Global, key: &AnyKey) -> Result<String> {
    line_of(alloc, key.public_half(alloc)?)
}

fn ask_local(run: &mut Run<'_>, key: &AnyKey) -> Result<()> {
    let (alloc, text, drawn) = (run.alloc, run.text, [7u8; 32]);
    let token = encrypt(alloc, key, &drawn, text, None, None)?;
    let token = token.as_str();
    calls! { run;
        "encrypt of any version" => encrypt(alloc, key, &drawn, text, None, None);
        "decrypt of any version" => decrypt(alloc, key, token, None, None);
        "TokenWriter::draw of a nonce" => key.draw(alloc, &mut Zeros).map(drop);
        "TokenWriter::write of AnyKey" => key.write(alloc, &drawn, text, None, None);
        "TokenReader::read of AnyKey" => key.read(alloc, token, None, None);
    }
}

fn ask_public(run: &mut Run<'_>, private: &AnyKey) -> Result<()> {
    with(
        private.public_half(run.alloc)?,
        |public| ask_pair(run, private, public),
    )
}

fn ask_pair(run: &mut Run<'_>, private: &AnyKey, public: &AnyKey) -> Result<()> {
    let (alloc, text) = (run.alloc, run.text);
    let token = sign(alloc, private, &[], text, None, None)?;
    let token = token.as_str();
    calls! { run;
        "sign of any version" => sign(alloc, private, &[], text, None, None);
        "verify of any version" => verify(alloc, public, token, None, None);
    }
}

// A builder of a claim of the text.
fn builder_of(alloc: Global, text: &str) -> Result<ClaimsBuilder> {
    let mut builder = ClaimsBuilder::new(alloc);
    builder.put_claim(&CustomClaim::try_from_str(alloc, "data", text)?)?;
    Ok(builder)
}

fn ask_claims(run: &mut Run<'_>) -> Result<()> {
    let claims = builder_of(run.alloc, run.text)?;
    let (keys, parser) = ([local_key()], ClaimsParser::new(run.alloc));
    let asked = ask_tokens(run, &keys, &claims, &parser);
    drop(keys);
    drop(claims);
    drop(parser);
    asked
}

fn ask_tokens(
    run: &mut Run<'_>,
    keys: &[AnyKey; 1],
    claims: &ClaimsBuilder,
    parser: &ClaimsParser,
) -> Result<()> {
    let (alloc, [key], drawn) = (run.alloc, keys, [7u8; 32]);
    let token = issue(alloc, key, &drawn, claims, None, None)?;
    let footer = key_footer(alloc, key.id(alloc)?.as_str())?;
    let footer = Some(Footer::from(footer.as_str()));
    let named = issue(alloc, key, &drawn, claims, footer, None)?;
    calls! { run;
        "issue of any version" => issue(alloc, key, &drawn, claims, None, None);
        "admit of any version" => admit(alloc, key, parser, token.as_str());
        "admit_by_ring of any version" => admit_by_ring(alloc, keys, parser, named.as_str());
        "admit_by_ring of any version and no key, refused"
            => admit_by_ring(alloc, &[], parser, named.as_str());
    }
}

fn ask_builder(run: &mut Run<'_>) -> Result<()> {
    let (alloc, text) = (run.alloc, run.text);
    let claim = CustomClaim::try_from_str(alloc, "text", text)?;
    let (object, odd) = ("{\"a\":[1,2],\"z\":{\"b\":\"c\"}}", "{\"a\":0.5}");
    edits! { run, "ClaimsBuilder::", builder = builder_of(alloc, text);
        "put_claim of a claim" => builder.put_claim(&claim);
        "put_claims of a map", map = map_of(alloc, object)? => builder.put_claims(map);
        "put_claims of a map with a fraction, refused", map = map_of(alloc, odd)? => builder.put_claims(map);
    }
}

// The type of a key.
fn kind_of(key: AnyKey) -> PaserkType {
    let kind = key.kind();
    drop(key);
    kind
}

fn ask_keys(run: &mut Run<'_>, private: &AnyKey) -> Result<()> {
    let (alloc, kind, version) = (run.alloc, PaserkType::Secret, PaserkVersion::V4);
    calls! { run;
        "AnyKey::generate of a private key" => AnyKey::generate(alloc, kind, version, &mut Zeros).map(kind_of);
        "AnyKey::from_bytes of a private key" => AnyKey::from_bytes(alloc, kind, version, &[7u8; 64]).map(kind_of);
        "AnyKey::id of a private key" => private.id(alloc);
        "AnyKey::public_half of a private key" => private.public_half(alloc).map(kind_of);
    }
}

fn openers<'o>(password: &'o str, key: &'o str) -> Openers<'o> {
    Openers {
        password: Some(password.as_bytes()),
        key: Some(key),
    }
}

// A local key that is sealed.
fn seal_local(alloc: Global, public: &str) -> Result<String, KeyFileError> {
    let key = local_key();
    let sealed = key.seal(alloc, public, &mut Zeros);
    drop(key);
    sealed
}

fn ask_texts(run: &mut Run<'_>, key: &AnyKey) -> Result<()> {
    let (alloc, password) = (run.alloc, run.text);
    let (line, public) = (key.to_line(alloc)?, public_line(alloc, key)?);
    let wrapping = line_of(alloc, local_key())?;
    let locked = key.protect(alloc, password.as_bytes(), COST, &mut Zeros)?;
    let (wrapping, opened) = (wrapping.as_str(), openers(password, wrapping.as_str()));
    calls! { run;
        "AnyKey::from_line of a private key" => AnyKey::from_line(alloc, line.as_str()).map(kind_of);
        "AnyKey::to_line of a private key" => key.to_line(alloc);
        "AnyKey::to_pem of a private key" => key.to_pem(alloc);
        "AnyKey::protect of a private key" => key.protect(alloc, password.as_bytes(), COST, &mut Zeros);
        "AnyKey::wrap of a private key" => key.wrap(alloc, wrapping, &mut Zeros);
        "AnyKey::seal of a local key" => seal_local(alloc, public.as_str());
        "AnyKey::unlock of a private key" => AnyKey::unlock(alloc, &opened, locked.as_str()).map(kind_of);
    }
}

fn ask_files(run: &mut Run<'_>, key: &AnyKey) -> Result<()> {
    let (alloc, password) = (run.alloc, run.text);
    let (line, public) = (key.to_line(alloc)?, public_line(alloc, key)?);
    let (line, local) = (line.as_str(), line_of(alloc, local_key())?);
    let opened = openers(password, local.as_str());
    let locked = wrap(alloc, local.as_str(), &mut Zeros, line)?;
    calls! { run;
        "pem_of of a line" => pem_of(alloc, line);
        "protect of a line" => protect(alloc, password.as_bytes(), COST, &mut Zeros, line);
        "wrap of a line" => wrap(alloc, local.as_str(), &mut Zeros, line);
        "seal of a line" => seal(alloc, public.as_str(), &mut Zeros, local.as_str());
        "unlock of a wrapped key" => unlock(alloc, &opened, locked.as_str());
    }
}

fn ask_rsa(run: &mut Run<'_>) -> Result<()> {
    let private = PrivateKey::<V1>::try_from(from_section(run.alloc, PRIVATE)?)?;
    let text = private_key_to_pem(run.alloc, &private.lend())?;
    with(
        AnyKey::V1Secret(private),
        |key| ask_rsa_key(run, key, text.as_str()),
    )
}

fn ask_rsa_key(run: &mut Run<'_>, key: &AnyKey, text: &str) -> Result<()> {
    let (alloc, password) = (run.alloc, run.text);
    let line = key.to_line(alloc)?;
    let wrapping = line_of(alloc, AnyKey::V1Local(symmetric_key()))?;
    let (line, wrapping) = (line.as_str(), wrapping.as_str());
    let opened = openers(password, wrapping);
    let locked = key.wrap(alloc, wrapping, &mut Zeros)?;
    calls! { run;
        "AnyKey::from_line of a private key of RSA" => AnyKey::from_line(alloc, line).map(kind_of);
        "AnyKey::to_line of a private key of RSA" => key.to_line(alloc);
        "AnyKey::id of a private key of RSA" => key.id(alloc);
        "AnyKey::public_half of a private key of RSA" => key.public_half(alloc).map(kind_of);
        "AnyKey::to_pem of a private key of RSA" => key.to_pem(alloc);
        "AnyKey::wrap of a private key of RSA" => key.wrap(alloc, wrapping, &mut Zeros);
        "AnyKey::unlock of a private key of RSA" => AnyKey::unlock(alloc, &opened, locked.as_str()).map(kind_of);
        "AnyKey::unlock of a key in PEM" => AnyKey::unlock(alloc, &opened, text).map(kind_of);
        "unlock of a key in PEM" => unlock(alloc, &opened, text);
    }
}
