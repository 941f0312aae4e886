//! The calls of keys as text. What is no key is as long as the text that the calls are about.

use crate::kinds::{bytes_of, symmetric_key};
use crate::rsa_key::{PRIVATE, PUBLIC};
use crate::run::{Run, calls};
use anyhow::Result;
use rusty_paseto::prelude::*;
use rusty_paseto_paserk::*;
use std::alloc::Global;
use test_toys::keys::{Keys, SECRET, ToyVersion};

/// Asks them.
pub fn ask(run: &mut Run<'_>) -> Result<()> {
    let (alloc, key) = (run.alloc, symmetric_key::<V4>());
    let text = local_to_paserk(alloc, &key)?;
    let other = format!(in alloc; "k4.local.{}", run.text)?;
    calls!(run;
        "local_to_paserk of v4.local" => local_to_paserk(alloc, &key);
        "local_from_paserk of v4.local" => read_local(alloc, text.as_str());
        "local_from_paserk of another text, refused" => read_local(alloc, other.as_str());
        "local_id of v4.local" => local_id(alloc, &key);
    )?;
    ask_pairs(run)?;
    ask_rsa_pairs(run)
}

fn read_local(alloc: Global, text: &str) -> Result<String, PaserkError> {
    let key: PasetoSymmetricKey<V4, Local> = local_from_paserk(alloc, text)?;
    local_to_paserk(alloc, &key)
}

fn read_private(alloc: Global, text: &str) -> Result<String, PaserkError> {
    let key = private_key_from_paserk::<V4>(alloc, text)?;
    secret_to_paserk(alloc, &key.lend())
}

fn read_public(alloc: Global, text: &str) -> Result<String, PaserkError> {
    let key = public_key_from_paserk::<V4>(alloc, text)?;
    public_to_paserk(alloc, &key.lend())
}

fn ask_pairs(run: &mut Run<'_>) -> Result<()> {
    let (alloc, keys) = (run.alloc, Keys::of(&SECRET));
    let (private, public) = (V4::private_key(&keys), V4::public_key(&keys)?);
    let secret = secret_to_paserk(alloc, &private)?;
    let text = public_to_paserk(alloc, &public)?;
    let other_secret = format!(in alloc; "k4.secret.{}", run.text)?;
    let other_public = format!(in alloc; "k4.public.{}", run.text)?;
    calls! { run;
        "secret_to_paserk of v4.public" => secret_to_paserk(alloc, &private);
        "secret_from_paserk of v4.public" => secret_from_paserk::<V4, 64>(alloc, secret.as_str()).map(bytes_of);
        "secret_from_paserk of another text, refused"
            => secret_from_paserk::<V4, 64>(alloc, other_secret.as_str()).map(bytes_of);
        "private_key_from_paserk of v4.public" => read_private(alloc, secret.as_str());
        "private_key_from_paserk of another text, refused" => read_private(alloc, other_secret.as_str());
        "secret_id of v4.public" => secret_id(alloc, &private);
        "public_to_paserk of v4.public" => public_to_paserk(alloc, &public);
        "public_from_paserk of v4.public" => public_from_paserk::<V4, 32>(alloc, text.as_str()).map(bytes_of);
        "public_from_paserk of another text, refused"
            => public_from_paserk::<V4, 32>(alloc, other_public.as_str()).map(bytes_of);
        "public_key_from_paserk of v4.public" => read_public(alloc, text.as_str());
        "public_key_from_paserk of another text, refused" => read_public(alloc, other_public.as_str());
        "public_id of v4.public" => public_id(alloc, &public);
    }
}

fn read_rsa_private(alloc: Global, text: &str) -> Result<String, PaserkError> {
    let key = rsa_private_key_from_paserk(alloc, text)?;
    rsa_secret_to_paserk(alloc, &key.lend())
}

fn read_rsa_public(alloc: Global, text: &str) -> Result<String, PaserkError> {
    let key = rsa_public_key_from_paserk(alloc, text)?;
    rsa_public_to_paserk(alloc, &key.lend())
}

fn ask_rsa_pairs(run: &mut Run<'_>) -> Result<()> {
    let alloc = run.alloc;
    let private = PrivateKey::<V1>::try_from(from_section(alloc, PRIVATE)?)?;
    let public = PublicKey::<V1>::try_from(from_section(alloc, PUBLIC)?)?;
    let secret = rsa_secret_to_paserk(alloc, &private.lend())?;
    let info = format!(in alloc; "k1.secret.{PRIVATE}")?;
    let text = rsa_public_to_paserk(alloc, &public.lend())?;
    let other = format!(in alloc; "k1.public.{PUBLIC}")?;
    calls! { run;
        "rsa_secret_to_paserk of v1.public" => rsa_secret_to_paserk(alloc, &private.lend());
        "rsa_private_key_from_paserk of v1.public" => read_rsa_private(alloc, secret.as_str());
        "rsa_private_key_from_paserk of v1.public in PKCS 8" => read_rsa_private(alloc, info.as_str());
        "rsa_secret_id of v1.public" => rsa_secret_id(alloc, &private.lend());
        "rsa_public_to_paserk of v1.public" => rsa_public_to_paserk(alloc, &public.lend());
        "rsa_public_key_from_paserk of v1.public" => read_rsa_public(alloc, text.as_str());
        "rsa_public_key_from_paserk of v1.public in PKCS 1, refused" => read_rsa_public(alloc, other.as_str());
        "rsa_public_id of v1.public" => rsa_public_id(alloc, &public.lend());
    }
}
