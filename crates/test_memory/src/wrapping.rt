//! The calls of wrapped keys, in a version of each family. What is no wrapped key is as long as the text that the calls
//! are about, and so is the password.

use crate::kinds::symmetric_key;
use crate::rsa_key::PRIVATE;
use crate::run::{Run, calls};
use anyhow::Result;
use paseto_ed25519::Ed25519;
use paseto_p384::P384;
use paseto_wrapping::{
    PasswordCost, WrappingKey, protect_local, protect_secret, seal, unprotect_local,
    unprotect_secret, unseal, unwrap_local, unwrap_secret, wrap_local, wrap_secret,
};
use rusty_paseto::prelude::*;
use rusty_paseto_paserk::KeyVersion;
use test_toys::keys::{Keys, SECRET, ToyVersion};

/// What a password costs: next to nothing.
const COST: PasswordCost = PasswordCost {
    iterations: 1,
    memory: 8192,
    passes: 1,
    lanes: 1,
};

/// Asks them.
pub fn ask(run: &mut Run<'_>) -> Result<()> {
    ask_version::<V3>(run, "k3")?;
    ask_version::<V4>(run, "k4")?;
    ask_passwords::<V3>(run, "k3", &[1; 32], &[2; 16])?;
    ask_passwords::<V4>(run, "k4", &[1; 16], &[2; 24])?;
    ask_rsa(run)?;
    ask_sealing_of_v3(run)?;
    ask_sealing_of_v4(run)
}

// The bytes of a key of local tokens.
fn local_bytes<V>(key: PasetoSymmetricKey<V, Local>) -> [u8; 32] {
    *key.as_bytes()
}

// The front of a private key.
fn private_front<V: VersionTrait>(key: PrivateKey<V>) -> Option<[u8; 48]> {
    key.lend().as_bytes().first_chunk::<48>().copied()
}

fn ask_version<V: ToyVersion + KeyVersion>(run: &mut Run<'_>, mark: &str) -> Result<()> {
    let (alloc, key, keys) = (run.alloc, symmetric_key::<V>(), Keys::of(&SECRET));
    let (wrapping_key, nonce) = (
        WrappingKey::<V>::from(Key::from([3; 32])),
        Key::from([4; 32]),
    );
    let private = V::private_key(&keys);
    let local = wrap_local(alloc, &wrapping_key, &nonce, &key)?;
    let secret = wrap_secret(alloc, &wrapping_key, &nonce, &private)?;
    let other_local = format!(in alloc; "{mark}.local-wrap.pie.{}", run.text)?;
    let other_secret = format!(in alloc; "{mark}.secret-wrap.pie.{}", run.text)?;
    calls! { run, mark;
        "wrap_local of {}" => wrap_local(alloc, &wrapping_key, &nonce, &key);
        "unwrap_local of {}" => unwrap_local(alloc, &wrapping_key, local.as_str()).map(local_bytes);
        "unwrap_local of another text of {}, refused"
            => unwrap_local(alloc, &wrapping_key, other_local.as_str()).map(local_bytes);
        "wrap_secret of {}" => wrap_secret(alloc, &wrapping_key, &nonce, &private);
        "unwrap_secret of {}" => unwrap_secret(alloc, &wrapping_key, secret.as_str()).map(private_front);
        "unwrap_secret of another text of {}, refused"
            => unwrap_secret(alloc, &wrapping_key, other_secret.as_str()).map(private_front);
    }
}

fn ask_passwords<V: ToyVersion + KeyVersion>(
    run: &mut Run<'_>,
    mark: &str,
    salt: &[u8],
    nonce: &[u8],
) -> Result<()> {
    let (alloc, password, key) = (run.alloc, run.text.as_bytes(), symmetric_key::<V>());
    let keys = Keys::of(&SECRET);
    let private = V::private_key(&keys);
    let local = protect_local(alloc, password, COST, salt, nonce, &key)?;
    let secret = protect_secret(alloc, password, COST, salt, nonce, &private)?;
    let other_local = format!(in alloc; "{mark}.local-pw.{}", run.text)?;
    let other_secret = format!(in alloc; "{mark}.secret-pw.{}", run.text)?;
    calls! { run, mark;
        "protect_local of {}" => protect_local(alloc, password, COST, salt, nonce, &key);
        "unprotect_local of {}"
            => unprotect_local::<V>(alloc, password, COST, local.as_str()).map(local_bytes);
        "unprotect_local of another text of {}, refused"
            => unprotect_local::<V>(alloc, password, COST, other_local.as_str()).map(local_bytes);
        "protect_secret of {}" => protect_secret(alloc, password, COST, salt, nonce, &private);
        "unprotect_secret of {}"
            => unprotect_secret::<V>(alloc, password, COST, secret.as_str()).map(private_front);
        "unprotect_secret of another text of {}, refused"
            => unprotect_secret::<V>(alloc, password, COST, other_secret.as_str()).map(private_front);
    }
}

fn ask_rsa(run: &mut Run<'_>) -> Result<()> {
    let (alloc, password) = (run.alloc, run.text.as_bytes());
    let (wrapping_key, nonce) = (
        WrappingKey::<V1>::from(Key::from([3; 32])),
        Key::from([4; 32]),
    );
    let private = PrivateKey::<V1>::try_from(from_section(alloc, PRIVATE)?)?;
    let private = private.lend();
    let wrapped = wrap_secret(alloc, &wrapping_key, &nonce, &private)?;
    let protected = protect_secret(alloc, password, COST, &[1; 32], &[2; 16], &private)?;
    calls! { run;
        "wrap_secret of k1" => wrap_secret(alloc, &wrapping_key, &nonce, &private);
        "unwrap_secret of k1" => unwrap_secret(alloc, &wrapping_key, wrapped.as_str()).map(private_front);
        "protect_secret of k1" => protect_secret(alloc, password, COST, &[1; 32], &[2; 16], &private);
        "unprotect_secret of k1"
            => unprotect_secret::<V1>(alloc, password, COST, protected.as_str()).map(private_front);
    }
}

fn ask_sealing_of_v3(run: &mut Run<'_>) -> Result<()> {
    let (alloc, key) = (run.alloc, symmetric_key::<V3>());
    let (private, ephemeral) = (Key::from([5; 48]), Key::from([6; 48]));
    let public = Key::from(P384.public_key(alloc, private.as_bytes())?);
    let public = PasetoAsymmetricPublicKey::<V3, Public>::try_from(&public)?;
    let private = PasetoAsymmetricPrivateKey::<V3, Public>::from(&private);
    let text = seal(alloc, &public, &ephemeral, &key)?;
    let other = format!(in alloc; "k3.seal.{}", run.text)?;
    calls! { run;
        "seal of k3" => seal(alloc, &public, &ephemeral, &key);
        "unseal of k3" => unseal(alloc, &private, text.as_str()).map(local_bytes);
        "unseal of another text of k3, refused" => unseal(alloc, &private, other.as_str()).map(local_bytes);
    }
}

fn ask_sealing_of_v4(run: &mut Run<'_>) -> Result<()> {
    let (alloc, key) = (run.alloc, symmetric_key::<V4>());
    let (seed, ephemeral) = ([5; 32], Key::from([6; 32]));
    let public = Key::from(Ed25519::public_key(&seed));
    let mut pair = [5; 64];
    pair[32..].copy_from_slice(public.as_bytes());
    let private = Key::from(pair);
    let private = PasetoAsymmetricPrivateKey::<V4, Public>::from(&private);
    let public = PasetoAsymmetricPublicKey::<V4, Public>::from(&public);
    let text = seal(alloc, &public, &ephemeral, &key)?;
    let other = format!(in alloc; "k4.seal.{}", run.text)?;
    calls! { run;
        "seal of k4" => seal(alloc, &public, &ephemeral, &key);
        "unseal of k4" => unseal(alloc, &private, text.as_str()).map(local_bytes);
        "unseal of another text of k4, refused" => unseal(alloc, &private, other.as_str()).map(local_bytes);
    }
}
