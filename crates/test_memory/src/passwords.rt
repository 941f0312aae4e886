//! The calls on passwords.

use crate::run::{Run, calls};
use anyhow::Result;
use paseto_argon2::{Argon2Error, Parameters, argon2id, argon2id_with};
use std::alloc::Global;

/// What the keys cost.
const COST: Parameters = Parameters {
    memory: 64,
    passes: 1,
    lanes: 2,
};

/// Asks them.
pub fn ask(run: &mut Run<'_>) -> Result<()> {
    let (alloc, password) = (run.alloc, run.text.as_bytes());
    calls! { run;
        "argon2id of 64 KiB" => key_of(alloc, password);
        "argon2id_with of 64 KiB" => key_with_secret(alloc, password);
    }
}

fn key_of(alloc: Global, password: &[u8]) -> Result<[u8; 32], Argon2Error> {
    let mut key = [0; 32];
    argon2id(alloc, password, b"somesalt", COST, &mut key)?;
    Ok(key)
}

fn key_with_secret(alloc: Global, password: &[u8]) -> Result<[u8; 32], Argon2Error> {
    let mut key = [0; 32];
    argon2id_with(
        alloc,
        password,
        b"somesalt",
        b"a secret",
        b"data",
        COST,
        &mut key,
    )?;
    Ok(key)
}
