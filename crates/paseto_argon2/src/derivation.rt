//! Argon2id (RFC 9106).

ghost use Rattle.std.specs.Prelude.{◌≡◌, ◌<◌, ◌≤◌, ◌^◌, ◌*◌, ◌++◌, List, ℕ, [], None, IfErr, IfOk, OnErr, length};
ghost use Rattle.rusty_paseto_primitives.specs.Blake2.Hasher.{Holds, output_length};
ghost use Rattle.paseto_argon2.specs.Derivation.{argon2id, seed, setting};
ghost use Rattle.paseto_argon2.specs.Allowed.{IsRefusal, fault};
ghost use Rattle.paseto_argon2.specs.Settings.{setting_of};
ghost use Rattle.paseto_argon2.specs.VariableHash.{le32};

use crate::allowed::{Parameters, fault};
use crate::error::Argon2Error;
use crate::filling::Filling;
use crate::variable_hash::variable_hash;
use rusty_paseto_primitives::Blake2b;
use std::alloc::Global;

// The version of Argon2 that RFC 9106 describes.
const VERSION: u32 = 0x13;

// The type of Argon2 that Argon2id is.
const TYPE: u32 = 2;

/// Fills `output` with the key that Argon2id derives from a password and a salt. The same as `argon2id_with` with an
/// empty secret and empty associated data.
pub fn argon2id(
    alloc: Global,
    password: &[u8],
    salt: &[u8],
    parameters: Parameters,
    output: &mut [u8],
) -> Result<(), Argon2Error>
    ensures ok { IfOk result
        (λ _. (fault (length password.now) (length salt.now) 0 0 parameters (length output.old) ≡ None)
        × (output.new ≡ argon2id password.now salt.now [] [] parameters (length output.old))) }
    ensures err { IfErr result (λ error. IsRefusal
        (fault (length password.now) (length salt.now) 0 0 parameters (length output.old)) error) }
    ensures unchanged { OnErr result (output.new ≡ output.old) }
{
    argon2id_with(alloc, password, salt, &[], &[], parameters, output)
}

/// Fills `output` with the key that Argon2id derives from a password, a salt, a secret that is stored separately from
/// both, and associated data.
///
/// The salt has at least 8 bytes, best 16 random ones for each password; the secret and the associated data may be
/// empty. The output has at least 4 bytes. It allocates as much memory as the parameters say, and frees it without
/// wiping it. One thread fills it. From the second half of the first pass on, the positions that are read depend on the
/// password.
///
/// Arguments that are not allowed give an `Argon2Error`, and a failed allocation gives `Memory`. On an error the output
/// is unchanged. Untrusted parameters may demand all memory, and take hours: compare them with your own bounds first.
///
/// Source: RFC 9106, section 3.
pub fn argon2id_with(
    alloc: Global,
    password: &[u8],
    salt: &[u8],
    secret: &[u8],
    associated_data: &[u8],
    parameters: Parameters,
    output: &mut [u8],
) -> Result<(), Argon2Error>
    ensures ok { IfOk result
        (λ _. (fault (length password.now) (length salt.now) (length secret.now) (length associated_data.now)
        parameters (length output.old) ≡ None)
        × (output.new ≡ argon2id password.now salt.now secret.now associated_data.now parameters (length output.old))) }
    ensures err { IfErr result (λ error. IsRefusal (fault (length password.now) (length salt.now) (length secret.now)
        (length associated_data.now) parameters (length output.old)) error) }
    ensures unchanged { OnErr result (output.new ≡ output.old) }
{
    if let Some(error) = fault(password, salt, secret, associated_data, parameters, output) {
        return Err(error);
    }
    let seed = seed(
        password,
        salt,
        secret,
        associated_data,
        parameters,
        output.len() as u32,
    );
    let filling = filling_of(seed, parameters);
    let bytes = filling.final_bytes(alloc)?;
    variable_hash(&bytes, &[], output);
    Ok(())
}

// What the filling of the memory depends on.
fn filling_of(seed: [u8; 64], parameters: Parameters) -> Filling
    requires some_lane { 1 ≤ parameters.lanes }
    requires lanes { parameters.lanes < 2 ^ 24 }
    requires memory { 8 * parameters.lanes ≤ parameters.memory }
    ensures { setting_of result ≡ setting seed parameters }
{
    let lanes = parameters.lanes as usize;
    Filling {
        seed,
        lanes,
        segment: parameters.memory as usize / (4 * lanes),
        passes: parameters.passes as usize,
    }
}

// H_0 (section 3.2).
fn seed(
    password: &[u8],
    salt: &[u8],
    secret: &[u8],
    associated_data: &[u8],
    parameters: Parameters,
    output_len: u32,
) -> [u8; 64]
    requires password { length password.now < 2 ^ 32 }
    requires salt { length salt.now < 2 ^ 32 }
    requires secret { length secret.now < 2 ^ 32 }
    requires associated_data { length associated_data.now < 2 ^ 32 }
    ensures { result ≡ seed password.now salt.now secret.now associated_data.now parameters output_len }
{
    let mut hasher = Blake2b::new(&[], 64);
    hasher.update(&parameters.lanes.to_le_bytes());
    hasher.update(&output_len.to_le_bytes());
    hasher.update(&parameters.memory.to_le_bytes());
    hasher.update(&parameters.passes.to_le_bytes());
    hasher.update(&VERSION.to_le_bytes());
    hasher.update(&TYPE.to_le_bytes());
    update_with_length(&mut hasher, password);
    update_with_length(&mut hasher, salt);
    update_with_length(&mut hasher, secret);
    update_with_length(&mut hasher, associated_data);
    let mut seed = [0; 64];
    hasher.finalize_into(&mut seed);
    seed
}

// Adds the length of bytes to the message, and the bytes.
fn update_with_length(hasher: &mut Blake2b, bytes: &[u8])
    requires { length bytes.now < 2 ^ 32 }
    ensures message { (message : List ℕ) → Holds hasher.old [] 64 message
        → Holds hasher.new [] 64 (message ++ le32 (length bytes.now) ++ bytes.now) }
    ensures output_len { output_length hasher.new ≡ output_length hasher.old }
{
    hasher.update(&(bytes.len() as u32).to_le_bytes());
    hasher.update(bytes);
}
