//! The calls of `bench_calls` for a C program that measures them (`bench/`), and for one that asks what the machine code
//! does with private keys (`tests/secrets.sh`): the exports of a static library.
//!
//! C passes a slice as a pointer, which is not null, and a length, and passes nothing for the allocator.
//!
//! ```c
//! uint8_t out[32];
//! uint64_t sum = paseto_bench_blake2b(key, 32, plain, plain_length, out, 32, 1000);
//! ```
#![tactic(auto)]

mod agreement;
mod boxed;
mod json;
mod key_texts;
mod p384;
mod passwords;
mod pem;
mod primitives;
mod protecting;
mod rsa;
mod schemes;
mod sealing;
mod secret_keys;
mod signed_v3;
mod tokens;
mod wrapping;

pub use agreement::paseto_bench_x25519;
pub use boxed::{
    paseto_bench_v2_open, paseto_bench_v2_seal, paseto_bench_xchacha20poly1305_open,
    paseto_bench_xchacha20poly1305_seal,
};
pub use json::paseto_bench_json_read;
pub use key_texts::{
    paseto_bench_read_local, paseto_bench_read_secret, paseto_bench_write_local,
    paseto_bench_write_secret,
};
pub use p384::{
    paseto_bench_p384_public_key, paseto_bench_p384_shared_secret, paseto_bench_p384_sign,
    paseto_bench_p384_verify,
};
pub use passwords::{paseto_bench_argon2id, paseto_bench_pbkdf2};
pub use pem::{paseto_bench_pem_read, paseto_bench_pem_read_contents, paseto_bench_pem_write};
pub use primitives::{
    paseto_bench_aes256_ctr, paseto_bench_blake2b, paseto_bench_hmac_sha384, paseto_bench_xchacha20,
};
pub use protecting::{paseto_bench_protect_local, paseto_bench_unprotect_local};
pub use rsa::{paseto_bench_rsa_sign, paseto_bench_rsa_verify, paseto_bench_rsa_verify_read};
pub use schemes::{
    paseto_bench_ed25519_public_key, paseto_bench_ed25519_sign, paseto_bench_ed25519_sign_with_key,
    paseto_bench_ed25519_verify, paseto_bench_v4_sign, paseto_bench_v4_verify,
};
pub use sealing::{paseto_bench_seal_key, paseto_bench_unseal_key};
pub use secret_keys::{
    paseto_bench_protect_secret, paseto_bench_unprotect_secret, paseto_bench_unwrap_secret,
    paseto_bench_wrap_secret,
};
pub use signed_v3::{paseto_bench_v3_sign, paseto_bench_v3_verify};
pub use tokens::{
    paseto_bench_v1_open, paseto_bench_v1_seal, paseto_bench_v3_open, paseto_bench_v3_seal,
    paseto_bench_v4_open, paseto_bench_v4_seal,
};
pub use wrapping::{paseto_bench_unwrap_local, paseto_bench_wrap_local};
