//! Sealing, opening, signing, verifying, wrapping keys and the primitives, each many times over, as functions:
//! `test_bench` exports a call for each of them to C.
//!
//! The loop over the repetitions stands on this side of the call, so that what is measured is what a program in this
//! language pays. Something of each repetition goes into the next one or into the answer, so that a compiler can leave
//! none out.
#![tactic(auto)]

mod agreement;
mod boxed;
mod copying;
mod json;
mod key_texts;
mod p384;
mod passwords;
mod pem;
mod primitives;
mod protecting;
mod rsa;
mod schemes;
mod sealing;
mod secret_keys;
mod signed_v3;
mod tokens;
mod versions;
mod wrapping;

pub use agreement::bench_x25519;
pub use boxed::{
    bench_v2_open, bench_v2_seal, bench_xchacha20poly1305_open, bench_xchacha20poly1305_seal,
};
pub use json::bench_json_read;
pub use key_texts::{bench_read_local, bench_read_secret, bench_write_local, bench_write_secret};
pub use p384::{
    bench_p384_public_key, bench_p384_shared_secret, bench_p384_sign, bench_p384_verify,
};
pub use passwords::{bench_argon2id, bench_pbkdf2};
pub use pem::{bench_pem_read, bench_pem_read_contents, bench_pem_write};
pub use primitives::{bench_aes256_ctr, bench_blake2b, bench_hmac_sha384, bench_xchacha20};
pub use protecting::{bench_protect_local, bench_unprotect_local};
pub use rsa::{bench_rsa_sign, bench_rsa_verify, bench_rsa_verify_read};
pub use schemes::{
    bench_ed25519_public_key, bench_ed25519_sign, bench_ed25519_sign_with_key,
    bench_ed25519_verify, bench_v4_sign, bench_v4_verify,
};
pub use sealing::{bench_seal_key, bench_unseal_key};
pub use secret_keys::{
    bench_protect_secret, bench_unprotect_secret, bench_unwrap_secret, bench_wrap_secret,
};
pub use signed_v3::{bench_v3_sign, bench_v3_verify};
pub use tokens::{
    bench_v1_open, bench_v1_seal, bench_v3_open, bench_v3_seal, bench_v4_open, bench_v4_seal,
};
pub use wrapping::{bench_unwrap_local, bench_wrap_local};
