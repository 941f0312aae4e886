//! PASETO tokens for programs in C: the exports of a static library. What each of them does stands in `paseto_calls`.
//!
//! Each export calls the library once and returns a status, a text in the caller's buffer, and its length. The header
//! `c/paseto.h` declares them. C passes a slice as a pointer and a length, and passes nothing for the allocator. No
//! export has a precondition.
//!
//! ```c
//! uint8_t token[256];
//! size_t written;
//! paseto_status status = paseto_encrypt_with(&key, drawn, 32, text, text_length, NULL, 0, NULL, 0, token, 256, &written,
//!                                            PASETO_NO_REASON);
//! ```
#![tactic(auto)]

mod claims;
mod error_text;
mod keys;
mod tokens;
mod version;

pub use claims::{paseto_admit, paseto_admit_by, paseto_issue_with};
pub use error_text::paseto_error_text;
pub use keys::{
    paseto_key_generate_with, paseto_key_id, paseto_key_pem, paseto_key_protect_with,
    paseto_key_public, paseto_key_read, paseto_key_seal_with, paseto_key_text, paseto_key_unlock,
    paseto_key_unwrap, paseto_key_wipe, paseto_key_wrap_with,
};
pub use tokens::{
    paseto_decrypt, paseto_encrypt_with, paseto_sign_with, paseto_token_footer, paseto_verify,
};
pub use version::paseto_version;
