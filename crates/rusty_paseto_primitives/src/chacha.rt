//! ChaCha20, HChaCha20 and XChaCha20 (RFC 8439, draft-irtf-cfrg-xchacha).

mod block;
mod lanes;
mod rows;
mod stream;
mod subkey;
mod vectors;

pub use block::{chacha20_block, quarter_round};
pub use stream::{xchacha20_apply, xchacha20_apply_from};
pub use subkey::hchacha20;
