//! X25519 (RFC 7748, sections 5 and 6.1), by which two parties agree on a secret over a channel that others can read.
#![tactic(auto)]

mod agreement;
mod conversion;
mod ladder;
pub mod laws;

pub use agreement::{AgreementError, public_key, shared_secret, x25519};
pub use conversion::{ConversionError, public_from_ed25519, secret_from_ed25519};
