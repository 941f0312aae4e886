//! Builders of tokens from claims.

mod errors;
mod every_kind;
mod local;
pub(crate) mod maps;
mod payloads;
mod public;
mod refusals;
