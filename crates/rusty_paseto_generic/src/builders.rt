//! Building tokens from claims.

mod claims;
mod generic_builder;
mod merging;
mod setter;

pub use generic_builder::{GenericBuilder, GenericLocalVersion};
pub use setter::ClaimSetter;
