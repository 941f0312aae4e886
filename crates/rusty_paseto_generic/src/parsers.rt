//! Reading the claims of tokens, and checking them.

mod check_all;
mod check_entry;
mod checks;
mod generic_parser;
mod parsing;
mod setter;
mod stored;
mod times;

pub use generic_parser::{GenericParser, TokenParser};
pub use setter::CheckSetter;
