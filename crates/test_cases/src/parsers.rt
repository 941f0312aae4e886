//! Parsers of tokens.

mod errors;
mod footers;
mod generated;
mod kinds;
mod limits;
mod nesting;
mod refusals;
mod rows;
pub(crate) mod steps;
mod validators;
