//! Claims, and keys that a generator gives.

mod custom;
mod dates;
mod errors;
mod generated_keys;
pub(crate) mod json;
mod long_texts;
mod same;
mod texts;
mod values;
mod whole;
