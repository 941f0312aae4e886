//! Ready-made validators for common checks of claims.
//!
//! Pass each in a `Box`, with the key that it checks:
//!
//! ```rust
//! use anyhow::Result;
//! use rusty_paseto::prelude::*;
//! use rusty_paseto::validators::AtMost;
//! use std::alloc::Global;
//!
//! /// Makes a parser refuse a token of more than eight seats.
//! pub fn limit_seats(alloc: Global, parser: &mut GenericParser<'_, V4, Local>) -> Result<()> {
//!     parser.validate_key("seats", Box::new(alloc, AtMost(8))?)?;
//!     Ok(())
//! }
//! ```
//!
//! If a key has a validator, only the validator checks it: a claim that is stored under the key is not compared. A
//! value that is absent or null is `Missing` with the key; one of another type than the validator's is `Unexpected`;
//! one that is not allowed is `CustomValidation`.
//!
//! To write your own validator, define a type, with its specification:
//!
//! ```rust
//! ghost use Rattle.test_doc_examples.specs.Even.{even};
//!
//! use rusty_paseto::prelude::*;
//! use serde_json::Value;
//! use std::alloc::Global;
//!
//! /// Lets an even number pass, and nothing else.
//! #[derive(Drop)]
//! pub struct Even;
//!
//! impl Validator for Even {
//!     ghost verdict = { λ _ key value. even key value };
//!
//!     fn validate(&self, alloc: Global, key: &str, value: &Value) -> Result<(), PasetoClaimError> {
//!         match value.as_u64() {
//!             Some(number) if number % 2 == 0 => Ok(()),
//!             _ => Err(PasetoClaimError::CustomValidation(String::from_str(alloc, key)?)),
//!         }
//!     }
//! }
//! ```
//!
//! Here `even` is a definition in `specs/` of the crate, which the first line imports:
//!
//! ```text
//! use Rattle.std.specs.Prelude.{◌%◌, ◌==◌, ℕ, List, if◌then◌else◌, Option, Some, None}
//! use Rattle.serde_json.specs.Data.{Data, number, unsigned}
//! use Rattle.rusty_paseto_claims.specs.Error.{Fault, custom_validation}
//!
//! abbrev pub even : List ℕ → Data → Option Fault
//! even key (number (unsigned n)) = if n % 2 == 0 then None else Some (custom_validation key)
//! even key other = Some (custom_validation key)
//! ```

mod lists;
mod numbers;
mod present;
mod refusing;
mod texts;

pub use lists::Holding;
pub use numbers::{AtLeast, AtMost, Within};
pub use present::Present;
pub use texts::{AtMostCharacters, BeginsWith, OneOf};
