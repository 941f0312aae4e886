//! The files of rows. A line is a name and fields, with a space between two of them; the name says
//! what the fields are.

use crate::error::RowError;
use crate::tally::Tally;
use crate::{p384, primitives, published, rsa, schemes, tokens};
use std::alloc::Global;

/// The kind of a file's rows.
#[derive(Clone, Copy)]
pub enum Rows {
    /// Calls of the primitives.
    Primitives,
    /// Local tokens.
    LocalTokens,
    /// The box of version 2, and Ed25519.
    Schemes,
    /// Messages that Ed25519 signed.
    SignInput,
    /// Signatures of version 3.
    P384,
    /// Keys and signatures of version 1.
    Rsa,
    /// Cases of Wycheproof for the box and the schemes.
    Wycheproof,
    /// Tokens that the PASETO specification publishes.
    Published,
}

impl Rows {
    /// The file that has the rows.
    pub fn file(self) -> &'static str {
        match self {
            Rows::Primitives => "primitives.txt",
            Rows::LocalTokens => "local_tokens.txt",
            Rows::Schemes => "schemes.txt",
            Rows::SignInput => "sign_input.txt",
            Rows::P384 => "p384.txt",
            Rows::Rsa => "rsa.txt",
            Rows::Wycheproof => "wycheproof.txt",
            Rows::Published => "published.txt",
        }
    }

    /// What is said of rows that agree.
    pub fn agreement(self) -> &'static str {
        match self {
            Rows::Primitives | Rows::Schemes | Rows::SignInput | Rows::P384 | Rows::Rsa => "rows",
            Rows::Wycheproof => "cases of Wycheproof",
            Rows::LocalTokens => "tokens sealed and opened",
            Rows::Published => "published tokens",
        }
    }

    /// Checks the row of a line, and counts it under its name where it agrees.
    pub fn check<'a>(
        self,
        alloc: Global,
        line: &'a str,
        tally: &mut Tally<'a>,
    ) -> Result<(), RowError> {
        let words: Vec<&str> = line.split(' ').collect(alloc)?;
        let [name, fields @ ..] = words.as_slice() else {
            return Err(RowError::Form);
        };
        self.check_fields(alloc, name, fields)?;
        tally.count(name)?;
        Ok(())
    }

    /// Checks a row by its name and its fields.
    fn check_fields(self, alloc: Global, name: &str, fields: &[&str]) -> Result<(), RowError> {
        match self {
            Rows::Primitives => primitives::check(alloc, name, fields),
            Rows::LocalTokens => tokens::check(alloc, name, fields),
            Rows::Schemes | Rows::SignInput => schemes::check(alloc, name, fields),
            Rows::P384 => p384::check(alloc, name, fields),
            Rows::Rsa => rsa::check(alloc, name, fields),
            Rows::Wycheproof => check_case(alloc, name, fields),
            Rows::Published => published::check(alloc, name, fields),
        }
    }
}

/// Checks a case of Wycheproof, which is a row of the box or of a scheme.
fn check_case(alloc: Global, name: &str, fields: &[&str]) -> Result<(), RowError> {
    match name {
        "p384_verified" | "p384_refused" => p384::check(alloc, name, fields),
        "rsa_verified" | "rsa_refused" => rsa::check(alloc, name, fields),
        _ => schemes::check(alloc, name, fields),
    }
}
