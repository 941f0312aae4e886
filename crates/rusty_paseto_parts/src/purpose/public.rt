//! The purpose `public`.

ghost use Rattle.std.specs.Prelude.{codes, Some};

use crate::purpose::PurposeTrait;
use std::fmt;

/// Signatures: the private key signs, and the public key verifies.
#[derive(Clone, Copy, Debug, Default)]
pub struct Public;

impl PurposeTrait for Public {
    ghost text = { codes "public" };

    fn as_str(&self) -> &str {
        "public"
    }
}

impl fmt::Display for Public {
    ghost output = { λ _. Some (codes "public") };

    fn fmt<W: fmt::Write>(&self, f: &mut fmt::Formatter<W>) -> fmt::Result {
        f.write_str(self.as_str())
    }
}
