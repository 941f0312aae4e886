//! The purpose `local`.

ghost use Rattle.std.specs.Prelude.{codes, Some};

use crate::purpose::PurposeTrait;
use std::fmt;

/// Symmetric encryption: the same key encrypts and decrypts.
#[derive(Clone, Copy, Debug, Default)]
pub struct Local;

impl PurposeTrait for Local {
    ghost text = { codes "local" };

    fn as_str(&self) -> &str {
        "local"
    }
}

impl fmt::Display for Local {
    ghost output = { λ _. Some (codes "local") };

    fn fmt<W: fmt::Write>(&self, f: &mut fmt::Formatter<W>) -> fmt::Result {
        f.write_str(self.as_str())
    }
}
