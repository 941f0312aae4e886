//! The purposes of tokens, as types.

ghost use Rattle.std.specs.Prelude.{◌≡◌, ℕ, List};

use std::fmt::Display;

pub mod local;
pub mod public;

/// What a token is for.
pub trait PurposeTrait: Display + Default + Drop {
    // The text of the purpose, as it stands in a token.
    ghost text: { List ℕ };

    /// The purpose as it is written in a token, for example `local`.
    fn as_str(&self) -> &str
        ensures { result.now ≡ text };
}
