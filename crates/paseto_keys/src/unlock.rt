//! The keys of key files.

ghost use Rattle.paseto_keys.specs.Line.{GivesKey};
ghost use Rattle.paseto_keys.specs.Unlock.{IsUnlockFault, UnlocksKey};

use crate::any_key::AnyKey;
use paseto_key_files::{KeyFileError, Openers, unlock};
use std::alloc::Global;

impl AnyKey {
    /// The key of a key file, whatever its form: PASERK, PEM, under a password, wrapped or sealed.
    ///
    /// The errors are those of `unlock` of `paseto_key_files`, and of `from_line` for what is not locked.
    ///
    /// Source: PASERK specification; RFC 7468.
    pub fn unlock(alloc: Global, openers: &Openers<'_>, text: &str) -> Result<AnyKey, KeyFileError>
        ensures { GivesKey (UnlocksKey openers.now text.now) (IsUnlockFault openers.now text.now) result }
    {
        match unlock(alloc, openers, text) {
            Ok(line) => AnyKey::from_line(alloc, line.as_str()),
            Err(error) => Err(error),
        }
    }
}
