//! The keys that a default builder counts.

ghost use Rattle.std.specs.Prelude.{◌≡◌, Some, OnOk, OnErr, option_map, string_bytes};
ghost use Rattle.rusty_paseto.specs.PasetoBuilder.{IsSame, acknowledged, nothing_counted, not_counted};
ghost use Rattle.rusty_paseto.specs.Held.{counting};

use std::alloc::{AllocError, Global};
use std::collections::BTreeSet;

/// The keys that were set, and the last of them that was set again.
#[derive(Drop)]
pub(crate) struct Keys {
    counted: BTreeSet<String>,
    repeated: Option<String>,
}

impl Keys {
    /// No keys.
    pub(crate) fn new(alloc: Global) -> Self
        ensures { IsSame nothing_counted (counting result) }
    {
        Keys {
            counted: BTreeSet::new(alloc),
            repeated: None,
        }
    }

    /// Whether the key was counted.
    pub(crate) fn has(&self, key: &str) -> bool
        ensures { result ≡ (counting self.now).is_counted key.now }
    {
        self.counted.contains(key)
    }

    /// The last key that was set again.
    pub(crate) fn repeated(&self) -> Option<&str>
        ensures { option_map (λ key. key.now) result ≡ (counting self.now).repeated }
    {
        match &self.repeated {
            Some(key) => Some(key.as_str()),
            None => None,
        }
    }

    /// Counts the key.
    pub(crate) fn add(&mut self, key: String) -> Result<(), AllocError>
        ensures ok { OnOk result (IsSame (acknowledged (string_bytes key) (counting self.old))
            (counting self.new)) }
        ensures err { OnErr result (IsSame (counting self.old) (counting self.new)) }
    {
        self.counted.insert(key)?;
        Ok(())
    }

    /// Counts the key no more. Does not allocate.
    pub(crate) fn take_out(&mut self, key: &str)
        ensures { IsSame (not_counted key.now (counting self.old)) (counting self.new) }
    {
        self.counted.remove(key);
    }

    /// Makes the key the last that was set again. Does not allocate.
    pub(crate) fn repeat(&mut self, key: String)
        ensures { counting self.new ≡ record
            (counting self.old) { repeated = Some (string_bytes key) } }
    {
        self.repeated = Some(key);
    }
}
