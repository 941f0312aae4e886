//! Rings of keys: a token's footer picks the key.

ghost use Rattle.std.specs.Prelude.{◌≡◌, ◌⊎◌, ℕ, List, length, map, true, false, Some, None, String, Err, IfOk, IfErr, OnOk, OnErr, MatchResult, is_some, option_map, string_bytes};
ghost use Rattle.rusty_paseto_parts.specs.Limit.{is_beyond};
ghost use Rattle.rusty_paseto_parts.specs.Section.{HasCount, sections};
ghost use Rattle.rusty_paseto_parts.specs.declared.error.PasetoError.TheVariants.{IncorrectSize, TooLong};
ghost use Rattle.std.specs.Map.Iter.{ShowsInOrder, deref};
ghost use Rattle.std.specs.Global.{Global};
ghost use Rattle.rusty_paseto.specs.Held.{ids_of, keys_of};
ghost use Rattle.rusty_paseto.specs.KeyRing.{AreSame, IsFindingFault, IsFound, IsKeyFault, IsMemory, Names, is_too_long, no_limits, with_key, without_key};
ghost use Rattle.rusty_paseto.specs.declared.error.KeyRingError.TheVariants.{Untrusted};

use crate::error::KeyRingError;
use crate::key_ring::limits::Limits;
use rusty_paseto_core::{
    Local, PasetoAsymmetricPublicKey, PasetoError, PasetoSymmetricKey, Public, PublicKey,
};
use rusty_paseto_parts::is_longer;
use std::alloc::{AllocError, Global};
use std::collections::BTreeMap;
use std::collections::btree_map::Keys;

mod boxed;
mod claims;
mod limits;
mod local;
mod naming;
mod opened;
mod owned;
mod public;

pub use naming::{footer_of, key_footer, key_id};

/// The keys of local tokens of a version by their ids: a [`Ring`] that opens them.
///
/// ```rust
/// use anyhow::Result;
/// use jiff::Timestamp;
/// use rusty_paseto::prelude::*;
/// use serde_json::Value;
/// use std::alloc::Global;
///
/// /// The id of the key that the token's footer `{"kid":"2026-11"}` names, and the claims.
/// pub fn admit(
///     alloc: Global,
///     now: Timestamp,
///     token: &str,
///     key: PasetoSymmetricKey<V4, Local>,
/// ) -> Result<(String, Value)> {
///     let mut ring = KeyRing::<V4>::new(alloc);
///     ring.add("2026-11", key)?;
///     Ok(ring.parse(&PasetoParser::default(alloc, now)?, token)?)
/// }
/// ```
pub type KeyRing<V> = Ring<PasetoSymmetricKey<V, Local>>;

/// The public keys of a version by their ids: a [`Ring`] that verifies public tokens. The ring borrows the bytes of the
/// keys.
///
/// ```rust
/// use anyhow::Result;
/// use jiff::Timestamp;
/// use paseto_ed25519::Ed25519;
/// use rusty_paseto::prelude::*;
/// use serde_json::Value;
/// use std::alloc::Global;
///
/// /// The id of the key that the token's footer `{"kid":"2026-11"}` names, and the claims.
/// pub fn admit(
///     alloc: Global,
///     now: Timestamp,
///     token: &str,
///     public: &Key<32>,
/// ) -> Result<(String, Value)> {
///     let mut ring = PublicKeyRing::<V4>::new(alloc);
///     ring.add("2026-11", PasetoAsymmetricPublicKey::from(public))?;
///     Ok(ring.parse(&Ed25519, &PasetoParser::default(alloc, now)?, token)?)
/// }
/// ```
pub type PublicKeyRing<'a, V> = Ring<PasetoAsymmetricPublicKey<'a, V, Public>>;

/// The public keys of a version by their ids: a [`Ring`] that verifies public tokens and owns the bytes of its keys. It
/// has `parse` and `parse_by`.
///
/// ```rust
/// use anyhow::Result;
/// use jiff::Timestamp;
/// use paseto_ed25519::Ed25519;
/// use rusty_paseto::prelude::*;
/// use rusty_paseto_paserk::public_key_from_paserk;
/// use serde_json::Value;
/// use std::alloc::Global;
///
/// /// The ring of the keys of these ids and texts, as `k4.public...`.
/// pub fn ring_of(alloc: Global, lines: &[(&str, &str)]) -> Result<OwnedPublicKeyRing<V4>> {
///     let mut ring = OwnedPublicKeyRing::<V4>::new(alloc);
///     for (id, text) in lines {
///         ring.add(id, public_key_from_paserk(alloc, text)?)?;
///     }
///     Ok(ring)
/// }
///
/// /// The id of the key that the token's footer names, and the claims.
/// pub fn admit(
///     alloc: Global,
///     now: Timestamp,
///     ring: &OwnedPublicKeyRing<V4>,
///     token: &str,
/// ) -> Result<(String, Value)> {
///     Ok(ring.parse(&Ed25519, &PasetoParser::default(alloc, now)?, token)?)
/// }
/// ```
pub type OwnedPublicKeyRing<V> = Ring<PublicKey<V>>;

/// Keys by their ids. A token's footer names the key that opens it: the footer is a JSON object with the id under
/// `kid`, as `key_footer` makes it.
///
/// `open` and `verify` check no claims: they also return the text of an expired token. `parse` returns the claims if
/// they pass a parser's checks.
///
/// To rotate keys, add the new key beside the old one, and encrypt with the new one and its id in the footer. Tokens of
/// both keys open until you remove the old key from the ring.
///
/// The footer is untrusted until the token is opened. It picks one key of this ring, and the token must open under that
/// key with exactly that footer; no other key is tried. Ids are compared by their bytes. A service on the internet
/// should call `set_longest` and `set_longest_footer`, since a ring reads a footer before it is authenticated.
#[derive(Drop)]
pub struct Ring<K> {
    alloc: Global,
    keys: BTreeMap<String, K>,
    limits: Limits,
}

// What was found of a token in a ring.
#[derive(Drop)]
struct Found<'r, K> {
    // The footer as it stands in the token.
    footer: String,
    // The id that the footer names, and its key.
    id: String,
    key: &'r K,
}

impl<K: Drop> Ring<K> {
    /// A ring without keys and limits. It allocates with `alloc`, but not yet.
    pub fn new(alloc: Global) -> Self
        ensures keys { AreSame (keys_of result) (λ id. None) }
        ensures limits { result.limits ≡ no_limits }
    {
        Ring {
            alloc,
            keys: BTreeMap::new(alloc),
            limits: Limits::none(),
        }
    }

    /// Sets how many bytes a token may have, and changes nothing else. A longer one is refused with `Untrusted` of
    /// `TooLong`, before any of it is decoded. There is no limit until you set one; if a parser has one too, both
    /// apply. Does not allocate.
    ///
    /// ```rust
    /// use rusty_paseto::prelude::*;
    /// use std::alloc::Global;
    ///
    /// /// A ring for a service on the open net, which reads no token of more than 64 KiB, and no footer of more than 1 KiB.
    /// pub fn open_ring(alloc: Global) -> KeyRing<V4> {
    ///     let mut ring = KeyRing::<V4>::new(alloc);
    ///     ring.set_longest(65_536).set_longest_footer(1_024);
    ///     ring
    /// }
    /// ```
    pub fn set_longest(&mut self, bytes: usize) -> &mut Self
        ensures lent { result.ghost_name ≡ self.entry.ghost_name }
        ensures change { result.now ≡ record self.entry.now
            { limits = record self.entry.now.limits { token = Some bytes } } }
    {
        self.limits.token = Some(bytes);
        self
    }

    /// Sets how many bytes the footer of a token may have, and changes nothing else. A longer one is refused like a
    /// longer token: the length of its section determines its length before it is decoded. There is no limit until you
    /// set one. Does not allocate.
    pub fn set_longest_footer(&mut self, bytes: usize) -> &mut Self
        ensures lent { result.ghost_name ≡ self.entry.ghost_name }
        ensures change { result.now ≡ record self.entry.now
            { limits = record self.entry.now.limits { footer = Some bytes } } }
    {
        self.limits.footer = Some(bytes);
        self
    }

    /// Adds a key under an id. If the id has a key, the new key replaces it.
    ///
    /// It fails only if an allocation fails, and the ring is then unchanged.
    pub fn add(&mut self, id: &str, key: K) -> Result<(), KeyRingError>
        ensures ok { OnOk result (AreSame (keys_of self.new)
            (with_key id.now key (keys_of self.old))) }
        ensures err { OnErr result (AreSame (keys_of self.new) (keys_of self.old)) }
        ensures limits { self.new.limits ≡ self.old.limits }
        ensures fault { IfErr result IsMemory }
    {
        self.put(String::from_str(self.alloc, id)?, key)?;
        Ok(())
    }

    /// Removes the key of an id, and returns whether there was one. The other keys stay; tokens under the removed key
    /// are refused from then on. Does not allocate.
    pub fn remove(&mut self, id: &str) -> bool
        ensures change { AreSame (keys_of self.new) (without_key id.now (keys_of self.old)) }
        ensures found { result ≡ is_some (keys_of self.old id.now) }
        ensures limits { self.new.limits ≡ self.old.limits }
    {
        self.keys.remove(id).is_some()
    }

    /// The key of an id, for example to encrypt with it. Does not allocate.
    pub fn key(&self, id: &str) -> Option<&K>
        ensures { option_map (λ key. key.now) result ≡ keys_of self.now id.now }
    {
        self.keys.get(id)
    }

    /// The ids of the keys, in the order of their bytes. Does not allocate.
    pub fn ids(&self) -> Keys<'_, String, K>
        ensures ids { map string_bytes result ≡ ids_of self.now }
        ensures runs { ShowsInOrder (deref {X = String Global}) }
    {
        self.keys.keys()
    }

    /// The number of keys. Does not allocate.
    pub fn len(&self) -> usize
        ensures { result ≡ length (ids_of self.now) }
    {
        self.keys.len()
    }

    /// The key that a footer names, to parse the token with it: get the footer with `Footer::try_from_token`, and set
    /// the same footer in the parser. `parse` does all of this.
    ///
    /// Otherwise it returns the first of these errors: `Untrusted` of `TooLong` for a footer beyond the limit for
    /// footers, if one was set; `NotAnObject`; `NoKeyId`; `UnknownKey` with the id. `Memory` may be returned in place
    /// of any result but the first.
    pub fn key_of(&self, footer: &str) -> Result<&K, KeyRingError>
        ensures ok { IfOk result (λ key. (id : List ℕ) × Names footer.now id
            × (keys_of self.now id ≡ Some key.now)) }
        ensures long { is_beyond self.now.limits.footer (length footer.now) ≡ true
            → result ≡ Err (Untrusted TooLong) }
        ensures err { is_beyond self.now.limits.footer (length footer.now) ≡ false
            → IfErr result (λ error. IsMemory error
            ⊎ IsKeyFault (keys_of self.now) footer.now error) }
    {
        if is_longer(footer, self.limits.footer) {
            return Err(KeyRingError::Untrusted(PasetoError::TooLong));
        }
        let id = key_id(self.alloc, footer)?;
        match self.keys.get(id.as_str()) {
            Some(key) => Ok(key),
            None => Err(KeyRingError::UnknownKey(id)),
        }
    }

    // Puts a key under the id that is handed in.
    fn put(&mut self, id: String, key: K) -> Result<(), AllocError>
        ensures ok { OnOk result (AreSame (keys_of self.new)
            (with_key (string_bytes id) key (keys_of self.old))) }
        ensures err { OnErr result (AreSame (keys_of self.new) (keys_of self.old)) }
        ensures limits { self.new.limits ≡ self.old.limits }
    {
        drop(self.keys.insert(id, key)?);
        Ok(())
    }

    // Refuses a token that is beyond the ring's limits, or beyond that of a parser.
    fn admit(&self, token: &str, longest: Option<usize>) -> Result<(), KeyRingError>
        ensures ok { OnOk result (is_too_long longest self.now.limits token.now ≡ false) }
        ensures err { IfErr result (λ error. (error ≡ Untrusted TooLong)
            × (is_too_long longest self.now.limits token.now ≡ true)) }
    {
        if self.limits.are_exceeded(token, longest) {
            return Err(KeyRingError::Untrusted(PasetoError::TooLong));
        }
        Ok(())
    }

    // The footer of a token, the id that it names, and the id's key: before any of it can be trusted.
    fn find(&self, token: &str) -> Result<Found<'_, K>, KeyRingError>
        ensures ok { IfOk result (λ found. IsFound (keys_of self.now) token.now
            (string_bytes found.footer) (string_bytes found.id) found.key.now) }
        ensures complete { (footer id : List ℕ) (key : K)
            → IsFound (keys_of self.now) token.now footer id key
            → MatchResult result (λ found. (string_bytes found.footer ≡ footer)
            × (string_bytes found.id ≡ id) × (found.key.now ≡ key)) IsMemory }
        ensures count { ¬ HasCount (sections token.now) → result ≡ Err (Untrusted IncorrectSize) }
        ensures err { IfErr result (λ error. IsMemory error
            ⊎ IsFindingFault (keys_of self.now) token.now error) }
    {
        let footer = footer_of(self.alloc, token)?;
        let id = key_id(self.alloc, footer.as_str())?;
        match self.keys.get(id.as_str()) {
            Some(key) => Ok(Found { footer, id, key }),
            None => Err(KeyRingError::UnknownKey(id)),
        }
    }
}
