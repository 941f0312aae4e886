//! The three claims that are a date and time.

ghost use Rattle.std.specs.Prelude.{◌≡◌, ◌↔◌, ◌⊎◌, ℕ, List, Ok, codes, string_bytes, IsTrue, IfOk, IfErr, OnOk};
ghost use Rattle.jiff.specs.Words.{parse_timestamp};
ghost use Rattle.serde_json.specs.Data.{string};
ghost use Rattle.rusty_paseto_claims.specs.Claim.{gives, one_member};
ghost use Rattle.rusty_paseto_claims.specs.DateClaim.{IsDate, IsDateAtOnce, IsDateOf, IsUnfitMoment};
ghost use Rattle.rusty_paseto_claims.specs.Error.{IsMemory};
ghost use Rattle.rusty_paseto_claims.specs.Moment.{HasShortYear, IsMomentText};

use crate::claim::{PasetoClaim, to_object};
use crate::error::PasetoClaimError;
use crate::moment::{has_short_year, moment_text};
use crate::reserved::{Expiration, IssuedAt, NotBefore, ReservedKey};
use jiff::Timestamp;
use serde_json::Value;
use std::alloc::Global;
use std::marker::{Model, PhantomData};

/// When a token expires, under the key `exp`.
pub type ExpirationClaim = DateClaim<Expiration>;

/// When a token was issued, under the key `iat`.
pub type IssuedAtClaim = DateClaim<IssuedAt>;

/// From when on a token may be used, under the key `nbf`.
pub type NotBeforeClaim = DateClaim<NotBefore>;

/// A claim under a reserved key whose value is a text that `jiff` reads as an instant. The text is kept
/// as it was given.
///
/// Source: PASETO specification, "Claims"; RFC 3339, section 5.6.
#[derive(Drop)]
pub struct DateClaim<K> {
    text: String,
    key: PhantomData<K>,
}

impl<K> Model for DateClaim<K> {
    ghost Value = { List ℕ };

    ghost view = { λ claim. string_bytes claim.text };

    ghost invariant = { λ claim. IsDate (string_bytes claim.text) };
}

impl<K: ReservedKey> DateClaim<K> {
    /// The claim with this text, which is copied.
    ///
    /// `RFC3339Date` with the text is returned if and only if `jiff` reads no `Timestamp` from it.
    pub fn try_from_str(alloc: Global, text: &str) -> Result<Self, PasetoClaimError>
        ensures { IsDateOf text.now result }
    {
        DateClaim::try_from_string(alloc, String::from_str(alloc, text)?)
    }

    /// The claim with this text. Does not allocate.
    ///
    /// `RFC3339Date` with the text is returned if and only if `jiff` reads no `Timestamp` from it.
    pub fn try_from_string(_alloc: Global, text: String) -> Result<Self, PasetoClaimError>
        ensures { IsDateAtOnce (string_bytes text) result }
    {
        if !is_date(text.as_str()) {
            return Err(PasetoClaimError::RFC3339Date(text));
        }
        Ok(DateClaim {
            text,
            key: PhantomData,
        })
    }

    /// The claim for a moment, with the text of `moment_text`: `2026-11-25T12:00:00Z`. It is read back as the same
    /// moment.
    ///
    /// `RFC3339Date` with the moment's text is returned if and only if its year in UTC is before 0, unless an
    /// allocation fails.
    ///
    /// ```rust
    /// use anyhow::Result;
    /// use jiff::Timestamp;
    /// use rusty_paseto::prelude::*;
    /// use std::alloc::Global;
    ///
    /// /// When a session ends that begins now and lasts a day.
    /// pub fn end_of_session(alloc: Global, now: Timestamp) -> Result<ExpirationClaim> {
    ///     let end = Timestamp::from_second(now.as_second().saturating_add(86_400))?;
    ///     Ok(ExpirationClaim::at(alloc, end)?)
    /// }
    /// ```
    pub fn at(alloc: Global, moment: Timestamp) -> Result<Self, PasetoClaimError>
        ensures text { IfOk result (IsMomentText moment.nanosecond) }
        ensures read { IfOk result (λ claim. parse_timestamp claim ≡ Ok moment.nanosecond) }
        ensures year { OnOk result (HasShortYear moment.nanosecond) }
        ensures err { IfErr result (λ error. IsMemory error ⊎ IsUnfitMoment moment error) }
    {
        let text = moment_text(alloc, moment)?;
        if !has_short_year(moment) {
            return Err(PasetoClaimError::RFC3339Date(text));
        }
        Ok(DateClaim {
            text,
            key: PhantomData,
        })
    }

    /// The claim with the text `2019-01-01T00:00:00+00:00`. It fails only if an allocation fails.
    #[tactic(auto, using(crate::proofs::DateLemmas::default_date))]
    pub fn default(alloc: Global) -> Result<Self, PasetoClaimError>
        ensures ok { IfOk result (λ claim. claim ≡ codes "2019-01-01T00:00:00+00:00") }
        ensures err { IfErr result IsMemory }
    {
        Ok(DateClaim {
            text: String::from_str(alloc, "2019-01-01T00:00:00+00:00")?,
            key: PhantomData,
        })
    }

    /// A claim with the same text. It fails only if an allocation fails.
    pub fn try_clone(&self, _alloc: Global) -> Result<Self, PasetoClaimError>
        ensures ok { IfOk result (λ claim. claim ≡ self.now) }
        ensures err { IfErr result IsMemory }
    {
        Ok(DateClaim {
            text: self.text.clone()?,
            key: PhantomData,
        })
    }

    /// The key and the text.
    pub fn as_pair(&self) -> (&str, &str)
        ensures key { result.0.now ≡ K.key }
        ensures text { result.1.now ≡ self.now }
        ensures date { IsDate self.now }
    {
        (K::text(), self.text.as_str())
    }
}

impl<K: ReservedKey> PasetoClaim for DateClaim<K> {
    ghost key = { λ _. K.key };

    ghost json = { λ claim. gives (one_member K.key (string claim)) };

    fn get_key(&self) -> &str {
        K::text()
    }

    fn to_json(&self, alloc: Global) -> Result<Value, PasetoClaimError> {
        let text = Value::try_from_str(alloc, self.text.as_str())?;
        to_object(alloc, K::text(), text)
    }
}

/// Whether `jiff` reads an instant from the text.
fn is_date(text: &str) -> bool
    ensures { IsTrue result ↔ IsDate text.now }
{
    text.parse::<Timestamp>().is_ok()
}
