//! The four claims that may be any text.

ghost use Rattle.std.specs.Prelude.{◌≡◌, []};
ghost use Rattle.serde_json.specs.Data.{string};
ghost use Rattle.rusty_paseto_claims.specs.Claim.{gives, one_member};
ghost use Rattle.rusty_paseto_claims.specs.TextClaim.{claim_text};

use crate::claim::{PasetoClaim, to_object};
use crate::error::PasetoClaimError;
use crate::reserved::{Audience, Issuer, ReservedKey, Subject, TokenIdentifier};
use serde_json::Value;
use std::alloc::Global;
use std::marker::PhantomData;

/// Whom a token is for, under the key `aud`.
pub type AudienceClaim<'a> = TextClaim<'a, Audience>;

/// Who issued a token, under the key `iss`.
pub type IssuerClaim<'a> = TextClaim<'a, Issuer>;

/// Whom a token is about, under the key `sub`.
pub type SubjectClaim<'a> = TextClaim<'a, Subject>;

/// A token's identifier, under the key `jti`.
pub type TokenIdentifierClaim<'a> = TextClaim<'a, TokenIdentifier>;

/// A claim under a reserved key whose value is a text, which is borrowed.
#[derive_where(Clone, Copy, Debug)]
pub struct TextClaim<'a, K> {
    text: &'a str,
    key: PhantomData<K>,
}

impl<'a, K: ReservedKey> TextClaim<'a, K> {
    /// The key and the text.
    pub fn as_pair(&self) -> (&str, &str)
        ensures key { result.0.now ≡ K.key }
        ensures text { result.1.now ≡ claim_text self.now }
    {
        (K::text(), self.text)
    }
}

impl<'a, K> From<&'a str> for TextClaim<'a, K> {
    ghost from_gives = { λ text claim. claim_text claim ≡ text.now };

    fn from(text: &'a str) -> Self {
        TextClaim {
            text,
            key: PhantomData,
        }
    }
}

impl<'a, K> Default for TextClaim<'a, K> {
    ghost is_default = { λ claim. claim_text claim ≡ [] };

    fn default() -> Self {
        TextClaim {
            text: "",
            key: PhantomData,
        }
    }
}

impl<'a, K: ReservedKey> PasetoClaim for TextClaim<'a, K> {
    ghost key = { λ _. K.key };

    ghost json = { λ claim. gives (one_member K.key (string (claim_text claim))) };

    fn get_key(&self) -> &str {
        K::text()
    }

    fn to_json(&self, alloc: Global) -> Result<Value, PasetoClaimError> {
        let text = Value::try_from_str(alloc, self.text)?;
        to_object(alloc, K::text(), text)
    }
}
