//! Texts that are one of several, short, or begin in one way.

ghost use Rattle.std.specs.Prelude.{◌≡◌, ℕ, List, Bool, IfErr, IfOk, Some, bytes_eq, length, map, nat_eq, string_bytes};
ghost use Rattle.std.specs.List.{list_any, starts_with};
ghost use Rattle.std.specs.Str.{chars};
ghost use Rattle.rusty_paseto_generic.specs.Validator.{IfFault};
ghost use Rattle.serde_json.specs.View.{view};
ghost use Rattle.rusty_paseto.specs.Validators.{allowed, at_most_characters, begins_with, of_text, one_of};

use crate::validators::refusing::{allow, refuse};
use rusty_paseto_generic::{PasetoClaimError, Validator};
use serde_json::Value;
use std::alloc::{AllocError, Global};

/// Accepts a text that is one of these.
#[derive(Drop)]
pub struct OneOf {
    texts: Vec<String>,
}

impl OneOf {
    /// The validator that accepts these texts, which are copied.
    pub fn new(alloc: Global, texts: &[&str]) -> Result<OneOf, AllocError>
        ensures { IfOk result (λ made. map string_bytes made.texts.items
            ≡ map (λ text. text.now) texts.now) }
    {
        let mut copies = Vec::with_capacity(alloc, texts.len())?;
        for text in texts {
            copies.push(String::from_str(alloc, text)?)?;
        }
        Ok(OneOf { texts: copies })
    }
}

impl Validator for OneOf {
    ghost verdict = { λ several. one_of several.texts.items };

    fn validate(&self, alloc: Global, key: &str, value: &Value) -> Result<(), PasetoClaimError> {
        let text = text_in(alloc, key, value)?;
        allow(alloc, key, is_one_of(text, self.texts.as_slice()))
    }
}

/// Accepts a text with at most this many characters.
#[derive(Drop)]
pub struct AtMostCharacters(pub usize);

impl Validator for AtMostCharacters {
    ghost verdict = { λ bound. at_most_characters bound.0 };

    fn validate(&self, alloc: Global, key: &str, value: &Value) -> Result<(), PasetoClaimError> {
        let text = text_in(alloc, key, value)?;
        allow(alloc, key, character_count(text) <= self.0)
    }
}

/// Accepts a text that begins with this one.
#[derive(Drop)]
pub struct BeginsWith(pub String);

impl Validator for BeginsWith {
    ghost verdict = { λ beginning. begins_with (string_bytes beginning.0) };

    fn validate(&self, alloc: Global, key: &str, value: &Value) -> Result<(), PasetoClaimError> {
        let text = text_in(alloc, key, value)?;
        allow(alloc, key, begins_with(text, self.0.as_str()))
    }
}

// The text that a value is.
fn text_in<'v>(alloc: Global, key: &str, value: &'v Value) -> Result<&'v str, PasetoClaimError>
    ensures ok { IfOk result (λ text. (test : List ℕ → Bool) → of_text test key.now (view value.now)
        ≡ allowed (test text.now) key.now) }
    ensures err { IfErr result (IfFault (λ fault. (test : List ℕ → Bool)
        → of_text test key.now (view value.now) ≡ Some fault)) }
{
    match value.as_str() {
        Some(text) => Ok(text),
        None => Err(refuse(alloc, key, value)),
    }
}

// Whether the text is one of these.
fn is_one_of(text: &str, texts: &[String]) -> bool
    ensures { result ≡ list_any (λ other. bytes_eq text.now (string_bytes other)) texts.now }
{
    texts.iter().any(|other| text == other.as_str())
}

// Whether the text begins with the other.
fn begins_with(text: &str, beginning: &str) -> bool
    ensures { result ≡ starts_with nat_eq text.now beginning.now }
{
    text.as_bytes().starts_with(beginning.as_bytes())
}

// How many characters a text has.
fn character_count(text: &str) -> usize
    ensures { result ≡ length (chars text.now) }
{
    text.chars().count()
}
