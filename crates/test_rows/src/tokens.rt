//! Rows of local tokens: each is sealed to the token, and the token opened to the text.

ghost use Rattle.std.specs.Prelude.{◌≡◌, None, IfOk, false, is_some};
ghost use Rattle.std.specs.String.{string_bytes};
ghost use Rattle.rusty_paseto_core.specs.Context.{assertion_of, footer_of};
ghost use Rattle.rusty_paseto_core.specs.Local.Opening.{opening};
ghost use Rattle.rusty_paseto_core.specs.Reading.{IsRead};
ghost use Rattle.test_rows.specs.Tokens.{IsTokenRow, binding, footer_in, sealing_in};

use crate::error::RowError;
use crate::fields::{array_of, text_of};
use rusty_paseto_core::{
    Footer, ImplicitAssertion, Key, Local, LocalVersion, PasetoNonce, PasetoSymmetricKey, Payload,
    V1, V3, V4,
};
use std::alloc::Global;

/// `KEY NONCE TEXT FOOTER ASSERTION TOKEN`
#[derive(Drop)]
struct Row<'a> {
    key: [u8; 32],
    nonce: [u8; 32],
    text: String,
    footer: Option<String>,
    assertion: String,
    token: &'a str,
}

impl<'a> Row<'a> {
    /// The row of these fields. The footer `none` is one that was not set.
    fn parse(alloc: Global, fields: &[&'a str]) -> Result<Row<'a>, RowError> {
        let [key, nonce, text, footer, assertion, token] = *fields else {
            return Err(RowError::Form);
        };
        let footer = match footer {
            "none" => None,
            footer => Some(text_of(alloc, footer)?),
        };
        Ok(Row {
            key: array_of(key)?,
            nonce: array_of(nonce)?,
            text: text_of(alloc, text)?,
            footer,
            assertion: text_of(alloc, assertion)?,
            token,
        })
    }

    /// The footer, where it is set.
    fn footer(&self) -> Option<Footer<'_>>
        ensures text { footer_of result ≡ footer_in self.now }
        ensures set { is_some result ≡ is_some self.now.footer }
    {
        match &self.footer {
            Some(footer) => Some(Footer::from(footer.as_str())),
            None => None,
        }
    }

    /// The implicit assertion in a version that has one. A row of another version has none.
    fn assertion<V: LocalVersion>(&self) -> Result<Option<ImplicitAssertion<'_>>, RowError>
        ensures text { IfOk result (λ assertion. assertion_of assertion
            ≡ string_bytes self.now.assertion) }
        ensures none { V.design.binds_assertion ≡ false → IfOk result
            (λ assertion. assertion ≡ None) }
    {
        let given = ImplicitAssertion::from(self.assertion.as_str());
        let assertion = V::bound_assertion(Some(given));
        if assertion.is_none() && !self.assertion.is_empty() {
            return Err(RowError::Form);
        }
        Ok(assertion)
    }

    /// The key.
    fn key<V>(&self) -> PasetoSymmetricKey<V, Local>
        ensures { result ≡ self.now.key }
    {
        PasetoSymmetricKey::from(Key::from(self.key))
    }

    /// The token that the version makes of the text.
    fn seal<V: LocalVersion>(&self, alloc: Global) -> Result<String, RowError>
        ensures { IfOk result (λ token. string_bytes token ≡ sealing_in V.design self.now) }
    {
        let nonce = Key::from(self.nonce);
        Ok(V::seal(
            alloc,
            &self.key(),
            &PasetoNonce::from(&nonce),
            Payload::from(self.text.as_str()),
            self.footer(),
            self.assertion::<V>()?,
        )?)
    }

    /// The text to which the version opens the token.
    fn open<V: LocalVersion>(&self, alloc: Global) -> Result<String, RowError>
        ensures { IfOk result (λ text. IsRead (opening V.design (binding self.now))
            self.now.token.now (string_bytes text)) }
    {
        let assertion = self.assertion::<V>()?;
        Ok(V::open(alloc, self.token, &self.key(), self.footer(), assertion)?)
    }
}

/// Checks the row of the version with this name.
pub fn check(alloc: Global, name: &str, fields: &[&str]) -> Result<(), RowError> {
    let row = Row::parse(alloc, fields)?;
    match name {
        "v1" => check_version::<V1>(alloc, &row),
        "v3" => check_version::<V3>(alloc, &row),
        "v4" => check_version::<V4>(alloc, &row),
        _ => Err(RowError::Form),
    }
}

/// Checks that the text is sealed to the token, and that the token opens to the text.
fn check_version<V: LocalVersion>(alloc: Global, row: &Row<'_>) -> Result<(), RowError>
    ensures { IfOk result (λ _. IsTokenRow V.design row.now) }
{
    if row.seal::<V>(alloc)?.as_str() != row.token {
        return Err(RowError::Sealed);
    }
    if row.open::<V>(alloc)?.as_str() != row.text.as_str() {
        return Err(RowError::Opened);
    }
    Ok(())
}
