//! Rows of the tokens that the PASETO specification publishes.

ghost use Rattle.std.specs.Prelude.{◌≡◌, false, None};

use crate::error::RowError;
use crate::fields::{array_of, bytes_of, text_of};
use crate::tokens;
use paseto_ed25519::Ed25519;
use paseto_p384::P384;
use paseto_xchacha20poly1305::XChaCha20Poly1305;
use rusty_paseto_core::{
    Footer, ImplicitAssertion, Key, Local, Paseto, PasetoAsymmetricPrivateKey,
    PasetoAsymmetricPublicKey, PasetoNonce, PasetoSymmetricKey, Payload, Public, PublicVersion,
    Signs, V2, V3, V4, Verifies,
};
use std::alloc::Global;

/// Checks the row of the kind with this name: the vector's name, and the fields.
pub fn check(alloc: Global, name: &str, fields: &[&str]) -> Result<(), RowError> {
    let [_vector, fields @ ..] = fields else {
        return Err(RowError::Form);
    };
    match name {
        "v1.local" => tokens::check(alloc, "v1", fields),
        "v2.local" => check_boxed(alloc, fields),
        "v3.local" => tokens::check(alloc, "v3", fields),
        "v4.local" => tokens::check(alloc, "v4", fields),
        "v2.public" => check_version_2(alloc, &Signed::parse(alloc, fields)?),
        "v3.public" => check_version_3(alloc, &Signed::parse(alloc, fields)?),
        "v4.public" => check_version_4(alloc, &Signed::parse(alloc, fields)?),
        _ => Err(RowError::Form),
    }
}

/// `KEY NONCE TEXT FOOTER - TOKEN`, whose token the text is sealed to, and opens to the text.
fn check_boxed(alloc: Global, fields: &[&str]) -> Result<(), RowError> {
    let [key, nonce, text, footer, "-", token] = *fields else {
        return Err(RowError::Form);
    };
    let key = PasetoSymmetricKey::<V2, Local>::from(Key::<32>::from(array_of(key)?));
    let nonce = Key::<24>::from(array_of(nonce)?);
    let (text, footer) = (text_of(alloc, text)?, footer_of(alloc, footer)?);
    let footer = footer.as_ref().map(|footer| Footer::from(footer.as_str()));
    let mut paseto = Paseto::<V2, Local>::builder();
    paseto.set_payload(Payload::from(text.as_str()));
    if let Some(footer) = footer {
        paseto.set_footer(footer);
    }
    let nonce = PasetoNonce::from(&nonce);
    if paseto
        .try_encrypt(alloc, &XChaCha20Poly1305, &key, &nonce)?
        .as_str()
        != token
    {
        return Err(RowError::Sealed);
    }
    let opened = Paseto::<V2, Local>::try_decrypt(alloc, &XChaCha20Poly1305, token, &key, footer)?;
    if opened.as_str() != text.as_str() {
        return Err(RowError::Opened);
    }
    Ok(())
}

/// `PRIVATE PUBLIC TEXT FOOTER ASSERTION TOKEN`
#[derive(Drop)]
struct Signed<'a> {
    private: Vec<u8>,
    public: Vec<u8>,
    text: String,
    footer: Option<String>,
    assertion: String,
    token: &'a str,
}

impl<'a> Signed<'a> {
    /// The row of these fields.
    fn parse(alloc: Global, fields: &[&'a str]) -> Result<Signed<'a>, RowError> {
        let [private, public, text, footer, assertion, token] = *fields else {
            return Err(RowError::Form);
        };
        Ok(Signed {
            private: bytes_of(alloc, private)?,
            public: bytes_of(alloc, public)?,
            text: text_of(alloc, text)?,
            footer: footer_of(alloc, footer)?,
            assertion: text_of(alloc, assertion)?,
            token,
        })
    }

    fn footer(&self) -> Option<Footer<'_>> {
        self.footer
            .as_ref()
            .map(|footer| Footer::from(footer.as_str()))
    }

    /// The implicit assertion in a version that has one.
    fn assertion<V: PublicVersion>(&self) -> Option<ImplicitAssertion<'_>>
        ensures { V.public_design.binds_assertion ≡ false → result ≡ None }
    {
        V::signed_assertion(Some(ImplicitAssertion::from(self.assertion.as_str())))
    }

    /// Checks that the private key signs the text to the token.
    fn check_signing<V: Signs<S>, S>(
        &self,
        alloc: Global,
        scheme: &mut S,
        key: &PasetoAsymmetricPrivateKey<'_, V, Public>,
    ) -> Result<(), RowError> {
        let text = Payload::from(self.text.as_str());
        let assertion = self.assertion::<V>();
        let token = V::sign(alloc, scheme, key, text, self.footer(), assertion)?;
        if token.as_str() != self.token {
            return Err(RowError::Sealed);
        }
        Ok(())
    }

    /// Checks that the token verifies under the public key, to the text.
    fn check_verifying<V: Verifies<S>, S>(
        &self,
        alloc: Global,
        scheme: &S,
        key: &PasetoAsymmetricPublicKey<'_, V, Public>,
    ) -> Result<(), RowError> {
        if self.verify(alloc, scheme, key)?.as_str() != self.text.as_str() {
            return Err(RowError::Opened);
        }
        Ok(())
    }

    /// The text to which the token verifies under the public key.
    fn verify<V: Verifies<S>, S>(
        &self,
        alloc: Global,
        scheme: &S,
        key: &PasetoAsymmetricPublicKey<'_, V, Public>,
    ) -> Result<String, RowError> {
        let assertion = self.assertion::<V>();
        Ok(V::verify(alloc, scheme, self.token, key, self.footer(), assertion)?)
    }
}

fn check_version_2(alloc: Global, row: &Signed<'_>) -> Result<(), RowError> {
    let private = PasetoAsymmetricPrivateKey::<V2, Public>::from(row.private.as_slice());
    row.check_signing(alloc, &mut Ed25519, &private)?;
    let Some(public) = row.public.as_array::<32>() else {
        return Err(RowError::Length);
    };
    let public = Key::<32>::from(*public);
    row.check_verifying::<V2, _>(alloc, &Ed25519, &PasetoAsymmetricPublicKey::from(&public))
}

/// The specification's signatures are not those of RFC 6979: they are verified alone.
fn check_version_3(alloc: Global, row: &Signed<'_>) -> Result<(), RowError> {
    let Some(public) = row.public.as_array::<49>() else {
        return Err(RowError::Length);
    };
    let public = Key::<49>::from(*public);
    let public = PasetoAsymmetricPublicKey::<V3, Public>::try_from(&public)?;
    row.check_verifying(alloc, &P384, &public)
}

fn check_version_4(alloc: Global, row: &Signed<'_>) -> Result<(), RowError> {
    let Some(private) = row.private.as_array::<64>() else {
        return Err(RowError::Length);
    };
    let private = Key::<64>::from(*private);
    row.check_signing::<V4, _>(
        alloc,
        &mut Ed25519,
        &PasetoAsymmetricPrivateKey::from(&private),
    )?;
    let Some(public) = row.public.as_array::<32>() else {
        return Err(RowError::Length);
    };
    let public = Key::<32>::from(*public);
    row.check_verifying::<V4, _>(alloc, &Ed25519, &PasetoAsymmetricPublicKey::from(&public))
}

/// The footer of a field, where one was set.
fn footer_of(alloc: Global, field: &str) -> Result<Option<String>, RowError> {
    match field {
        "none" => Ok(None),
        footer => Ok(Some(text_of(alloc, footer)?)),
    }
}
