//! Signed tickets, which everybody can read: public tokens with any signature scheme of version 4. The program passes
//! in `Ed25519`, and once its own scheme.

use anyhow::Result;
use jiff::Timestamp;
use rusty_paseto::prelude::{
    CountingSetter, Footer, GenericParserError, PasetoAsymmetricPrivateKey,
    PasetoAsymmetricPublicKey, PasetoBuilder, PasetoParser, Public, SignatureScheme, SubjectClaim,
    V4, key_footer,
};
use serde_json::Value;
use std::alloc::Global;

/// A signed ticket for the subject, which expires an hour from now.
pub fn issue<S: SignatureScheme<64>>(
    alloc: Global,
    now: Timestamp,
    scheme: &mut S,
    key: &PasetoAsymmetricPrivateKey<'_, V4, Public>,
    subject: &str,
) -> Result<String> {
    let mut builder = PasetoBuilder::<V4, Public>::try_default(alloc, now)?;
    builder.set_claim(&SubjectClaim::from(subject))?;
    Ok(builder.build(scheme, key)?)
}

/// A signed ticket whose footer names the key.
pub fn issue_under<S: SignatureScheme<64>>(
    alloc: Global,
    now: Timestamp,
    scheme: &mut S,
    id: &str,
    key: &PasetoAsymmetricPrivateKey<'_, V4, Public>,
) -> Result<String> {
    let footer = key_footer(alloc, id)?;
    let mut builder = PasetoBuilder::<V4, Public>::try_default(alloc, now)?;
    builder.set_footer(Footer::from(footer.as_str()));
    Ok(builder.build(scheme, key)?)
}

/// The claims of a signed ticket that is valid at the moment, or the error.
pub fn admit<S: SignatureScheme<64>>(
    alloc: Global,
    now: Timestamp,
    scheme: &S,
    token: &str,
    key: &PasetoAsymmetricPublicKey<'_, V4, Public>,
) -> Result<Value, GenericParserError> {
    let parser = PasetoParser::<V4, Public>::default(alloc, now)?;
    parser.parse(scheme, token, key)
}

/// Whom a ticket is for.
pub fn subject(claims: &Value) -> &str {
    claims
        .get("sub")
        .and_then(|subject| subject.as_str())
        .unwrap_or("nobody")
}
