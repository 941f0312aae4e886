//! Encrypted tickets of version 2. The caller passes in the sealed box.

use anyhow::Result;
use jiff::Timestamp;
use paseto_xchacha20poly1305::XChaCha20Poly1305;
use rand_core::TryRng;
use rusty_paseto::prelude::{
    CountingSetter, GenericParserError, Local, PasetoBuilder, PasetoParser, PasetoSymmetricKey,
    SubjectClaim, V2,
};
use serde_json::Value;
use std::alloc::Global;

/// A ticket for the subject, which expires an hour from now.
pub fn issue<R: TryRng>(
    alloc: Global,
    now: Timestamp,
    rng: &mut R,
    key: &PasetoSymmetricKey<V2, Local>,
    subject: &str,
) -> Result<String> {
    let mut builder = PasetoBuilder::<V2, Local>::try_default(alloc, now)?;
    builder.set_claim(&SubjectClaim::from(subject))?;
    Ok(builder.build(&XChaCha20Poly1305, rng, key)?)
}

/// The claims of a ticket that is valid at the moment, or the error.
pub fn admit(
    alloc: Global,
    now: Timestamp,
    token: &str,
    key: &PasetoSymmetricKey<V2, Local>,
) -> Result<Value, GenericParserError> {
    let parser = PasetoParser::<V2, Local>::default(alloc, now)?;
    parser.parse(&XChaCha20Poly1305, token, key)
}
