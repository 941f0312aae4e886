//! Writing the keys of public tokens as PEM, and reading them.

ghost use Rattle.paseto_pem.specs.Key.{ReadsHeld, ReadsKey, WritesKey};
ghost use Rattle.paseto_pem.specs.declared.label.Label.TheVariants.{PrivateKey as PrivateLabel, PublicKey as PublicLabel};

use crate::error::PemError;
use crate::label::Label;
use crate::text::{read_text, write_text};
use crate::version::PemVersion;
use rusty_paseto_parts::{
    PasetoAsymmetricPrivateKey, PasetoAsymmetricPublicKey, PrivateKey, Public, PublicKey,
};
use std::alloc::Global;

/// The private key with this text.
///
/// The text has one block: lines of text may stand before it, and a block `EC PARAMETERS`, but nothing behind it. Its
/// lines have 1 to 76 characters, and each ends in LF or in CR and LF. `PRIVATE KEY` is read, as a OneAsymmetricKey of
/// version v1 or v2, whose attributes are passed over; in version 3 also `EC PRIVATE KEY`, and in version 1 also `RSA
/// PRIVATE KEY`. A public key beside the private one must be its own. A private key of P-384 has 48 octets, before which
/// an octet 0 may stand.
///
/// The first fault is returned: `NotPem` if there is no such block; `TwoKeys` if there are several; `Encrypted` for an
/// encrypted key, whose label or first header says so; `OtherLabel` for another label, for example that of a public
/// key; `InvalidDer` if the contents are not those of the label; `OtherAlgorithm`; `OtherCurve`, or `OtherSize` for a
/// modulus of another size; `OtherHalf` if a public key is that of another key; and `InvalidKey` if there is no key.
///
/// Source: RFC 7468, sections 2, 3 and 10; RFC 5958, section 2; RFC 8410, section 7; RFC 5915, section 3; RFC 8017,
/// appendix A.1.2; RFC 1421, section 4.6.1.1.
pub fn private_key_from_pem<V: PemVersion>(
    alloc: Global,
    text: &str,
) -> Result<PrivateKey<V>, PemError>
    ensures { ReadsKey V.is_private_of V.is_private_fault text.now result }
{
    let (label, contents) = read_text(alloc, text)?;
    private_key_in(alloc, label, &contents)
}

/// The private key that contents under a label are.
pub(crate) fn private_key_in<V: PemVersion>(
    alloc: Global,
    label: Label,
    contents: &[u8],
) -> Result<PrivateKey<V>, PemError>
    ensures { ReadsHeld V.is_private_of V.is_private_fault label contents.now result }
{
    let bytes = V::read_private(alloc, label, contents)?;
    match PrivateKey::try_from(bytes) {
        Ok(key) => Ok(key),
        Err(_) => Err(PemError::InvalidKey),
    }
}

/// The public key with this text. The errors are those of `private_key_from_pem`. Version 1 also reads `RSA PUBLIC
/// KEY`, and version 3 reads compressed and uncompressed points.
///
/// Source: RFC 7468, sections 3 and 13; RFC 5280, section 4.1; RFC 8410, section 4; RFC 5480, section 2; RFC 8017, appendix
/// A.1.1.
pub fn public_key_from_pem<V: PemVersion>(
    alloc: Global,
    text: &str,
) -> Result<PublicKey<V>, PemError>
    ensures { ReadsKey V.is_public_of V.is_public_fault text.now result }
{
    let (label, contents) = read_text(alloc, text)?;
    public_key_in(alloc, label, &contents)
}

/// The public key that contents under a label are.
pub(crate) fn public_key_in<V: PemVersion>(
    alloc: Global,
    label: Label,
    contents: &[u8],
) -> Result<PublicKey<V>, PemError>
    ensures { ReadsHeld V.is_public_of V.is_public_fault label contents.now result }
{
    let bytes = V::read_public(alloc, label, contents)?;
    match PublicKey::try_from(bytes) {
        Ok(key) => Ok(key),
        Err(_) => Err(PemError::InvalidKey),
    }
}

/// The text of a private key, byte for byte as `openssl pkey` writes it.
///
/// `InvalidKey` is returned if and only if the key is not valid: in versions 2 and 4 if it does not have 64 bytes, or
/// its last 32 are not the public key of the others; in version 3 if it is not a private key of the curve; and in
/// version 1 if it is not a PrivateKeyInfo of a key of 2048 bits.
pub fn private_key_to_pem<V: PemVersion>(
    alloc: Global,
    key: &PasetoAsymmetricPrivateKey<'_, V, Public>,
) -> Result<String, PemError>
    ensures { WritesKey V.is_private_written PrivateLabel key.now result }
{
    let contents = V::write_private(alloc, key.as_bytes())?;
    write_text(alloc, Label::PrivateKey, &contents)
}

/// The text of a public key, byte for byte as `openssl pkey -pubout` writes it.
///
/// `InvalidKey` is returned if and only if the key is not valid: never in versions 2 and 4, in version 3 if it is not a
/// point of the curve, and in version 1 if it is not an RSAPublicKey of 2048 bits.
pub fn public_key_to_pem<V: PemVersion>(
    alloc: Global,
    key: &PasetoAsymmetricPublicKey<'_, V, Public>,
) -> Result<String, PemError>
    ensures { WritesKey V.is_public_written PublicLabel key.now result }
{
    let contents = V::write_public(alloc, key.as_bytes())?;
    write_text(alloc, Label::PublicKey, &contents)
}
