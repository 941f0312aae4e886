//! The versions of PASETO whose keys have PASERK texts.

ghost use Rattle.std.specs.Prelude.{◌≡◌, ℕ, List, IsTrue, length};
ghost use Rattle.std.proofs.Common.{rules};
ghost use Rattle.rusty_paseto_paserk.specs.declared.header.PaserkVersion.{PaserkVersion as Paserk};
ghost use Rattle.rusty_paseto_paserk.specs.declared.header.PaserkVersion.TheVariants.{V1 as K1, V2 as K2, V3 as K3, V4 as K4};

use crate::header::PaserkVersion;
use rusty_paseto_parts::{V1, V2, V3, V4, VersionTrait};

/// A version whose keys for local tokens have texts: 1 to 4.
pub trait KeyVersion: VersionTrait {
    // The version of PASERK of the same number.
    ghost paserk: { Paserk };

    /// The version of PASERK of the same number.
    fn paserk_version() -> PaserkVersion
        ensures { result ≡ paserk };
}

/// A version whose key pairs have texts: 2, 3 and 4, whose keys have a fixed number of bytes.
///
/// The key pairs of version 1 are RSA keys, whose encodings have any length; their calls begin with `rsa_`.
pub trait KeyPairVersion: KeyVersion {
    // How many bytes a private key has in its text.
    ghost secret_length: { ℕ };

    // How many bytes a public key has.
    ghost public_length: { ℕ };

    /// How many bytes a private key has in its text: 64 in versions 2 and 4, 48 in version 3.
    fn secret_length() -> usize
        ensures { result ≡ secret_length };

    // A private key of the version may have any so many bytes.
    ghost has_private_keys: { (key : List ℕ) → length key ≡ Self.secret_length
        → IsTrue (Self.is_private_key key) };
}

impl KeyVersion for V1 {
    ghost paserk = { K1 };

    fn paserk_version() -> PaserkVersion {
        PaserkVersion::V1
    }
}

impl KeyVersion for V2 {
    ghost paserk = { K2 };

    fn paserk_version() -> PaserkVersion {
        PaserkVersion::V2
    }
}

impl KeyVersion for V3 {
    ghost paserk = { K3 };

    fn paserk_version() -> PaserkVersion {
        PaserkVersion::V3
    }
}

impl KeyVersion for V4 {
    ghost paserk = { K4 };

    fn paserk_version() -> PaserkVersion {
        PaserkVersion::V4
    }
}

impl KeyPairVersion for V2 {
    ghost secret_length = { 64 };

    ghost public_length = { 32 };

    fn secret_length() -> usize {
        64
    }

    ghost has_private_keys = { Prim.search rules };
}

impl KeyPairVersion for V3 {
    ghost secret_length = { 48 };

    ghost public_length = { 49 };

    fn secret_length() -> usize {
        48
    }

    ghost has_private_keys = { Prim.search rules };
}

impl KeyPairVersion for V4 {
    ghost secret_length = { 64 };

    ghost public_length = { 32 };

    fn secret_length() -> usize {
        64
    }

    ghost has_private_keys = { Prim.search rules };
}
