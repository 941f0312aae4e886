//! What a text holds in place of the key that was asked for.

/// An algorithm of keys.
#[derive(Clone, Copy, Debug, PartialEq, Eq)]
pub enum Algorithm {
    /// Ed25519 (RFC 8410).
    Ed25519,
    /// Any curve of `id-ecPublicKey` (RFC 5480).
    EllipticCurve,
    /// RSA (RFC 8017).
    Rsa,
    /// None of these.
    Unknown,
}

/// A curve of `id-ecPublicKey`.
#[derive(Clone, Copy, Debug, PartialEq, Eq)]
pub enum Curve {
    /// P-256, `secp256r1` (RFC 5480, section 2.1.1.1).
    P256,
    /// P-521, `secp521r1` (RFC 5480, section 2.1.1.1).
    P521,
    /// `secp256k1` (SEC 2, section 2.4.1).
    Secp256k1,
    /// A curve that is given by its parameters and not by its name.
    Explicit,
    /// None of these.
    Unknown,
}
