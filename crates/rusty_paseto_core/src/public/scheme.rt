//! The signature scheme that the caller passes in.

ghost use Rattle.std.specs.Prelude.{◌≡◌, ◌⊎◌, ℕ, List, IfOk, IfErr, OnOk};
ghost use Rattle.rusty_paseto_parts.specs.Error.{IsMemory};
ghost use Rattle.rusty_paseto_core.specs.Public.Scheme.{Declining, Refusal, Validity};

use rusty_paseto_parts::PasetoError;
use std::alloc::Global;

/// The signature scheme of public tokens, which the caller passes in, with signatures of `SIG` bytes: 256 for RSA in
/// version 1, 64 for Ed25519 in versions 2 and 4, 96 for ECDSA in version 3.
///
/// `message` is the pre-authentication encoding of all that the signature covers, not hashed yet. The keys are the
/// bytes of the caller's keys, which a scheme reads in its own way:
///
/// | Version | Algorithm | Private key | Public key | Signature |
/// |---|---|---|---|---|
/// | 1 | RSASSA-PSS, SHA-384, MGF1 | of any length | of any length | 256 bytes |
/// | 2, 4 | Ed25519 | 64 bytes: seed, public key | 32 bytes | 64 bytes |
/// | 3 | ECDSA, P-384, SHA-384 | 48 bytes | 49 bytes: a compressed point | 96 bytes: r, s |
///
/// A scheme may contain a source of random bytes, so signing may change it. `try_sign` and `try_verify` return its
/// errors as they are: use `InvalidSignature` for an invalid signature, `InvalidKey` or `KeyRejected` for a key. An
/// implementation defines the four ghost fields, and proves each method; nothing here guarantees that a scheme is
/// secure, which depends on `valid`. docs/SCHEMES.md has a complete example, and `test_toys` a toy for each version.
///
/// Source: PASETO specification, "Version 1" to "Version 4".
pub trait SignatureScheme<const SIG: usize> {
    // Whether a signature is valid for a public key and a message.
    ghost valid: { Validity };

    // The public key of a private key.
    ghost partner: { List ℕ → List ℕ };

    // The errors that may be answered for a public key, a message and a signature that is not valid.
    ghost refused: { Refusal };

    // The errors that may be answered for a private key and a message.
    ghost declined: { Declining };

    /// A signature of a message that is valid for the private key's public key. It fails with an error of the scheme's
    /// choice, or with `Memory`.
    fn sign(
        &mut self,
        alloc: Global,
        private: &[u8],
        message: &[u8],
    ) -> Result<[u8; SIG], PasetoError>
        ensures ok { IfOk result (λ signature. valid (partner private.now) message.now signature) }
        ensures err { IfErr result (λ error. IsMemory error ⊎ declined private.now message.now error) };

    /// Returns `Ok` if and only if the signature is valid for the public key and the message, and otherwise an error of
    /// the scheme's choice. `Memory` may be returned in place of either.
    fn verify(
        &self,
        alloc: Global,
        public: &[u8],
        message: &[u8],
        signature: &[u8; SIG],
    ) -> Result<(), PasetoError>
        ensures ok { OnOk result (valid public.now message.now signature.now) }
        ensures err { IfErr result (λ error. IsMemory error
            ⊎ ((¬ valid public.now message.now signature.now)
            × refused public.now message.now signature.now error)) };
}

/// A signature scheme of version 3, which can derive the public key of a private key.
///
/// Source: PASETO specification, "Version 3"; SEC 1, section 2.3.3.
pub trait CompressedKey: SignatureScheme<96> {
    /// The public key of a private key: a compressed point, of 49 bytes. It fails with an error that the scheme may
    /// return for each message, or with `Memory`.
    fn public_key(&self, alloc: Global, private: &[u8]) -> Result<[u8; 49], PasetoError>
        ensures ok { IfOk result (λ public. public ≡ Self.partner private.now) }
        ensures err { IfErr result (λ error. IsMemory error
            ⊎ ((message : List ℕ) → Self.declined private.now message error)) };
}
