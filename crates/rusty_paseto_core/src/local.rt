//! Local tokens: a text encrypted and authenticated under one key (PASETO specification, "Version 1" to
//! "Version 4").

ghost use Rattle.std.specs.Prelude.{◌≡◌, ℕ, ◌+◌, ◌++◌, ◌≤◌, Bool, List, IsTrue, map, length};
ghost use Rattle.rusty_paseto_parts.specs.PreAuthenticationEncoding.{pae};
ghost use Rattle.rusty_paseto_core.specs.Local.{Design, IsLawful, header};

use rusty_paseto_parts::VersionTrait;

pub(crate) mod box_forgery;
mod boxed;
mod boxed_tokens;
pub(crate) mod forgery;
pub(crate) mod nist;
pub(crate) mod opening;
pub(crate) mod sealed_box;
pub(crate) mod sealing;
pub(crate) mod tag_collision;
mod tokens;
mod v1;
mod v3;
pub(crate) mod v4;

pub use tokens::LocalVersion;

/// How many bytes a token's nonce has in versions 1, 3 and 4.
pub(crate) const NONCE_LENGTH: usize = 32;

/// Goes into the derivation of the encryption key, so that it differs from the authentication key.
const ENCRYPTION: &[u8; 21] = b"paseto-encryption-key";

/// Goes into the derivation of the authentication key.
const AUTHENTICATION: &[u8; 24] = b"paseto-auth-key-for-aead";

/// The header, the key split, the cipher and the tag of a version's local tokens.
///
/// Sealing and opening are written and proved once, over this trait. It is public only for versions in tests, and
/// hidden in the documentation: an implementation must prove its laws.
pub trait LocalSuite: VersionTrait {
    /// The keys that one token is encrypted and authenticated with.
    type Keys: Copy;

    // What the version means.
    ghost design: { Design };

    // Whether these are the keys into which a key is split under a nonce.
    ghost IsSplit: { Self.Keys → List ℕ → List ℕ → Type 0 };

    /// How many bytes a tag has.
    fn tag_length() -> usize
        ensures { result ≡ design.tag_length };

    /// Whether the tag covers the implicit assertion.
    fn binds_assertion() -> bool
        ensures { result ≡ design.binds_assertion };

    /// The nonce of a token, from the seed and the text.
    fn token_nonce(seed: &[u8], text: &[u8]) -> [u8; 32]
        requires { length seed.now ≡ 32 }
        ensures { result ≡ design.token_nonce seed.now text.now };

    /// The keys of a token, from the key and the token's nonce.
    fn split(key: &[u8; 32], nonce: &[u8; 32]) -> Self::Keys
        ensures { IsSplit result key.now nonce.now };

    /// Encrypts a text, or decrypts it, in place.
    fn apply_keystream(keys: &Self::Keys, bytes: &mut [u8])
        ensures { (key nonce : List ℕ) → IsSplit keys.now key nonce → bytes.new
            ≡ design.apply_keystream key nonce bytes.old };

    /// Writes the tag of the pieces. The pieces are taken one by one, with no copy of them.
    fn write_tag(keys: &Self::Keys, pieces: &[&[u8]], tag: &mut [u8])
        requires { length tag.old ≡ design.tag_length }
        ensures { (key nonce : List ℕ) → IsSplit keys.now key nonce
            → tag.new ≡ design.tag (design.authentication_key key nonce)
            (pae (map (λ piece. piece.now) pieces.now)) };

    ghost lawful: { IsLawful design };

    ghost has_version: { design.version ≡ Self.text };

    ghost short_tag: { design.tag_length ≤ 48 };

    // No nonce has another length than 32 bytes.
    ghost has_nonces_of_32_alone: { (n : ℕ) → IsTrue (Self.nonce_length n) → n ≡ 32 };
}

/// A separator, followed by the nonce.
pub(crate) fn info<const N: usize>(separator: &[u8], nonce: &[u8; 32]) -> [u8; N]
    requires { N ≡ length separator.now + 32 }
    ensures { result ≡ separator.now ++ nonce.now }
{
    let mut info = [0u8; N];
    let space = &mut info[..];
    space[..separator.len()].copy_from_slice(separator);
    space[separator.len()..].copy_from_slice(nonce);
    info
}
