//! The sealed box that the caller passes in.

ghost use Rattle.std.specs.Prelude.{◌≡◌, IfOk, option_map};
ghost use Rattle.rusty_paseto_core.specs.Local.SealedBox.{BoxSealing, IsLawfulBox, IsOpening};

use std::alloc::{AllocError, Global};

/// The sealed box of local tokens of version 2, which the caller passes in: XChaCha20-Poly1305. It encrypts a message,
/// and authenticates it together with associated data, under a key and a nonce of 24 bytes.
///
/// `data` is the associated data, which is not encrypted: the pre-authentication encoding of the header, the
/// nonce and the footer. `message` is the token's text. A sealing is the ciphertext followed by the tag of 16 bytes; it
/// does not include the nonce, which the library writes before it.
///
/// A box is a deterministic function of key, nonce, data and message. It returns `None` for messages that it cannot
/// encrypt, such as those that are too long, and for what it does not open; `try_encrypt` and `try_decrypt` then return
/// `ChaChaCipherError`. An implementation defines `sealing`, and proves with `lawful` that different messages have
/// different sealings. Nothing here guarantees that a box is secure. docs/SCHEMES.md says more, and `ToyBox` of
/// `test_toys` is a box that meets the contract without any secrecy.
///
/// Source: PASETO specification, "Version 2"; draft-irtf-cfrg-xchacha, section 2.
pub trait SealedBox {
    // What the box makes of a key, a nonce, data and a message: its sealing, where there is one.
    ghost sealing: { BoxSealing };

    /// The sealing of a message, or `None` if the box has none. It fails only if an allocation fails.
    fn seal(
        &self,
        alloc: Global,
        key: &[u8; 32],
        nonce: &[u8; 24],
        data: &[u8],
        message: &[u8],
    ) -> Result<Option<Vec<u8>>, AllocError>
        ensures { IfOk result (λ found. option_map (λ bytes. bytes.items) found
            ≡ sealing key.now nonce.now «data».now message.now) };

    /// The message whose sealing `boxed` is, or `None` if there is none. It fails only if an allocation fails.
    fn open(
        &self,
        alloc: Global,
        key: &[u8; 32],
        nonce: &[u8; 24],
        data: &[u8],
        boxed: &[u8],
    ) -> Result<Option<Vec<u8>>, AllocError>
        ensures { IfOk result (λ found.
            IsOpening (sealing key.now nonce.now «data».now) boxed.now
            (option_map (λ bytes. bytes.items) found)) };

    // Where it is asked with a key, a nonce and bytes of data, different messages have different
    // sealings, and the sealing of bytes is bytes.
    ghost lawful: { IsLawfulBox sealing };
}
