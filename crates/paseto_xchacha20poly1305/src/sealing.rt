//! XChaCha20-Poly1305 as the sealed box of version 2 (draft-irtf-cfrg-xchacha, section 2; RFC 8439, section 2.8).

ghost use Rattle.std.specs.Prelude.{◌≡◌, ◌++◌, ◌-◌, ◌%◌, ℕ, List, IfErr, IfOk, Some, length, option_map, replicate};
ghost use Rattle.rusty_paseto_core.specs.Local.SealedBox.{IsOpening};
ghost use Rattle.paseto_xchacha20poly1305.specs.Hasher.{Holds};
ghost use Rattle.paseto_xchacha20poly1305.specs.Sealing.{box_sealing, xored_text, one_time_key, text_tag};
ghost use Rattle.paseto_xchacha20poly1305.specs.SealingLaws.{box-IsLawful};

use super::hasher::Poly1305Hasher;
use rusty_paseto_core::SealedBox;
use rusty_paseto_primitives::{same_bytes, xchacha20_apply, xchacha20_apply_from};
use std::alloc::{AllocError, Global};

/// How many bytes a tag has.
const TAG_LENGTH: usize = 16;

/// How many bytes the longest message has: 64 * (2^32 - 1), since block 0 is used up.
const LONGEST_MESSAGE: usize = 274_877_906_880;

/// The sealed box of local tokens of version 2: XChaCha20-Poly1305 (draft-irtf-cfrg-xchacha, section 2).
///
/// A sealing is the ciphertext, as long as the message, followed by the tag of 16 bytes. A message of more than
/// 274,877,906,880 bytes, which is 64 * (2^32 - 1), cannot be sealed. Opening compares the tag before anything is
/// decrypted, and returns `None` if it differs.
///
/// **Use a nonce for only one message under a key.** `Paseto` computes the token's nonce from the text and the given
/// nonce, so that different texts get different nonces.
///
/// ```rust
/// use paseto_xchacha20poly1305::XChaCha20Poly1305;
/// use rusty_paseto_core::{Local, Paseto, PasetoError, PasetoSymmetricKey, V2};
/// use std::alloc::Global;
///
/// /// The text of a token of version 2 with no footer.
/// pub fn decrypt(
///     alloc: Global,
///     token: &str,
///     key: &PasetoSymmetricKey<V2, Local>,
/// ) -> Result<String, PasetoError> {
///     Paseto::<V2, Local>::try_decrypt(alloc, &XChaCha20Poly1305, token, key, None)
/// }
/// ```
#[derive(Drop)]
pub struct XChaCha20Poly1305;

impl SealedBox for XChaCha20Poly1305 {
    ghost sealing = { box_sealing };

    /// The ciphertext and its tag, or `None` for a message of more than 274,877,906,880 bytes.
    fn seal(
        &self,
        alloc: Global,
        key: &[u8; 32],
        nonce: &[u8; 24],
        data: &[u8],
        message: &[u8],
    ) -> Result<Option<Vec<u8>>, AllocError> {
        if message.len() > LONGEST_MESSAGE {
            return Ok(None);
        }
        let mut boxed = Vec::with_capacity(alloc, message.len() + TAG_LENGTH)?;
        boxed.extend_from_slice(message)?;
        xchacha20_apply_from(key, nonce, 1, &mut boxed);
        let tag = tag_of(key, nonce, data, &boxed);
        boxed.extend_from_slice(&tag)?;
        Ok(Some(boxed))
    }

    /// The message, or `None` if the last 16 bytes are not the tag of what precedes them. It allocates only after the
    /// tag was found valid.
    fn open(
        &self,
        alloc: Global,
        key: &[u8; 32],
        nonce: &[u8; 24],
        data: &[u8],
        boxed: &[u8],
    ) -> Result<Option<Vec<u8>>, AllocError>
        ensures ok { IfOk result (λ found.
            IsOpening (box_sealing key.now nonce.now «data».now) boxed.now
            (option_map (λ bytes. bytes.items) found)) }
        ensures err { IfErr result (λ error. (message : List ℕ)
            × IsOpening (box_sealing key.now nonce.now «data».now) boxed.now (Some message)) }
    {
        if boxed.len() < TAG_LENGTH || boxed.len() > LONGEST_MESSAGE + TAG_LENGTH {
            return Ok(None);
        }
        let (text, tag) = boxed.split_at(boxed.len() - TAG_LENGTH);
        let own = tag_of(key, nonce, data, text);
        if !same_bytes(&own, tag) {
            return Ok(None);
        }
        let mut message = text.to_vec(alloc)?;
        xchacha20_apply_from(key, nonce, 1, &mut message);
        Ok(Some(message))
    }

    ghost lawful = { box-IsLawful };
}

// The tag of a ciphertext: of the data and the ciphertext, each padded to 16 bytes, and their lengths.
fn tag_of(key: &[u8; 32], nonce: &[u8; 24], data: &[u8], text: &[u8]) -> [u8; 16]
    ensures { result ≡ text_tag key.now nonce.now «data».now text.now }
{
    let mut one_time_key = [0u8; 32];
    xchacha20_apply(key, nonce, &mut one_time_key);
    let mut hasher = Poly1305Hasher::new(&one_time_key);
    update_padded(&mut hasher, data);
    update_padded(&mut hasher, text);
    hasher.update(&(data.len() as u64).to_le_bytes());
    hasher.update(&(text.len() as u64).to_le_bytes());
    hasher.finalize()
}

// Adds the bytes, and zeros up to a multiple of 16.
fn update_padded(hasher: &mut Poly1305Hasher, bytes: &[u8])
    ensures { (key message : List ℕ) → Holds hasher.old key message
        → Holds hasher.new key (message ++ (bytes.now
        ++ replicate ((16 - length bytes.now % 16) % 16) 0)) }
{
    let zeros = [0u8; 16];
    hasher.update(bytes);
    hasher.update(&zeros[..(16 - bytes.len() % 16) % 16]);
}
