//! HMAC (RFC 2104) with SHA-384.

ghost use Rattle.std.specs.Prelude.{◌≡◌, ℕ, ◌++◌, List, []};
ghost use Rattle.rusty_paseto_primitives.specs.Hmac.{Holds, hmac, key_block, with_pad};

use sha2::{Digest, Sha384};

// The length in bytes of a block of SHA-384.
const BLOCK_LEN: usize = 128;

// The length in bytes of a digest of SHA-384.
const DIGEST_LEN: usize = 48;

// The byte that ipad repeats (section 2).
const INNER_PAD: u8 = 0x36;

// The byte that opad repeats.
const OUTER_PAD: u8 = 0x5c;

/// An HMAC-SHA384 hasher (RFC 2104) that takes the message piece by piece. No call allocates.
#[derive(Clone, Drop)]
pub struct HmacSha384 {
    // Has taken in the inner key, and the message so far.
    inner: Sha384,
    // Has taken in the outer key.
    outer: Sha384,
}

// The key as one block: a key that is longer is hashed first, and zeros fill what is left.
fn key_block(key: &[u8]) -> [u8; 128]
    ensures { result ≡ key_block key.now }
{
    let mut block = [0; BLOCK_LEN];
    if key.len() > BLOCK_LEN {
        block[..DIGEST_LEN].copy_from_slice(&Sha384::digest(key));
    } else {
        block[..key.len()].copy_from_slice(key);
    }
    block
}

// The exclusive or of each byte of the block with the byte of a pad.
fn with_pad(mut block: [u8; 128], pad: u8) -> [u8; 128]
    ensures { result ≡ with_pad pad block }
{
    'bytes: for byte in &mut block {
        *byte ^= pad;
    }
    block
}

impl HmacSha384 {
    /// A hasher of the empty message, under a key of any length. A key of more than 128 bytes is
    /// replaced by its SHA-384 digest (RFC 2104 section 2).
    pub fn new(key: &[u8]) -> HmacSha384
        ensures { Holds result key.now [] }
    {
        let block = key_block(key);
        HmacSha384 {
            inner: Sha384::new_with_prefix(with_pad(block, INNER_PAD)),
            outer: Sha384::new_with_prefix(with_pad(block, OUTER_PAD)),
        }
    }

    /// Adds `data` to the message.
    pub fn update(&mut self, data: &[u8])
        ensures { (key message : List ℕ) → Holds self.old key message
            → Holds self.new key (message ++ «data».now) }
    {
        self.inner.update(data);
    }

    // The code of `data` behind the message. The hasher stays as it was, so that one of the empty message gives the codes
    // of many messages, with its key taken in once.
    pub(crate) fn code_of(&self, data: &[u8]) -> [u8; 48]
        ensures { (key message : List ℕ) → Holds self.now key message
            → result ≡ hmac key (message ++ «data».now) }
    {
        let mut hasher = self.clone().unwrap();
        hasher.update(data);
        hasher.finalize()
    }

    /// The message authentication code of the message.
    pub fn finalize(self) -> [u8; 48]
        ensures { (key message : List ℕ) → Holds self key message → result ≡ hmac key message }
    {
        let mut outer = self.outer;
        outer.update(self.inner.finalize());
        outer.finalize()
    }
}

/// The HMAC-SHA384 message authentication code of `message` under a key of any length (RFC 2104).
pub fn hmac_sha384(key: &[u8], message: &[u8]) -> [u8; 48]
    ensures { result ≡ hmac key.now message.now }
{
    let mut hasher = HmacSha384::new(key);
    hasher.update(message);
    hasher.finalize()
}
