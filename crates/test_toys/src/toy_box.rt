//! A toy in the place of a sealed box.

ghost use Rattle.std.specs.Prelude.{◌≡◌, IfOk};
ghost use Rattle.test_toys.specs.ToyBox.{toy_sealing, toy_tag};
ghost use Rattle.test_toys.specs.ToyBoxLaws.{toy-IsLawful};

use rusty_paseto_core::{PreAuthenticationEncoding, SealedBox};
use rusty_paseto_primitives::blake2b_keyed;
use std::alloc::{AllocError, Global};

/// How many bytes a tag has.
const TAG_LENGTH: usize = 16;

/// How many bytes the longest message has.
const LONGEST_MESSAGE: usize = 4096;

/// A toy sealed box, which keeps **nothing secret**: what it makes of a message is the message
/// itself, as it is, and a tag of 16 bytes behind it.
///
/// It shows that the laws of a sealed box can be met. A message has up to 4,096 bytes, and a longer
/// one has no sealing. The tag is the BLAKE2b hash, under the key, of the encoding of the nonce, the
/// data and the message.
#[derive(Drop)]
pub struct ToyBox;

impl SealedBox for ToyBox {
    ghost sealing = { toy_sealing };

    /// The message and its tag, or `None` for a message of more than 4,096 bytes.
    fn seal(
        &self,
        alloc: Global,
        key: &[u8; 32],
        nonce: &[u8; 24],
        data: &[u8],
        message: &[u8],
    ) -> Result<Option<Vec<u8>>, AllocError> {
        if message.len() > LONGEST_MESSAGE {
            return Ok(None);
        }
        let tag = tag_of(alloc, key, nonce, data, message)?;
        let mut boxed = Vec::with_capacity(alloc, message.len() + TAG_LENGTH)?;
        boxed.extend_from_slice(message)?;
        boxed.extend_from_slice(&tag)?;
        Ok(Some(boxed))
    }

    /// What stands before the tag, or `None` where the last 16 bytes are not its tag.
    fn open(
        &self,
        alloc: Global,
        key: &[u8; 32],
        nonce: &[u8; 24],
        data: &[u8],
        boxed: &[u8],
    ) -> Result<Option<Vec<u8>>, AllocError> {
        if boxed.len() < TAG_LENGTH || boxed.len() > LONGEST_MESSAGE + TAG_LENGTH {
            return Ok(None);
        }
        let (message, tag) = boxed.split_at(boxed.len() - TAG_LENGTH);
        let own = tag_of(alloc, key, nonce, data, message)?;
        if own.as_slice() != tag {
            return Ok(None);
        }
        Ok(Some(message.to_vec(alloc)?))
    }

    ghost lawful = { toy-IsLawful };
}

// The tag of a message.
fn tag_of(
    alloc: Global,
    key: &[u8; 32],
    nonce: &[u8; 24],
    data: &[u8],
    message: &[u8],
) -> Result<[u8; 16], AllocError>
    ensures { IfOk result (λ tag. tag ≡ toy_tag key.now nonce.now «data».now message.now) }
{
    let pieces: [&[u8]; 3] = [nonce, data, message];
    let Ok(encoding) = PreAuthenticationEncoding::parse(alloc, &pieces) else {
        return Err(AllocError);
    };
    Ok(blake2b_keyed(key, encoding.as_bytes()))
}
