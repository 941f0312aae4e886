//! A sealed box for long messages.

ghost use Rattle.std.specs.Prelude.{Some};
ghost use Rattle.test_toys.specs.PlainBox.{plain-IsLawfulBox};

use rusty_paseto_core::SealedBox;
use std::alloc::{AllocError, Global};

/// A box whose sealing of a message is the message itself, of any length.
#[derive(Drop)]
pub struct PlainBox;

impl SealedBox for PlainBox {
    ghost sealing = { λ key nonce associated message. Some message };

    fn seal(
        &self,
        alloc: Global,
        _key: &[u8; 32],
        _nonce: &[u8; 24],
        _data: &[u8],
        message: &[u8],
    ) -> Result<Option<Vec<u8>>, AllocError> {
        Ok(Some(message.to_vec(alloc)?))
    }

    fn open(
        &self,
        alloc: Global,
        _key: &[u8; 32],
        _nonce: &[u8; 24],
        _data: &[u8],
        boxed: &[u8],
    ) -> Result<Option<Vec<u8>>, AllocError> {
        Ok(Some(boxed.to_vec(alloc)?))
    }

    ghost lawful = { plain-IsLawfulBox };
}
