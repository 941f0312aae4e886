//! Why reading an input or writing an output failed.

ghost use Rattle.std.specs.Prelude.{◌≡◌};
ghost use Rattle.paseto_streams.specs.declared.error.StreamError.TheVariants.{InputOrOutput, Memory};

use std::alloc::AllocError;
use std::io;

/// Why reading an input or writing an output failed.
#[derive(Debug, Drop)]
pub enum StreamError {
    /// A read or a write failed, or a write accepted no bytes.
    InputOrOutput,
    /// An allocation failed.
    Memory(AllocError),
}

impl From<io::Error> for StreamError {
    ghost from_gives = { λ _ error. error ≡ InputOrOutput };

    fn from(_source: io::Error) -> StreamError {
        StreamError::InputOrOutput
    }
}

impl From<AllocError> for StreamError {
    ghost from_gives = { λ source error. error ≡ Memory source };

    fn from(source: AllocError) -> StreamError {
        StreamError::Memory(source)
    }
}
