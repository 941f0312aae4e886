//! Why no key was derived from a password.

ghost use Rattle.paseto_argon2.specs.declared.error.Argon2Error.TheVariants.{Memory};
ghost use Rattle.std.specs.Prelude.{◌≡◌};

use std::alloc::AllocError;
use thiserror::Error;

/// Why Argon2id derived no key. All variants except `Memory` mean that the RFC, or this crate, does not allow the
/// arguments; of several errors, the first in this order is returned.
#[derive(Debug, Drop, Error)]
pub enum Argon2Error {
    /// The number of lanes is 0.
    #[error("Argon2id needs a lane")]
    NoLane,
    /// There are more than 16,777,215 lanes.
    #[error("Argon2id has at most 16,777,215 lanes")]
    TooManyLanes,
    /// The number of passes is 0.
    #[error("Argon2id needs a pass")]
    NoPass,
    /// There are fewer than 8 KiB of memory for each lane.
    #[error("Argon2id needs 8 KiB of memory for each lane")]
    TooLittleMemory,
    /// The salt has fewer than 8 bytes.
    #[error("the salt is shorter than 8 bytes")]
    ShortSalt,
    /// The output has fewer than 4 bytes.
    #[error("the output is shorter than 4 bytes")]
    ShortOutput,
    /// The password, the salt, the secret, the associated data or the output has 4 GiB or more.
    #[error("an input or the output has 4 GiB or more")]
    TooLong,
    /// An allocation failed.
    #[error("out of memory")]
    Memory(AllocError),
}

impl From<AllocError> for Argon2Error {
    ghost from_gives = { λ source error. error ≡ Memory source };

    fn from(source: AllocError) -> Argon2Error {
        Argon2Error::Memory(source)
    }
}
