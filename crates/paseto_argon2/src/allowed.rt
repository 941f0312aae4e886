//! The cost of Argon2id, and which costs are allowed (RFC 9106, section 3.1).

ghost use Rattle.std.specs.Prelude.{◌≡◌, length};
ghost use Rattle.paseto_argon2.specs.Allowed.{fault};

use crate::error::Argon2Error;

/// The cost of Argon2id, for the caller as well as for an attacker who guesses passwords.
///
/// RFC 9106, section 4, recommends 2 GiB with one pass and 4 lanes, or, with less memory, 64 MiB with three passes and
/// 4 lanes.
#[derive(Debug, Clone, Copy, PartialEq, Eq)]
pub struct Parameters {
    /// The memory in KiB, at least 8 for each lane.
    pub memory: u32,
    /// How often all of the memory is filled, at least once.
    pub passes: u32,
    /// How many threads could fill the memory in parallel, 1 to 16,777,215. This implementation uses one thread, so
    /// more lanes cost the same.
    pub lanes: u32,
}

// The first length that four bytes do not hold.
const TOO_LONG: usize = 1 << 32;

const TOO_MANY_LANES: u32 = 1 << 24;

// What is wrong with what Argon2id is given, if anything is.
pub(crate) fn fault(
    password: &[u8],
    salt: &[u8],
    secret: &[u8],
    associated_data: &[u8],
    parameters: Parameters,
    output: &[u8],
) -> Option<Argon2Error>
    ensures { result ≡ fault (length password.now) (length salt.now) (length secret.now) (length associated_data.now)
        parameters (length output.now) }
{
    if parameters.lanes == 0 {
        return Some(Argon2Error::NoLane);
    }
    if parameters.lanes >= TOO_MANY_LANES {
        return Some(Argon2Error::TooManyLanes);
    }
    if parameters.passes == 0 {
        return Some(Argon2Error::NoPass);
    }
    if parameters.memory < 8 * parameters.lanes {
        return Some(Argon2Error::TooLittleMemory);
    }
    if salt.len() < 8 {
        return Some(Argon2Error::ShortSalt);
    }
    if output.len() < 4 {
        return Some(Argon2Error::ShortOutput);
    }
    let inputs = password
        .len()
        .max(salt.len())
        .max(secret.len())
        .max(associated_data.len());
    if inputs.max(output.len()) >= TOO_LONG {
        return Some(Argon2Error::TooLong);
    }
    None
}
