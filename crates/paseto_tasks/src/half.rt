//! The command `public`: the public half of a private key.

ghost use Rattle.paseto_keys.specs.AnyKey.{parts_of};
ghost use Rattle.paseto_tasks.specs.Error.{Fails, nothing};
ghost use Rattle.paseto_tasks.specs.Half.{HasHalf, HasNoHalf};
ghost use Rattle.paseto_tasks.specs.Output.{Makes};

use crate::error::ProgramError;
use crate::output::with_line_feed;
use paseto_keys::AnyKey;
use std::alloc::Global;

/// Returns the line of the public half of a private key.
///
/// A key that is not a private one is refused as `Key(OtherType)`, and a private key without a
/// public half of its own as `Key(InvalidKey)`: one of version 2 or 4 whose last 32 bytes belong to
/// another seed, or one of version 3 that is 0 or not below the order of P-384.
pub fn public(alloc: Global, key: &AnyKey) -> Result<String, ProgramError>
    ensures { Makes (HasHalf (parts_of key.now)) (HasNoHalf (parts_of key.now)) (Fails nothing) result }
{
    let half = key.public_half(alloc)?;
    with_line_feed(half.to_line(alloc)?)
}
