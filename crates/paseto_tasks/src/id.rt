//! The command `id`: the id of a key.

ghost use Rattle.paseto_keys.specs.AnyKey.{parts_of};
ghost use Rattle.paseto_tasks.specs.Error.{Fails, nothing};
ghost use Rattle.paseto_tasks.specs.Id.{HasId, HasNoId};
ghost use Rattle.paseto_tasks.specs.Output.{Makes};

use crate::error::ProgramError;
use crate::output::with_line_feed;
use paseto_keys::AnyKey;
use std::alloc::Global;

/// Returns the line of the id of a key. A key that has none is refused as `Key`.
pub fn id(alloc: Global, key: &AnyKey) -> Result<String, ProgramError>
    ensures { Makes (HasId (parts_of key.now)) (HasNoId (parts_of key.now)) (Fails nothing) result }
{
    with_line_feed(key.id(alloc)?)
}
