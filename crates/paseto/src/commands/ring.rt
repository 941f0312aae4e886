//! Key rings: the keys of a folder, each by its id.

ghost use Rattle.std.specs.Prelude.{◌≡◌};
ghost use Rattle.serde_json.specs.View.{view};
ghost use Rattle.paseto_tasks.specs.Error.{Fails, nothing};
ghost use Rattle.paseto.specs.Check.{demanded};
ghost use Rattle.paseto.specs.Gives.{Gives};
ghost use Rattle.paseto.specs.Ring.{IsTheValueIn, RefusesRing};

use crate::commands::answers::found;
use crate::commands::check::Demands;
use paseto_keys::{AnyKey, admit_by_ring};
use paseto_tasks::ProgramError;
use serde_json::Value;
use std::alloc::Global;

/// The claims of a token, with the key that its footer names. Of the keys only those of the token's
/// version and purpose count.
pub fn claims_by_ring(
    alloc: Global,
    keys: &[AnyKey],
    demands: &Demands<'_>,
    token: &str,
) -> Result<Value, ProgramError>
    ensures { Gives (λ value. IsTheValueIn keys.now (demanded demands.now).footer
        (demanded demands.now).assertion token.now (view value))
        (RefusesRing keys.now (demanded demands.now).footer (demanded demands.now).assertion token.now)
        (Fails nothing) result }
{
    found(
        alloc,
        admit_by_ring(alloc, keys, &demands.reader(alloc), token),
    )
}
