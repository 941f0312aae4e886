//! Values whose numbers are 64-bit integers.

ghost use Rattle.std.specs.Prelude.{◌≡◌, None, IfErr, OnOk};
ghost use Rattle.std.specs.List.Sorted.{IsStrictlySortedBy};
ghost use Rattle.std.specs.Map.{keys_of};
ghost use Rattle.std.specs.String.{string_cmp};
ghost use Rattle.serde_json.specs.View.{members_view};
ghost use Rattle.rusty_paseto_claims.specs.Whole.{first_odd};
ghost use Rattle.rusty_paseto_generic.specs.Validator.{IsFound};
ghost use Rattle.rusty_paseto_generic.specs.Parsers.Rules.{odd_fault};

use rusty_paseto_claims::{PasetoClaimError, is_whole};
use serde_json::{Map, Value};

/// Refuses the first key, in byte order, whose value is not whole.
pub(crate) fn check_whole(members: &Map<String, Value>) -> Result<(), PasetoClaimError>
    ensures ok { OnOk result (first_odd (members_view members.now.entries) ≡ None) }
    ensures err { IfErr result (IsFound (odd_fault (members_view members.now.entries))) }
    ensures ordered { IsStrictlySortedBy string_cmp (keys_of members.now.entries) }
{
    for (key, value) in members.iter() {
        if !is_whole(value) {
            return Err(PasetoClaimError::Unexpected(key.clone()?));
        }
    }
    Ok(())
}
