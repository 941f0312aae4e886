//! The claims that a builder holds.

ghost use Rattle.std.specs.Prelude.{◌≡◌, ◌⊎◌, false, None, Some, ℕ, List, [], IsSome, IsOk, IfOk, IfErr, OnOk, OnErr, string_bytes};
ghost use Rattle.serde_json.specs.Data.{no_members};
ghost use Rattle.serde_json.specs.Find.{as_object, get_member};
ghost use Rattle.serde_json.specs.View.{view, members_view};
ghost use Rattle.serde_json.specs.Written.{has_float};
ghost use Rattle.rusty_paseto_claims.specs.Error.{IsFault, unexpected};
ghost use Rattle.rusty_paseto_claims.specs.Whole.{first_odd};
ghost use Rattle.rusty_paseto_generic.specs.Error.{IsMemory, IsUnexpected};
ghost use Rattle.rusty_paseto_generic.specs.Builders.Claims.{IsReadBack, IsRefusal, becomes, claim_set, extended, payload, stored, unwrapped, without};

use crate::builders::merging::{put_entry, put_members};
use crate::entry::only_entry;
use crate::error::GenericBuilderError;
use crate::whole::check_whole;
use rusty_paseto_claims::{PasetoClaim, PasetoClaimError, is_whole};
use serde_json::{Map, Value};
use std::alloc::{AllocError, Global};

/// Claims by their keys.
#[derive(Drop)]
pub(crate) struct Claims {
    alloc: Global,
    // The claims are the members of an object, whose text is made with no copy of them.
    object: Value,
    ghost is_object: { IsSome (as_object (view object)) },
    // Each number in it, at any depth, is a whole number of 64 bits.
    ghost whole: { has_float (view object) ≡ false },
}

impl Claims {
    ghost use Rattle.rusty_paseto_generic.specs.Builders.Held.{held};

    /// No claims. They take their memory from the allocator.
    pub(crate) fn new(alloc: Global) -> Self
        ensures { held result ≡ no_members }
    {
        Claims {
            alloc,
            object: Value::Object(Map::new(alloc)),
        }
    }

    /// The allocator of the claims.
    pub(crate) fn allocator(&self) -> Global
        ensures { result ≡ self.now.alloc }
    {
        self.alloc
    }

    /// Stores a claim under its key: the value of an object whose only key is the claim's, and else the
    /// claim's JSON as it is. A claim with an empty key is ignored, and its `to_json` is not called.
    ///
    /// `ClaimError` is returned for a value that contains a number that is not a 64-bit integer, `Unexpected` with the
    /// key, and for a fault of the claim. The claims are then unchanged.
    pub(crate) fn set<C: PasetoClaim>(&mut self, claim: &C) -> Result<(), GenericBuilderError>
        ensures ok { OnOk result (claim_set (C.key claim.now) (C.json claim.now) (held self.old)
            ≡ becomes (held self.new)) }
        ensures err { OnErr result (held self.new ≡ held self.old) }
        ensures fault { IfErr result (IsRefusal (claim_set (C.key claim.now) (C.json claim.now)
            (held self.old))) }
        ensures empty { C.key claim.now ≡ [] → IsOk result }
    {
        let key = claim.get_key();
        if key.is_empty() {
            return Ok(());
        }
        let (key, value) = entry_of(self.alloc, key, claim.to_json(self.alloc)?)?;
        self.store(key, value)
    }

    // Stores a value under a key, as it is.
    fn store(&mut self, key: String, value: Value) -> Result<(), GenericBuilderError>
        ensures ok { OnOk result (stored (string_bytes key) (view value) (held self.old)
            ≡ becomes (held self.new)) }
        ensures err { OnErr result (held self.new ≡ held self.old) }
        ensures fault { IfErr result (IsRefusal (stored (string_bytes key) (view value)
            (held self.old))) }
    {
        if !is_whole(&value) {
            return Err(unexpected(key));
        }
        let Some(members) = self.object.as_object_mut() else {
            unreachable!();
        };
        put_entry(members, key, value)?;
        Ok(())
    }

    /// Stores all values as they are, each under its key, the empty one too.
    ///
    /// `ClaimError` of `Unexpected` with the key is returned for the first key in byte order whose value contains a
    /// number that is not a 64-bit integer. The claims are then unchanged.
    pub(crate) fn extend(&mut self, more: Map<String, Value>) -> Result<(), GenericBuilderError>
        ensures ok { OnOk result (extended (members_view more.entries) (held self.old)
            ≡ becomes (held self.new)) }
        ensures err { OnErr result (held self.new ≡ held self.old) }
        ensures fault { IfErr result (IsRefusal (extended (members_view more.entries)
            (held self.old))) }
    {
        check_whole(&more)?;
        let Some(members) = self.object.as_object_mut() else {
            unreachable!();
        };
        put_members(members, more)?;
        Ok(())
    }

    /// Takes out the claim under the key, if there is one. Does not allocate.
    pub(crate) fn remove(&mut self, key: &str)
        ensures rest { held self.new ≡ without key.now (held self.old) }
        ensures gone { get_member key.now (held self.new) ≡ None }
    {
        let Some(members) = self.object.as_object_mut() else {
            unreachable!();
        };
        drop(members.remove(key));
    }

    /// The text of the claims: the object of them as JSON, with no space, its keys in byte order. It is
    /// read as that object, where the values are nested at most 126 deep. It fails only if an allocation fails.
    pub(crate) fn to_text(&self) -> Result<String, AllocError>
        ensures text { IfOk result (λ text. string_bytes text ≡ payload (held self.now)) }
        ensures read_back { OnOk result (IsReadBack (held self.now)) }
    {
        self.object.to_string(self.alloc)
    }
}

// The fault of a value under this key.
fn unexpected(key: String) -> GenericBuilderError
    ensures { IsUnexpected (string_bytes key) result }
{
    GenericBuilderError::ClaimError {
        source: PasetoClaimError::Unexpected(key),
    }
}

// A claim's key, and what is stored under it of the claim's JSON. Only a key that is not in the JSON is copied.
fn entry_of(alloc: Global, key: &str, json: Value) -> Result<(String, Value), AllocError>
    ensures { IfOk result (λ entry. (string_bytes entry.0 ≡ key.now)
        × (view entry.1 ≡ unwrapped key.now (view json))) }
{
    match only_entry(key, json) {
        Ok(entry) => Ok(entry),
        Err(json) => Ok((String::from_str(alloc, key)?, json)),
    }
}
