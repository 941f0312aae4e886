//! Putting members into others, all of them or none.

ghost use Rattle.std.specs.Prelude.{◌≡◌, ℕ, List, true, false, IsSome, OnOk, OnErr, string_bytes};
ghost use Rattle.std.specs.List.Sorted.{IsStrictlySortedBy};
ghost use Rattle.std.specs.Map.{keys_of};
ghost use Rattle.std.specs.String.{string_cmp};
ghost use Rattle.serde_json.specs.Data.{put};
ghost use Rattle.serde_json.specs.Find.{get_member};
ghost use Rattle.serde_json.specs.View.{view, members_view};
ghost use Rattle.serde_json.specs.Written.{members_have_float};
ghost use Rattle.rusty_paseto_generic.specs.Builders.Claims.{put_all};
ghost use Rattle.rusty_paseto_generic.specs.Builders.Reserved.{IsReserved, filled, is_mark, is_marked};

use serde_json::{Map, Value};
use std::alloc::AllocError;
use std::mem;

/// What marks a place that is reserved: no claim holds a fraction.
const FRACTION: f64 = 0.5;

/// Puts the others into the members, each in the place of a member with its key. No value is copied: the members are
/// moved to the others, once a place is reserved there for each of them.
///
/// It fails only if an allocation fails, and the members are then unchanged.
pub(crate) fn put_members(
    members: &mut Map<String, Value>,
    others: Map<String, Value>,
) -> Result<(), AllocError>
    requires members { members_have_float (members_view members.old.entries) ≡ false }
    requires others { members_have_float (members_view others.entries) ≡ false }
    requires ordered { IsStrictlySortedBy string_cmp (keys_of others.entries) }
    ensures ok { OnOk result (members_view members.new.entries
        ≡ put_all (members_view others.entries) (members_view members.old.entries)) }
    ensures err { OnErr result (members.new.entries ≡ members.old.entries) }
{
    let mut all = others;
    reserve(members, &mut all)?;
    let own = mem::replace(members, all);
    fill(members, own);
    Ok(())
}

// Reserves a place in others for each member whose key they lack.
fn reserve(members: &Map<String, Value>, others: &mut Map<String, Value>) -> Result<(), AllocError>
    requires others { members_have_float (members_view others.old.entries) ≡ false }
    requires ordered { IsStrictlySortedBy string_cmp (keys_of others.old.entries) }
    ensures ok { OnOk result (IsReserved (members_view members.now.entries)
        (members_view others.old.entries) (members_view others.new.entries)) }
    ensures ordered { IsStrictlySortedBy string_cmp (keys_of others.new.entries) }
    ensures own { IsStrictlySortedBy string_cmp (keys_of members.now.entries) }
{
    for (key, _) in members.iter() {
        if !others.contains_key(key.as_str()) {
            put_entry(others, key.clone()?, mark())?;
        }
    }
    Ok(())
}

// What marks a place that is reserved.
fn mark() -> Value
    ensures { is_mark (view result) ≡ true }
{
    Value::from(FRACTION)
}

// Moves each member to its place, where one was reserved for it.
fn fill(all: &mut Map<String, Value>, members: Map<String, Value>)
    requires own { (key : List ℕ) → is_marked (get_member key (members_view all.old.entries)) ≡ true
        → IsSome (get_member key (members_view members.entries)) }
    requires members { members_have_float (members_view members.entries) ≡ false }
    requires ordered { IsStrictlySortedBy string_cmp (keys_of all.old.entries) }
    ensures filled { (key : List ℕ) → get_member key (members_view all.new.entries)
        ≡ filled (get_member key (members_view all.old.entries))
        (get_member key (members_view members.entries)) }
    ensures ordered { IsStrictlySortedBy string_cmp (keys_of all.new.entries) }
{
    for (key, value) in members {
        if is_reserved(all, key.as_str()) {
            replace(all, key, value);
        }
    }
}

// Whether the place of a key is reserved.
fn is_reserved(all: &Map<String, Value>, key: &str) -> bool
    ensures { result ≡ is_marked (get_member key.now (members_view all.now.entries)) }
{
    match all.get(key) {
        Some(value) => value.is_f64(),
        None => false,
    }
}

// Puts a value in the place of another.
fn replace(all: &mut Map<String, Value>, key: String, value: Value)
    requires { IsSome (get_member (string_bytes key) (members_view all.old.entries)) }
    ensures put { members_view all.new.entries
        ≡ put (string_bytes key) (view value) (members_view all.old.entries) }
    ensures ordered { IsStrictlySortedBy string_cmp (keys_of all.new.entries) }
{
    match all.insert(key, value) {
        Ok(replaced) => drop(replaced),
        Err(_) => unreachable!(),
    }
}

/// Puts an entry into members. It fails only if an allocation fails, and the members are then unchanged.
pub(crate) fn put_entry(
    members: &mut Map<String, Value>,
    key: String,
    value: Value,
) -> Result<(), AllocError>
    ensures ok { OnOk result (members_view members.new.entries
        ≡ put (string_bytes key) (view value) (members_view members.old.entries)) }
    ensures err { OnErr result (members.new.entries ≡ members.old.entries) }
    ensures ordered { IsStrictlySortedBy string_cmp (keys_of members.new.entries) }
{
    drop(members.insert(key, value)?);
    Ok(())
}
