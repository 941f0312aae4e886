//! Tests on the numbers of JSON values.

ghost use Rattle.std.specs.Prelude.{◌≡◌, option_map};
ghost use Rattle.std.specs.List.Sorted.{IsStrictlySortedBy};
ghost use Rattle.std.specs.Map.{keys_of};
ghost use Rattle.std.specs.String.{string_cmp};
ghost use Rattle.serde_json.specs.View.{view, items_view, members_view};
ghost use Rattle.rusty_paseto_claims.specs.Whole.{IsOdd, are_whole, first_odd, is_whole as is_whole_data, odd_key as odd_key_of};

use serde_json::{Map, Value};

/// Whether every number in the value, at any depth, is a 64-bit integer: one from -9223372036854775808 to
/// 18446744073709551615 that was not written with a fraction or an exponent.
///
/// Does not allocate.
#[cycle(whole)]
pub fn is_whole(value: &Value) -> bool
    ensures { result ≡ is_whole_data (view value.now) }
{
    match value {
        Value::Null => true,
        Value::Bool(_) => true,
        Value::Number(number) => !number.is_f64(),
        Value::String(_) => true,
        Value::Array(items) => are_items_whole(items),
        Value::Object(members) => find_odd(members).is_none(),
    }
}

#[cycle(whole)]
fn are_items_whole(items: &Vec<Value>) -> bool
    ensures { result ≡ are_whole (items_view items.now.items) }
{
    for item in items {
        if !is_whole(item) {
            return false;
        }
    }
    true
}

#[cycle(whole)]
fn find_odd(members: &Map<String, Value>) -> Option<&str>
    ensures value { option_map (λ key. key.now) result
        ≡ first_odd (members_view members.now.entries) }
    ensures ordered { IsStrictlySortedBy string_cmp (keys_of members.now.entries) }
{
    for (key, member) in members.iter() {
        if !is_whole(member) {
            return Some(key.as_str());
        }
    }
    None
}

/// The first key of an object, in byte order, whose value contains a number that is not a 64-bit integer, or the empty
/// text for a value that is not an object and contains one. `None` is returned if and only if [`is_whole`] holds.
///
/// Does not allocate.
pub fn odd_key(value: &Value) -> Option<&str>
    ensures key { option_map (λ key. key.now) result ≡ odd_key_of (view value.now) }
    ensures first { IsOdd (option_map (λ key. key.now) result) (view value.now) }
{
    if let Value::Object(members) = value {
        return find_odd(members);
    }
    if is_whole(value) { None } else { Some("") }
}
