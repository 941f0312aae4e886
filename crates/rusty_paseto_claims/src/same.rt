//! Comparing JSON values.

ghost use Rattle.std.specs.Prelude.{◌≡◌, ◌↔◌, IsTrue};
ghost use Rattle.serde_json.specs.View.{view, number_view, items_view, members_view};
ghost use Rattle.rusty_paseto_claims.specs.Same.{IsSame, same, same_items, same_members, same_number};

use serde_json::{Map, Number, Value};

/// Whether two values are the same, and every number in them is a 64-bit integer.
///
/// Numbers are compared by value, and objects by what each key has: `{"a":1,"b":2}` is the same as
/// `{"b":2,"a":1}`. A value that contains another number is not even the same as itself.
///
/// Does not allocate.
#[tactic(auto, using(crate::proofs::SameLemmas::test_is_same))]
pub fn same_value(left: &Value, right: &Value) -> bool
    ensures { IsTrue result ↔ IsSame (view left.now) (view right.now) }
{
    is_same(left, right)
}

#[cycle(same)]
fn is_same(left: &Value, right: &Value) -> bool
    ensures { result ≡ same (view left.now) (view right.now) }
{
    match left {
        Value::Null => right.is_null(),
        Value::Bool(truth) => match right.as_bool() {
            Some(other) => *truth == other,
            None => false,
        },
        Value::Number(number) => match right.as_number() {
            Some(other) => is_same_number(number, other),
            None => false,
        },
        Value::String(text) => match right.as_str() {
            Some(other) => text.as_str() == other,
            None => false,
        },
        Value::Array(items) => match right.as_array() {
            Some(others) => are_items_same(items, others),
            None => false,
        },
        Value::Object(members) => match right.as_object() {
            Some(others) => are_members_same(members, others),
            None => false,
        },
    }
}

fn is_same_number(left: &Number, right: &Number) -> bool
    ensures { result ≡ same_number (number_view left.now) (number_view right.now) }
{
    match (left.as_u64(), right.as_u64()) {
        (Some(natural), Some(other)) => natural == other,
        (None, None) => match (left.as_i64(), right.as_i64()) {
            (Some(integer), Some(other)) => integer == other,
            _ => false,
        },
        _ => false,
    }
}

#[cycle(same)]
fn are_items_same(left: &Vec<Value>, right: &Vec<Value>) -> bool
    ensures { result ≡ same_items (items_view left.now.items) (items_view right.now.items) }
{
    let mut other_items = right.iter();
    for item in left {
        match other_items.next() {
            Some(other) => if !is_same(item, other) {
                return false;
            },
            None => return false,
        }
    }
    other_items.next().is_none()
}

#[cycle(same)]
fn are_members_same(left: &Map<String, Value>, right: &Map<String, Value>) -> bool
    ensures { result ≡ same_members (members_view left.now.entries)
        (members_view right.now.entries) }
{
    let mut other_members = right.iter();
    for (key, member) in left.iter() {
        match other_members.next() {
            Some((other_key, other)) => if key.as_str() != other_key.as_str()
                || !is_same(member, other)
            {
                return false;
            },
            None => return false,
        }
    }
    other_members.next().is_none()
}
