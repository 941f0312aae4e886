//! Reading JSON, many times over.

ghost use Rattle.std.specs.Prelude.{◌≢◌, ◌^◌, ◌-◌, IsSome};
ghost use Rattle.serde_json.specs.Read.{read};

use serde_json::Value;
use std::alloc::Global;
use std::str;

/// What is answered where a text is no JSON object or a repetition was refused.
const FAILED: u64 = u64::MAX;

/// Reads `text` as a JSON object, `reps` times and at least once. The answer is how many members the objects have,
/// added up.
pub fn bench_json_read(alloc: Global, text: &[u8], reps: u32) -> u64
    ensures { result ≢ 2 ^ 64 - 1 → IsSome (read text.now) }
{
    read_often(alloc, text, reps).unwrap_or(FAILED)
}

/// Reads the text `reps` times, and at least once, and adds up the members.
fn read_often(alloc: Global, text: &[u8], reps: u32) -> Option<u64>
    ensures { IsSome result → IsSome (read text.now) }
{
    let text = str::from_utf8(text).ok()?;
    let mut sum = 0u64;
    'repetitions: for _ in 1..reps {
        sum = sum.wrapping_add(count_members(alloc, text)?);
    }
    Some(sum.wrapping_add(count_members(alloc, text)?))
}

/// How many members the object that a text is has.
fn count_members(alloc: Global, text: &str) -> Option<u64>
    ensures { IsSome result → IsSome (read text.now) }
{
    let value = Value::from_str(alloc, text).ok()?;
    let members = value.as_object()?;
    Some(members.len() as u64)
}
