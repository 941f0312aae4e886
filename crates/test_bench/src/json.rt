//! Reading JSON, many times over.

ghost use Rattle.std.specs.Prelude.{◌≢◌, ◌^◌, ◌-◌, IsSome};
ghost use Rattle.serde_json.specs.Read.{read};

use std::alloc::Global;

/// `bench_json_read` of `bench_calls`, for C.
#[unsafe(no_mangle)]
pub extern "C" fn paseto_bench_json_read(alloc: Global, text: &[u8], reps: u32) -> u64
    ensures { result ≢ 2 ^ 64 - 1 → IsSome (read text.now) }
{
    bench_calls::bench_json_read(alloc, text, reps)
}
