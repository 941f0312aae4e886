//! X25519, many times over.

ghost use Rattle.std.specs.Prelude.{◌≡◌, ◌≢◌, ◌^◌, ◌-◌};
ghost use Rattle.paseto_x25519.specs.Agreement.{x25519};

/// `bench_x25519` of `bench_calls`, for C.
#[unsafe(no_mangle)]
pub extern "C" fn paseto_bench_x25519(scalar: &[u8], u: &[u8], shared: &mut [u8], reps: u32) -> u64
    ensures { result ≢ 2 ^ 64 - 1 → shared.new ≡ x25519 scalar.now u.now }
{
    bench_calls::bench_x25519(scalar, u, shared, reps)
}
