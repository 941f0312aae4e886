//! The primitives, each many times over.
//!
//! Each call answers 2^64 - 1 where a length is not one that its primitive has.

ghost use Rattle.std.specs.Prelude.{◌≡◌, ◌≢◌, ◌^◌, ◌-◌};
ghost use Rattle.rusty_paseto_primitives.specs.Blake2.Keyed.{blake2b};
ghost use Rattle.rusty_paseto_primitives.specs.Hmac.{hmac};

/// `bench_blake2b` of `bench_calls`, for C.
#[unsafe(no_mangle)]
pub extern "C" fn paseto_bench_blake2b(
    key: &[u8],
    message: &[u8],
    digest: &mut [u8],
    reps: u32,
) -> u64
    ensures { result ≢ 2 ^ 64 - 1 → digest.new ≡ blake2b key.now 32 message.now }
{
    bench_calls::bench_blake2b(key, message, digest, reps)
}

/// `bench_hmac_sha384` of `bench_calls`, for C.
#[unsafe(no_mangle)]
pub extern "C" fn paseto_bench_hmac_sha384(
    key: &[u8],
    message: &[u8],
    code: &mut [u8],
    reps: u32,
) -> u64
    ensures { result ≢ 2 ^ 64 - 1 → code.new ≡ hmac key.now message.now }
{
    bench_calls::bench_hmac_sha384(key, message, code, reps)
}

/// `bench_xchacha20` of `bench_calls`, for C.
#[unsafe(no_mangle)]
pub extern "C" fn paseto_bench_xchacha20(
    key: &[u8],
    nonce: &[u8],
    data: &mut [u8],
    reps: u32,
) -> u64 {
    bench_calls::bench_xchacha20(key, nonce, data, reps)
}

/// `bench_aes256_ctr` of `bench_calls`, for C.
#[unsafe(no_mangle)]
pub extern "C" fn paseto_bench_aes256_ctr(
    key: &[u8],
    counter: &[u8],
    data: &mut [u8],
    reps: u32,
) -> u64 {
    bench_calls::bench_aes256_ctr(key, counter, data, reps)
}
