//! Ed25519 and public tokens of version 4, which it signs, each many times over.

ghost use Rattle.std.specs.Prelude.{◌≡◌, ◌≢◌, ◌^◌, ◌-◌, IsSome, IfSome};
ghost use Rattle.std.specs.String.{string_bytes};
ghost use Rattle.rusty_paseto_parts.specs.Payload.{payload_text};
ghost use Rattle.paseto_ed25519.specs.Ed25519.{Ed25519Verifies, ed25519_public, ed25519_sign};
ghost use Rattle.bench_calls.specs.Signed.{IsSignedToken, VerifiesAs};

use crate::copying::{copy_bytes, last_byte};
use paseto_ed25519::Ed25519;
use rusty_paseto_core::{Paseto, SignatureScheme};
use rusty_paseto_parts::{
    Key, PasetoAsymmetricPrivateKey, PasetoAsymmetricPublicKey, Payload, Public, V4,
};
use std::alloc::Global;
use std::str;

/// What is answered where a length is wrong, a text is none or a repetition was refused.
const FAILED: u64 = u64::MAX;

/// Makes the public key of a seed of 32 bytes, `reps` times and at least once. The last one, which `public`
/// has just the room for, is made of the seed as it is, and each other one of the seed with the number of
/// the repetition in its first four bytes.
///
/// The answer is the sum of the public keys' last bytes, or 2^64 - 1 where a length is wrong.
pub fn bench_ed25519_public_key(seed: &[u8], public: &mut [u8], reps: u32) -> u64
    ensures { result ≢ 2 ^ 64 - 1 → public.new ≡ ed25519_public seed.now }
{
    let (Some(seed), 32) = (seed.as_array::<32>(), public.len()) else {
        return FAILED;
    };
    let mut sum = 0u64;
    let mut numbered = *seed;
    'repetitions: for repetition in 1..reps {
        numbered[..4].copy_from_slice(&repetition.to_le_bytes());
        sum = sum.wrapping_add(Ed25519::public_key(&numbered)[31] as u64);
    }
    let last = Ed25519::public_key(seed);
    public.copy_from_slice(&last);
    sum.wrapping_add(last[31] as u64)
}

/// Signs `message` by Ed25519 under a private key of 64 bytes, `reps` times and at least once. `signature` has
/// 64 bytes.
///
/// The answer is the sum of the signatures' last bytes, or 2^64 - 1 where a length is wrong or the key's halves
/// are of two seeds.
pub fn bench_ed25519_sign(
    alloc: Global,
    private: &[u8],
    message: &[u8],
    signature: &mut [u8],
    reps: u32,
) -> u64
    ensures { result ≢ 2 ^ 64 - 1 → signature.new ≡ ed25519_sign private.now message.now }
{
    sign_messages(alloc, private, message, signature, reps).unwrap_or(FAILED)
}

/// Signs `message` by Ed25519 as `bench_ed25519_sign` does, under a private key whose halves are asked once.
pub fn bench_ed25519_sign_with_key(
    alloc: Global,
    private: &[u8],
    message: &[u8],
    signature: &mut [u8],
    reps: u32,
) -> u64
    ensures { result ≢ 2 ^ 64 - 1 → signature.new ≡ ed25519_sign private.now message.now }
{
    sign_with_key(alloc, private, message, signature, reps).unwrap_or(FAILED)
}

/// Verifies a signature of 64 bytes by Ed25519, `reps` times and at least once.
///
/// The answer is 0, or 2^64 - 1 where it is not valid.
pub fn bench_ed25519_verify(
    alloc: Global,
    public: &[u8],
    message: &[u8],
    signature: &[u8],
    reps: u32,
) -> u64
    ensures { result ≢ 2 ^ 64 - 1 → Ed25519Verifies public.now message.now signature.now }
{
    verify_messages(alloc, public, message, signature, reps).unwrap_or(FAILED)
}

/// Signs `text` in version 4 by Ed25519 under a private key of 64 bytes, `reps` times and at least once. `token`
/// has just the room for the token.
///
/// The answer is the sum of the tokens' last bytes, or 2^64 - 1 where a length is wrong, the text is not
/// UTF-8, the key's halves are of two seeds or memory was refused.
pub fn bench_v4_sign(alloc: Global, private: &[u8], text: &[u8], token: &mut [u8], reps: u32) -> u64
    ensures { result ≢ 2 ^ 64 - 1 → IsSignedToken private.now text.now token.new }
{
    sign_tokens(alloc, private, text, token, reps).unwrap_or(FAILED)
}

/// Verifies a token of version 4 by Ed25519 under a public key of 32 bytes, `reps` times and at least once.
/// `text` has just the room for its text.
///
/// The answer is the sum of the texts' last bytes, or 2^64 - 1 where a length is wrong, the token was
/// refused or memory was.
pub fn bench_v4_verify(
    alloc: Global,
    public: &[u8],
    token: &[u8],
    text: &mut [u8],
    reps: u32,
) -> u64
    ensures { result ≢ 2 ^ 64 - 1 → VerifiesAs public.now token.now text.new }
{
    verify_tokens(alloc, public, token, text, reps).unwrap_or(FAILED)
}

/// Signs the message `reps` times, and at least once, under a key that is asked before, and adds up the signatures'
/// last bytes.
fn sign_with_key(
    alloc: Global,
    private: &[u8],
    message: &[u8],
    signature: &mut [u8],
    reps: u32,
) -> Option<u64>
    ensures { IsSome result → signature.new ≡ ed25519_sign private.now message.now }
{
    let key = Key::from(*private.as_array::<64>()?);
    let mut signer = Ed25519::with_key(&key).ok()?;
    let mut sum = 0u64;
    'repetitions: for _ in 1..reps {
        let made = signer.sign(alloc, private, message).ok()?;
        sum = sum.wrapping_add(made[63] as u64);
    }
    let made = signer.sign(alloc, private, message).ok()?;
    copy_bytes(&made, signature)?;
    Some(sum.wrapping_add(made[63] as u64))
}

/// Signs the message `reps` times, and at least once, and adds up the signatures' last bytes.
fn sign_messages(
    alloc: Global,
    private: &[u8],
    message: &[u8],
    signature: &mut [u8],
    reps: u32,
) -> Option<u64>
    ensures { IsSome result → signature.new ≡ ed25519_sign private.now message.now }
{
    let mut sum = 0u64;
    'repetitions: for _ in 1..reps {
        let made = Ed25519.sign(alloc, private, message).ok()?;
        sum = sum.wrapping_add(made[63] as u64);
    }
    let made = Ed25519.sign(alloc, private, message).ok()?;
    copy_bytes(&made, signature)?;
    Some(sum.wrapping_add(made[63] as u64))
}

/// Verifies the signature `reps` times, and at least once.
fn verify_messages(
    alloc: Global,
    public: &[u8],
    message: &[u8],
    signature: &[u8],
    reps: u32,
) -> Option<u64>
    ensures { IsSome result → Ed25519Verifies public.now message.now signature.now }
{
    let signature = signature.as_array::<64>()?;
    'repetitions: for _ in 1..reps {
        Ed25519.verify(alloc, public, message, signature).ok()?;
    }
    Ed25519.verify(alloc, public, message, signature).ok()?;
    Some(0)
}

/// Signs the text `reps` times, and at least once, and adds up the tokens' last bytes.
fn sign_tokens(
    alloc: Global,
    private: &[u8],
    text: &[u8],
    token: &mut [u8],
    reps: u32,
) -> Option<u64>
    ensures { IsSome result → IsSignedToken private.now text.now token.new }
{
    let private = Key::from(private.as_array::<64>()?);
    let text = Payload::from(str::from_utf8(text).ok()?);
    let mut sum = 0u64;
    'repetitions: for _ in 1..reps {
        let signed = sign_token(alloc, &private, text)?;
        sum = sum.wrapping_add(last_byte(signed.as_bytes()));
    }
    let signed = sign_token(alloc, &private, text)?;
    copy_bytes(signed.as_bytes(), token)?;
    Some(sum.wrapping_add(last_byte(signed.as_bytes())))
}

/// The signed token of a text.
fn sign_token(alloc: Global, private: &Key<64>, text: Payload<'_>) -> Option<String>
    ensures { IfSome result (λ token.
        IsSignedToken private.now (payload_text text.entry) (string_bytes token)) }
{
    let mut paseto = Paseto::<V4, Public>::default();
    paseto.set_payload(text);
    paseto
        .try_sign(
            alloc,
            &mut Ed25519,
            &PasetoAsymmetricPrivateKey::from(private),
        )
        .ok()
}

/// Verifies the token `reps` times, and at least once, and adds up the texts' last bytes.
fn verify_tokens(
    alloc: Global,
    public: &[u8],
    token: &[u8],
    text: &mut [u8],
    reps: u32,
) -> Option<u64>
    ensures { IsSome result → VerifiesAs public.now token.now text.new }
{
    let public = Key::from(public.as_array::<32>()?);
    let key = PasetoAsymmetricPublicKey::<V4, Public>::from(&public);
    let token = str::from_utf8(token).ok()?;
    let mut sum = 0u64;
    'repetitions: for _ in 1..reps {
        let read = Paseto::<V4, Public>::try_verify(alloc, &Ed25519, token, &key, None, None).ok()?;
        sum = sum.wrapping_add(last_byte(read.as_bytes()));
    }
    let read = Paseto::<V4, Public>::try_verify(alloc, &Ed25519, token, &key, None, None).ok()?;
    copy_bytes(read.as_bytes(), text)?;
    Some(sum.wrapping_add(last_byte(read.as_bytes())))
}
