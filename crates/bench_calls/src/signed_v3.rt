//! Public tokens of version 3, which P-384 signs, each many times over.
//!
//! Each call answers 2^64 - 1 where a length is wrong, a text is not UTF-8, the scheme refused or memory was.

ghost use Rattle.std.specs.Prelude.{◌≢◌, ◌^◌, ◌-◌, IsSome, IfSome};
ghost use Rattle.std.specs.String.{string_bytes};
ghost use Rattle.rusty_paseto_parts.specs.Payload.{payload_text};
ghost use Rattle.bench_calls.specs.Signed.{IsSignedV3Token, VerifiesInV3As};

use crate::copying::{copy_bytes, last_byte};
use paseto_p384::P384;
use rusty_paseto_core::Paseto;
use rusty_paseto_parts::{
    Key, PasetoAsymmetricPrivateKey, PasetoAsymmetricPublicKey, Payload, Public, V3,
};
use std::alloc::Global;
use std::str;

/// What is answered where a length is wrong, a text is none or a repetition was refused.
const FAILED: u64 = u64::MAX;

/// Signs `text` in version 3 by P-384 under a private key of 48 bytes, `reps` times and at least once. `token` has
/// just the room for the token. The answer is the sum of the tokens' last bytes.
pub fn bench_v3_sign(alloc: Global, private: &[u8], text: &[u8], token: &mut [u8], reps: u32) -> u64
    ensures { result ≢ 2 ^ 64 - 1 → IsSignedV3Token private.now text.now token.new }
{
    sign_tokens(alloc, private, text, token, reps).unwrap_or(FAILED)
}

/// Verifies a token of version 3 by P-384 under a public key of 49 bytes, `reps` times and at least once. `text` has
/// just the room for its text. The answer is the sum of the texts' last bytes.
pub fn bench_v3_verify(
    alloc: Global,
    public: &[u8],
    token: &[u8],
    text: &mut [u8],
    reps: u32,
) -> u64
    ensures { result ≢ 2 ^ 64 - 1 → VerifiesInV3As public.now token.now text.new }
{
    verify_tokens(alloc, public, token, text, reps).unwrap_or(FAILED)
}

/// Signs the text `reps` times, and at least once, and adds up the tokens' last bytes.
fn sign_tokens(
    alloc: Global,
    private: &[u8],
    text: &[u8],
    token: &mut [u8],
    reps: u32,
) -> Option<u64>
    ensures { IsSome result → IsSignedV3Token private.now text.now token.new }
{
    let private = Key::from(private.as_array::<48>()?);
    let text = Payload::from(str::from_utf8(text).ok()?);
    let mut sum = 0u64;
    'repetitions: for _ in 1..reps {
        let signed = sign_token(alloc, &private, text)?;
        sum = sum.wrapping_add(last_byte(signed.as_bytes()));
    }
    let signed = sign_token(alloc, &private, text)?;
    copy_bytes(signed.as_bytes(), token)?;
    Some(sum.wrapping_add(last_byte(signed.as_bytes())))
}

/// The signed token of a text.
fn sign_token(alloc: Global, private: &Key<48>, text: Payload<'_>) -> Option<String>
    ensures { IfSome result (λ token.
        IsSignedV3Token private.now (payload_text text.entry) (string_bytes token)) }
{
    let mut paseto = Paseto::<V3, Public>::default();
    paseto.set_payload(text);
    paseto
        .try_sign(alloc, &mut P384, &PasetoAsymmetricPrivateKey::from(private))
        .ok()
}

/// Verifies the token `reps` times, and at least once, and adds up the texts' last bytes.
fn verify_tokens(
    alloc: Global,
    public: &[u8],
    token: &[u8],
    text: &mut [u8],
    reps: u32,
) -> Option<u64>
    ensures { IsSome result → VerifiesInV3As public.now token.now text.new }
{
    let public = Key::from(public.as_array::<49>()?);
    let key = PasetoAsymmetricPublicKey::<V3, Public>::try_from(&public).ok()?;
    let token = str::from_utf8(token).ok()?;
    let mut sum = 0u64;
    'repetitions: for _ in 1..reps {
        let read = Paseto::<V3, Public>::try_verify(alloc, &P384, token, &key, None, None).ok()?;
        sum = sum.wrapping_add(last_byte(read.as_bytes()));
    }
    let read = Paseto::<V3, Public>::try_verify(alloc, &P384, token, &key, None, None).ok()?;
    copy_bytes(read.as_bytes(), text)?;
    Some(sum.wrapping_add(last_byte(read.as_bytes())))
}
