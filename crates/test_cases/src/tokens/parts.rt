//! Tokens put together from the primitives and the toys, with a nonce of zeros where none is given.

ghost use Rattle.std.specs.Prelude.{◌≤◌};

use crate::kinds::{Binding, Kind, SECRET};
use rusty_paseto_core::{
    PasetoError, PreAuthenticationEncoding, SealedBox, SignatureScheme, to_section,
};
use rusty_paseto_primitives::{
    aes256_ctr_apply, blake2b_keyed, hkdf_sha384_expand, hkdf_sha384_extract, hmac_sha384,
    xchacha20_apply,
};
use std::alloc::Global;
use std::process::Abort;
use test_toys::{ToyBox, ToyV1, ToyV2, ToyV3, ToyV4, toy_partner_v3};

/// The key of local tokens.
pub(crate) const KEY: [u8; 32] = [7; 32];

const ENCRYPTION: &[u8; 21] = b"paseto-encryption-key";

const AUTHENTICATION: &[u8; 24] = b"paseto-auth-key-for-aead";

/// A token of any payload, with no footer.
pub(crate) fn token_of_payload(
    rt: &impl Abort,
    alloc: Global,
    kind: Kind,
    payload: &[u8],
) -> String {
    let header = kind.header();
    let section = to_section(alloc, payload).expect(rt, "a section");
    format!(in alloc; "{header}{section}").expect(rt, "memory")
}

// What a salt and the info give under the key.
fn derived<const N: usize>(salt: &[u8], info: &[u8]) -> [u8; N]
    requires { N ≤ 12240 }
{
    let mut derived = [0u8; N];
    hkdf_sha384_expand(&hkdf_sha384_extract(salt, &KEY), info, &mut derived);
    derived
}

// Masks data of version 1.
fn apply_v1(rt: &impl Abort, nonce: &[u8; 32], data: &mut [u8]) {
    let key: [u8; 32] = derived(&nonce[..16], ENCRYPTION);
    let counter = nonce.last_chunk::<16>().expect(rt, "a counter");
    aes256_ctr_apply(&key, counter, data);
}

// Masks data of version 3.
fn apply_v3(rt: &impl Abort, nonce: &[u8; 32], data: &mut [u8]) {
    let mut info = [0u8; 53];
    info[..21].copy_from_slice(ENCRYPTION);
    info[21..].copy_from_slice(nonce);
    let keys: [u8; 48] = derived(&[], &info);
    let key = keys.first_chunk::<32>().expect(rt, "a key");
    let counter = keys.last_chunk::<16>().expect(rt, "a counter");
    aes256_ctr_apply(key, counter, data);
}

// Masks data of version 4.
fn apply_v4(rt: &impl Abort, nonce: &[u8; 32], data: &mut [u8]) {
    let mut message = [0u8; 53];
    message[..21].copy_from_slice(ENCRYPTION);
    message[21..].copy_from_slice(nonce);
    let keys: [u8; 56] = blake2b_keyed(&KEY, &message);
    let key = keys.first_chunk::<32>().expect(rt, "a key");
    let start = keys.last_chunk::<24>().expect(rt, "a start");
    xchacha20_apply(key, start, data);
}

// The tag of an encoding, in the versions 1, 3 and 4.
fn tag_of(
    rt: &impl Abort,
    alloc: Global,
    kind: Kind,
    nonce: &[u8; 32],
    encoding: &[u8],
) -> Vec<u8> {
    let mut info = [0u8; 56];
    info[..24].copy_from_slice(AUTHENTICATION);
    info[24..].copy_from_slice(nonce);
    let tag = match kind {
        Kind::V1Local => {
            let key: [u8; 32] = derived(&nonce[..16], AUTHENTICATION);
            hmac_sha384(&key, encoding)
                .to_vec(alloc)
                .expect(rt, "memory")
        }
        Kind::V3Local => {
            let key: [u8; 48] = derived(&[], &info);
            hmac_sha384(&key, encoding)
                .to_vec(alloc)
                .expect(rt, "memory")
        }
        _ => {
            let key: [u8; 32] = blake2b_keyed(&KEY, &info);
            let digest: [u8; 32] = blake2b_keyed(&key, encoding);
            digest.to_vec(alloc).expect(rt, "memory")
        }
    };
    tag
}

// The pieces that may be bound.
fn pieces<'a>(
    first: &'a [u8],
    second: &'a [u8],
    third: &'a [u8],
    fourth: &'a [u8],
    fifth: &'a [u8],
) -> [&'a [u8]; 5] {
    [first, second, third, fourth, fifth]
}

/// The payload of a local token of version 1, 3 or 4 under a nonce.
pub(crate) fn payload_under(
    rt: &impl Abort,
    alloc: Global,
    kind: Kind,
    nonce: &[u8; 32],
    text: &[u8],
    binding: Binding<'_>,
) -> Vec<u8> {
    let mut xored = text.to_vec(alloc).expect(rt, "memory");
    match kind {
        Kind::V1Local => apply_v1(rt, nonce, xored.as_mut_slice()),
        Kind::V3Local => apply_v3(rt, nonce, xored.as_mut_slice()),
        _ => apply_v4(rt, nonce, xored.as_mut_slice()),
    }
    let pieces = pieces(
        kind.header().as_bytes(),
        nonce,
        xored.as_slice(),
        binding.footer.unwrap_or("").as_bytes(),
        binding.assertion.unwrap_or("").as_bytes(),
    );
    let end = if kind == Kind::V1Local {
        4usize
    } else {
        5usize
    };
    let encoding = PreAuthenticationEncoding::parse(alloc, &pieces[..end]).expect(
        rt,
        "an encoding",
    );
    let tag = tag_of(rt, alloc, kind, nonce, encoding.as_bytes());
    let mut payload = Vec::new(alloc);
    payload.extend_from_slice(nonce).expect(rt, "memory");
    payload.extend_from_slice(&xored).expect(rt, "memory");
    payload.extend_from_slice(&tag).expect(rt, "memory");
    payload
}

// The payload of a local token of version 2.
fn boxed_payload(rt: &impl Abort, alloc: Global, text: &[u8], binding: Binding<'_>) -> Vec<u8> {
    let nonce = [0u8; 24];
    let pieces = pieces(
        Kind::V2Local.header().as_bytes(),
        &nonce,
        binding.footer.unwrap_or("").as_bytes(),
        b"",
        b"",
    );
    let data = PreAuthenticationEncoding::parse(alloc, &pieces[..3]).expect(rt, "an encoding");
    let found = ToyBox
        .seal(alloc, &KEY, &nonce, data.as_bytes(), text)
        .expect(rt, "memory");
    let mut payload = Vec::new(alloc);
    payload.extend_from_slice(&nonce).expect(rt, "memory");
    payload
        .extend_from_slice(&found.expect(rt, "a sealing"))
        .expect(rt, "memory");
    payload
}

// The toy's signature of a message.
fn signature_of(rt: &impl Abort, alloc: Global, kind: Kind, message: &[u8]) -> Vec<u8> {
    let signature = match kind {
        Kind::V1Public => ToyV1
            .sign(alloc, &SECRET, message)
            .expect(rt, "a signature")
            .to_vec(alloc)
            .expect(rt, "memory"),
        Kind::V2Public => ToyV2
            .sign(alloc, &SECRET, message)
            .expect(rt, "a signature")
            .to_vec(alloc)
            .expect(rt, "memory"),
        Kind::V3Public => ToyV3
            .sign(alloc, &SECRET[..48], message)
            .expect(rt, "a signature")
            .to_vec(alloc)
            .expect(rt, "memory"),
        _ => ToyV4
            .sign(alloc, &SECRET, message)
            .expect(rt, "a signature")
            .to_vec(alloc)
            .expect(rt, "memory"),
    };
    signature
}

/// The payload of a public token: a text, and the signature of these pieces.
pub(crate) fn signed_payload(
    rt: &impl Abort,
    alloc: Global,
    kind: Kind,
    text: &[u8],
    pieces: &[&[u8]],
) -> Vec<u8> {
    let encoding = PreAuthenticationEncoding::parse(alloc, pieces).expect(rt, "an encoding");
    let signature = signature_of(rt, alloc, kind, encoding.as_bytes());
    let mut payload = text.to_vec(alloc).expect(rt, "memory");
    payload.extend_from_slice(&signature).expect(rt, "memory");
    payload
}

// The payload of a public token whose signature covers what the version binds.
fn bound_payload(
    rt: &impl Abort,
    alloc: Global,
    kind: Kind,
    text: &[u8],
    binding: Binding<'_>,
) -> Vec<u8> {
    let public = toy_partner_v3(&SECRET[..48]);
    let pieces = pieces(
        &public,
        kind.header().as_bytes(),
        text,
        binding.footer.unwrap_or("").as_bytes(),
        binding.assertion.unwrap_or("").as_bytes(),
    );
    let binds_key = kind == Kind::V3Public;
    let binds_assertion = kind == Kind::V3Public || kind == Kind::V4Public;
    let start = if binds_key { 0usize } else { 1usize };
    let end = if binds_assertion { 5usize } else { 4usize };
    signed_payload(rt, alloc, kind, text, &pieces[start..end])
}

/// The payload of any text, bound to the footer and the implicit assertion.
pub(crate) fn payload_of(
    rt: &impl Abort,
    alloc: Global,
    kind: Kind,
    text: &[u8],
    binding: Binding<'_>,
) -> Vec<u8> {
    match kind {
        Kind::V1Local | Kind::V3Local | Kind::V4Local => {
            payload_under(rt, alloc, kind, &[0; 32], text, binding)
        }
        Kind::V2Local => boxed_payload(rt, alloc, text, binding),
        _ => bound_payload(rt, alloc, kind, text, binding),
    }
}
