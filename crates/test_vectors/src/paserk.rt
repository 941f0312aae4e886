//! Published values, rows of an independent implementation, and what is refused.

mod refusals;
pub(crate) mod rows;
pub(crate) mod rsa;

use crate::expect::{expect_bytes, expect_digits, expect_text};
use crate::hexadecimal::array_of;
use rows::{ROWS, Row};
use rusty_paseto_parts::{
    Key, Local, PasetoAsymmetricPrivateKey, PasetoAsymmetricPublicKey, PasetoSymmetricKey, Public,
    V1, V2, V2orV4, V3, V4,
};
use rusty_paseto_paserk::{
    KeyPairVersion, KeyVersion, PaserkError, local_from_paserk, local_id, local_to_paserk,
    private_key_from_paserk, public_from_paserk, public_id, public_key_from_paserk,
    public_to_paserk, secret_from_paserk, secret_id, secret_to_paserk,
};
use std::alloc::Global;
use std::process::Abort;

fn key_of<const N: usize>(rt: &impl Abort, digits: &str) -> Key<N> {
    Key::from(array_of(rt, digits))
}

// The answer is the wanted text.
fn expect_answer(rt: &impl Abort, answer: Result<String, PaserkError>, wanted: &str) {
    expect_text(rt, answer.expect(rt, "a text").as_str(), wanted);
}

fn agrees_locally<V: KeyVersion>(rt: &impl Abort, alloc: Global, row: &Row) {
    let (_, _, digits, text, id) = *row;
    let key = PasetoSymmetricKey::<V, Local>::from(key_of(rt, digits));
    expect_answer(rt, local_to_paserk(alloc, &key), text);
    expect_answer(rt, local_id(alloc, &key), id);
    let again = local_from_paserk::<V>(alloc, text).expect(rt, "a key");
    expect_bytes(rt, again.as_bytes().as_slice(), key.as_bytes().as_slice());
}

fn agrees_in_sodium<V: KeyPairVersion + V2orV4>(rt: &impl Abort, alloc: Global, row: &Row) {
    let (_, kind, digits, text, id) = *row;
    if kind == "secret" {
        let bytes = key_of::<64>(rt, digits);
        let key = PasetoAsymmetricPrivateKey::<V, Public>::from(&bytes);
        agrees_as_secret(rt, alloc, &key, text, id);
    } else {
        let bytes = key_of::<32>(rt, digits);
        let key = PasetoAsymmetricPublicKey::<V, Public>::from(&bytes);
        agrees_as_public(rt, alloc, &key, text, id);
    }
}

fn agrees_as_secret<V: KeyPairVersion>(
    rt: &impl Abort,
    alloc: Global,
    key: &PasetoAsymmetricPrivateKey<'_, V, Public>,
    text: &str,
    id: &str,
) {
    expect_answer(rt, secret_to_paserk(alloc, key), text);
    expect_answer(rt, secret_id(alloc, key), id);
    let again = private_key_from_paserk::<V>(alloc, text).expect(rt, "a key");
    expect_bytes(rt, again.lend().as_bytes(), key.as_bytes());
}

fn agrees_as_public<V: KeyPairVersion>(
    rt: &impl Abort,
    alloc: Global,
    key: &PasetoAsymmetricPublicKey<'_, V, Public>,
    text: &str,
    id: &str,
) {
    expect_answer(rt, public_to_paserk(alloc, key), text);
    expect_answer(rt, public_id(alloc, key), id);
    let again = public_key_from_paserk::<V>(alloc, text).expect(rt, "a key");
    expect_bytes(rt, again.lend().as_bytes(), key.as_bytes());
}

fn agrees_in_p384(rt: &impl Abort, alloc: Global, row: &Row) {
    let (_, kind, digits, text, id) = *row;
    if kind == "secret" {
        let bytes = key_of::<48>(rt, digits);
        let key = PasetoAsymmetricPrivateKey::<V3, Public>::from(&bytes);
        agrees_as_secret(rt, alloc, &key, text, id);
    } else {
        let bytes = key_of::<49>(rt, digits);
        let key = PasetoAsymmetricPublicKey::<V3, Public>::try_from(&bytes).expect(rt, "a point");
        agrees_as_public(rt, alloc, &key, text, id);
    }
}

fn check_local(rt: &impl Abort, alloc: Global, row: &Row) {
    match row.0 {
        1 => agrees_locally::<V1>(rt, alloc, row),
        2 => agrees_locally::<V2>(rt, alloc, row),
        3 => agrees_locally::<V3>(rt, alloc, row),
        _ => agrees_locally::<V4>(rt, alloc, row),
    }
}

#[test]
fn local_keys_are_those_of_the_rows(rt: HostRuntime) {
    'rows: for row in ROWS {
        if row.1 == "local" {
            check_local(&rt, rt.alloc(), row);
        }
    }
}

fn check_pair(rt: &impl Abort, alloc: Global, row: &Row) {
    match row.0 {
        2 => agrees_in_sodium::<V2>(rt, alloc, row),
        3 => agrees_in_p384(rt, alloc, row),
        _ => agrees_in_sodium::<V4>(rt, alloc, row),
    }
}

#[test]
fn key_pairs_are_those_of_the_rows(rt: HostRuntime) {
    'rows: for row in ROWS {
        if row.1 != "local" {
            check_pair(&rt, rt.alloc(), row);
        }
    }
}

fn has_bytes<const N: usize>(
    rt: &impl Abort,
    alloc: Global,
    answer: Result<Key<N>, PaserkError>,
    digits: &str,
) {
    let key = answer.expect(rt, "a key");
    expect_digits(rt, alloc, key.as_bytes().as_slice(), digits);
}

fn read_secret(rt: &impl Abort, alloc: Global, row: &Row) {
    let (version, _, digits, text, _) = *row;
    match version {
        2 => has_bytes(rt, alloc, secret_from_paserk::<V2, 64>(alloc, text), digits),
        3 => has_bytes(rt, alloc, secret_from_paserk::<V3, 48>(alloc, text), digits),
        _ => has_bytes(rt, alloc, secret_from_paserk::<V4, 64>(alloc, text), digits),
    }
}

fn read_public(rt: &impl Abort, alloc: Global, row: &Row) {
    let (version, _, digits, text, _) = *row;
    match version {
        2 => has_bytes(rt, alloc, public_from_paserk::<V2, 32>(alloc, text), digits),
        3 => has_bytes(rt, alloc, public_from_paserk::<V3, 49>(alloc, text), digits),
        _ => has_bytes(rt, alloc, public_from_paserk::<V4, 32>(alloc, text), digits),
    }
}

#[test]
fn texts_of_key_pairs_are_read(rt: HostRuntime) {
    'rows: for row in ROWS {
        if row.1 == "secret" {
            read_secret(&rt, rt.alloc(), row);
        } else if row.1 == "public" {
            read_public(&rt, rt.alloc(), row);
        } else {
            expect_text(&rt, row.1, "local");
        }
    }
}

// The specification's k4.local-1, k4.local-2 and k4.lid-1.
#[test]
fn published_values(rt: HostRuntime) {
    let zeros = PasetoSymmetricKey::<V4, Local>::from(Key::from([0u8; 32]));
    expect_answer(
        &rt,
        local_to_paserk(rt.alloc(), &zeros),
        "k4.local.AAAAAAAAAAAAAAAAAAAAAAAAAAAAAAAAAAAAAAAAAAA",
    );
    expect_answer(
        &rt,
        local_id(rt.alloc(), &zeros),
        "k4.lid.bqltbNc4JLUAmc9Xtpok-fBuI0dQN5_m3CD9W_nbh559",
    );
    let counted = key_of(
        &rt,
        "707172737475767778797a7b7c7d7e7f808182838485868788898a8b8c8d8e8f",
    );
    let counted = PasetoSymmetricKey::<V4, Local>::from(counted);
    expect_answer(
        &rt,
        local_to_paserk(rt.alloc(), &counted),
        "k4.local.cHFyc3R1dnd4eXp7fH1-f4CBgoOEhYaHiImKi4yNjo8",
    );
}
