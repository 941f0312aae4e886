//! Sealed keys of PASERK: two published vectors, values of an independent computation by libsodium and OpenSSL, and what is
//! refused.

use crate::expect::{expect_digits, expect_text};
use crate::hexadecimal::array_of;
use paseto_wrapping::{WrapError, seal, unseal};
use rusty_paseto_parts::{
    Key, Local, PasetoAsymmetricPrivateKey, PasetoAsymmetricPublicKey, PasetoSymmetricKey, Public,
    V2, V3, V4,
};
use rusty_paseto_paserk::KeyPairVersion;
use std::alloc::Global;
use std::process::Abort;

// The private keys of the vectors k4.seal-1 and k3.seal-1, and their public halves.
const PRIVATE25519: &str = concat!(
    "407796f4bc4b8184e9fe0c54b336822d34823092ad873d87ba14c3efb9db8c1d",
    "b7715bd661458d928654d3e832f53ff5c9480542e0e3d4c9b032c768c7ce6023",
);

const PUBLIC25519: &str = "b7715bd661458d928654d3e832f53ff5c9480542e0e3d4c9b032c768c7ce6023";

const PRIVATE384: &str = concat!(
    "2151be961a10011353138f4c7b13fe5a720c9aa76de487b8",
    "54015a006af2b27e161c988de7d50ecb2691f135befdd87e",
);

const PUBLIC384: &str = concat!(
    "02f91fb99348eca37c82c3b52b9abd97da948ddda0cf294549",
    "5b4f337260ba8cf625666a3a5cd09457bcab81b46b588bb6",
);

// The texts of these vectors, in which a key of zeros is sealed.
const ZEROS4: &str = concat!(
    "k4.seal.OPFn-AEUsKUWtAUZrutVvd9YaZ4CmV4_lk6ii8N72l5gTnl8RlL_zRFqWTZZV9gSnPzARQ_QklrZ2Qs6cJGKOENN",
    "OnsDXL5haXcr-QbTXgoLVBvT4ruJ8MdjWXGRTVc9",
);

const ZEROS3: &str = concat!(
    "k3.seal.NsI9NFzAouTSs7V5mejAeyBLYcoeNlbb9eY8C2KnkPTsARsPLen9KfMFfgqeI50FAnuRCdcb4HmXPaY3i-ZdBXwf",
    "dqSiB_65lmIHosVOJ7chmqqscnBkA7vc3mEAXxM05hSytjBYFxwlUnfFE3Sq3YHUZrOELF7PM87K6FFOMqc6",
);

// A key that is sealed, and its texts: by an ephemeral key of the bytes 0 to 31 in versions 2 and 4, and of 1 to 48 in version
// 3.
const KEY: &str = "707172737475767778797a7b7c7d7e7f808182838485868788898a8b8c8d8e8f";

const SEALED2: &str = concat!(
    "k2.seal.pXCspB1Q4U89NIik4hH-F20lPDWU0NDNRh4d8L73Y82PQMWtto8lYkrlshTqdnpuyU2CnT17XhrRum8-ITgoX3m6",
    "kBx5IW2damfF1wOPwCp1Ia5qDoZ3MuLrmH2f47-f",
);

const SEALED4: &str = concat!(
    "k4.seal.-OypoGvEaIodU93tIZvYk06hvV8beQSMQLr9vNYyElaPQMWtto8lYkrlshTqdnpuyU2CnT17XhrRum8-ITgoXzvH",
    "QzF9wOBzMbFg2pLiDeL2wIpgvpl6Qk5BahTji04e",
);

const SEALED3: &str = concat!(
    "k3.seal.LPbI3RF-5EkOSsYuZUZkTsxcS0fyv7_c9asUDmYjjz12QXuuAlzUUrlRASzcPApPA8dvIoPdqVzUmw7Z5zPSkER0",
    "43IW8SThPSyatM8BAhxJrZyrs9C5dJmu8vCrMT-gKJxfU1lCC0SM3tKNoKMEM3wveyM0ztLIr51LMAIfnhCw",
);

// A payload of zeros, whose ephemeral public key is of small order, and one whose ephemeral public key is no point.
const SMALL4: &str = concat!(
    "k4.seal.AAAAAAAAAAAAAAAAAAAAAAAAAAAAAAAAAAAAAAAAAAAAAAAAAAAAAAAAAAAAAAAAAAAAAAAAAAAAAAAAAAAAAAAA",
    "AAAAAAAAAAAAAAAAAAAAAAAAAAAAAAAAAAAAAAAA",
);

const NO_POINT3: &str = concat!(
    "k3.seal.AAAAAAAAAAAAAAAAAAAAAAAAAAAAAAAAAAAAAAAAAAAAAAAAAAAAAAAAAAAAAAAAAgAAAAAAAAAAAAAAAAAAAAAA",
    "AAAAAAAAAAAAAAAAAAAAAAAAAAAAAAAAAAAAAAAAAQAAAAAAAAAAAAAAAAAAAAAAAAAAAAAAAAAAAAAAAAAA",
);

// The bytes from a first one on, each one more than the last.
fn counted<const N: usize>(first: u8) -> Key<N> {
    let mut bytes = [first; N];
    'bytes: for i in 1..N {
        bytes[i] = bytes[i - 1].wrapping_add(1);
    }
    Key::from(bytes)
}

fn key_of<V>(rt: &impl Abort, digits: &str) -> PasetoSymmetricKey<V, Local> {
    PasetoSymmetricKey::from(Key::from(array_of(rt, digits)))
}

// The text unseals to the key of these digits.
fn expect_key<V: KeyPairVersion>(
    rt: &impl Abort,
    alloc: Global,
    private: &PasetoAsymmetricPrivateKey<'_, V, Public>,
    text: &str,
    digits: &str,
) {
    let key = unseal(alloc, private, text).expect(rt, "a key");
    expect_digits(rt, alloc, key.as_bytes().as_slice(), digits);
}

fn seals_in_version_2(rt: &impl Abort, alloc: Global) {
    let public = Key::<32>::from(array_of(rt, PUBLIC25519));
    let public = PasetoAsymmetricPublicKey::<V2, Public>::from(&public);
    let text = seal(alloc, &public, &counted::<32>(0), &key_of(rt, KEY)).expect(rt, "a text");
    expect_text(rt, text.as_str(), SEALED2);
    let private = Key::<64>::from(array_of(rt, PRIVATE25519));
    let private = PasetoAsymmetricPrivateKey::<V2, Public>::from(&private);
    expect_key(rt, alloc, &private, SEALED2, KEY);
}

fn seals_in_version_4(rt: &impl Abort, alloc: Global) {
    let public = Key::<32>::from(array_of(rt, PUBLIC25519));
    let public = PasetoAsymmetricPublicKey::<V4, Public>::from(&public);
    let text = seal(alloc, &public, &counted::<32>(0), &key_of(rt, KEY)).expect(rt, "a text");
    expect_text(rt, text.as_str(), SEALED4);
    let private = Key::<64>::from(array_of(rt, PRIVATE25519));
    let private = PasetoAsymmetricPrivateKey::<V4, Public>::from(&private);
    expect_key(rt, alloc, &private, SEALED4, KEY);
}

#[test]
fn versions_2_and_4(rt: HostRuntime) {
    seals_in_version_2(&rt, rt.alloc());
    seals_in_version_4(&rt, rt.alloc());
}

#[test]
fn version_3(rt: HostRuntime) {
    let alloc = rt.alloc();
    let public = Key::<49>::from(array_of(&rt, PUBLIC384));
    let public = PasetoAsymmetricPublicKey::<V3, Public>::try_from(&public).expect(&rt, "a key");
    let ephemeral = counted::<48>(1);
    let text = seal(alloc, &public, &ephemeral, &key_of(&rt, KEY)).expect(&rt, "a text");
    expect_text(&rt, text.as_str(), SEALED3);
    let private = Key::<48>::from(array_of(&rt, PRIVATE384));
    expect_key::<V3>(
        &rt,
        alloc,
        &PasetoAsymmetricPrivateKey::from(&private),
        SEALED3,
        KEY,
    );
}

#[test]
fn vectors(rt: HostRuntime) {
    let zeros = "0000000000000000000000000000000000000000000000000000000000000000";
    let private = Key::<64>::from(array_of(&rt, PRIVATE25519));
    let private = PasetoAsymmetricPrivateKey::<V4, Public>::from(&private);
    expect_key(&rt, rt.alloc(), &private, ZEROS4, zeros);
    let private = Key::<48>::from(array_of(&rt, PRIVATE384));
    let private = PasetoAsymmetricPrivateKey::<V3, Public>::from(&private);
    expect_key(&rt, rt.alloc(), &private, ZEROS3, zeros);
}

fn name_of(error: &WrapError) -> &'static str {
    match error {
        WrapError::NoWrappedKey => "NoWrappedKey",
        WrapError::OtherVersion(_) => "OtherVersion",
        WrapError::OtherType(_) => "OtherType",
        WrapError::InvalidText => "InvalidText",
        WrapError::InvalidPrivateKey => "InvalidPrivateKey",
        WrapError::InvalidPoint => "InvalidPoint",
        WrapError::SmallOrder => "SmallOrder",
        WrapError::WrongKey => "WrongKey",
        _ => "another error",
    }
}

fn expect_fault<T: Drop>(rt: &impl Abort, answer: Result<T, WrapError>, wanted: &str) {
    match answer {
        Ok(found) => {
            drop(found);
            expect_text(rt, "an answer", wanted);
        }
        Err(error) => {
            expect_text(rt, name_of(&error), wanted);
            drop(error);
        }
    }
}

// Texts, with the fault where a sealed key of version 4 is asked for.
const REFUSED4: &[(&str, &str)] = &[
    ("k4.local.AAAA", "NoWrappedKey"),
    (SEALED2, "OtherVersion"),
    ("k4.local-pw.AAAA", "OtherType"),
    ("k4.seal.AAAA", "InvalidText"),
    ("k4.seal.A=", "InvalidText"),
    (SMALL4, "SmallOrder"),
];

#[test]
fn texts_of_version_4(rt: HostRuntime) {
    let private = Key::<64>::from(array_of(&rt, PRIVATE25519));
    let private = PasetoAsymmetricPrivateKey::<V4, Public>::from(&private);
    'texts: for &(text, wanted) in REFUSED4 {
        expect_fault(&rt, unseal(rt.alloc(), &private, text), wanted);
    }
}

#[test]
fn texts_of_version_3(rt: HostRuntime) {
    let private = Key::<48>::from(array_of(&rt, PRIVATE384));
    let private = PasetoAsymmetricPrivateKey::<V3, Public>::from(&private);
    expect_fault(
        &rt,
        unseal(rt.alloc(), &private, "k3.seal.AAAA"),
        "InvalidText",
    );
    expect_fault(&rt, unseal(rt.alloc(), &private, NO_POINT3), "InvalidPoint");
}

// A text with another character at a place behind its header.
fn changed(rt: &impl Abort, alloc: Global, text: &str, at: usize) -> String {
    let mut bytes = Vec::from_slice(alloc, text.as_bytes()).expect(rt, "memory");
    match bytes.get_mut(at) {
        Some(byte) => *byte = if *byte == b'A' { b'B' } else { b'A' },
        None => panic!(rt; "a text of so many characters"),
    }
    String::from_utf8(bytes).expect(rt, "a text")
}

// Changes of the tag, of the ephemeral public key and of the ciphertext, each of which the tag tells.
#[test]
fn changed_texts(rt: HostRuntime) {
    let alloc = rt.alloc();
    let private = Key::<64>::from(array_of(&rt, PRIVATE25519));
    let private = PasetoAsymmetricPrivateKey::<V4, Public>::from(&private);
    'places: for &at in &[8, 60, 100] {
        let text = changed(&rt, alloc, SEALED4, at);
        expect_fault(&rt, unseal(alloc, &private, text.as_str()), "WrongKey");
    }
    let private = Key::<48>::from(array_of(&rt, PRIVATE384));
    let private = PasetoAsymmetricPrivateKey::<V3, Public>::from(&private);
    'places3: for &at in &[8, 150] {
        let text = changed(&rt, alloc, SEALED3, at);
        expect_fault(&rt, unseal(alloc, &private, text.as_str()), "WrongKey");
    }
}

// The keys of RFC 8032, section 7.1, test 1, to which nothing here is sealed.
const OTHER25519: &str = concat!(
    "9d61b19deffd5a60ba844af492ec2cc44449c5697b326919703bac031cae7f60",
    "d75a980182b10ab7d54bfed3c964073a0ee172f3daa62325af021a68f707511a",
);

#[test]
fn other_private_keys(rt: HostRuntime) {
    let alloc = rt.alloc();
    let other = Key::<64>::from(array_of(&rt, OTHER25519));
    let other = PasetoAsymmetricPrivateKey::<V4, Public>::from(&other);
    expect_fault(&rt, unseal(alloc, &other, SEALED4), "WrongKey");
    let zeros = Key::<64>::default();
    let zeros = PasetoAsymmetricPrivateKey::<V4, Public>::from(&zeros);
    expect_fault(&rt, unseal(alloc, &zeros, SEALED4), "InvalidPrivateKey");
    let short: &[u8] = &[1; 63];
    let short = PasetoAsymmetricPrivateKey::<V4, Public>::from(short);
    expect_fault(&rt, unseal(alloc, &short, SEALED4), "InvalidPrivateKey");
    let zeros = Key::<48>::default();
    let zeros = PasetoAsymmetricPrivateKey::<V3, Public>::from(&zeros);
    expect_fault(&rt, unseal(alloc, &zeros, SEALED3), "InvalidPrivateKey");
    let sevens = Key::<48>::from([7; 48]);
    let sevens = PasetoAsymmetricPrivateKey::<V3, Public>::from(&sevens);
    expect_fault(&rt, unseal(alloc, &sevens, SEALED3), "WrongKey");
}

#[test]
fn public_keys_of_ed25519(rt: HostRuntime) {
    let alloc = rt.alloc();
    let key = key_of::<V4>(&rt, KEY);
    let ephemeral = counted::<32>(0);
    let mut bytes = [0; 32];
    bytes[0] = 2;
    let none = Key::<32>::from(bytes);
    let none = PasetoAsymmetricPublicKey::<V4, Public>::from(&none);
    expect_fault(&rt, seal(alloc, &none, &ephemeral, &key), "InvalidPoint");
    bytes[0] = 1;
    let neutral = Key::<32>::from(bytes);
    let neutral = PasetoAsymmetricPublicKey::<V4, Public>::from(&neutral);
    expect_fault(&rt, seal(alloc, &neutral, &ephemeral, &key), "SmallOrder");
}

#[test]
fn public_and_ephemeral_keys_of_p384(rt: HostRuntime) {
    let alloc = rt.alloc();
    let key = key_of::<V3>(&rt, KEY);
    let mut bytes = [0; 49];
    bytes[0] = 2;
    bytes[48] = 1;
    let none = Key::<49>::from(bytes);
    let none = PasetoAsymmetricPublicKey::<V3, Public>::try_from(&none).expect(&rt, "a key");
    expect_fault(
        &rt,
        seal(alloc, &none, &counted::<48>(1), &key),
        "InvalidPoint",
    );
    let public = Key::<49>::from(array_of(&rt, PUBLIC384));
    let public = PasetoAsymmetricPublicKey::<V3, Public>::try_from(&public).expect(&rt, "a key");
    let zeros = Key::<48>::default();
    expect_fault(&rt, seal(alloc, &public, &zeros, &key), "InvalidPrivateKey");
}
