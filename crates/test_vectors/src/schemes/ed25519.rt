//! Values of RFC 8032, section 7.1, and signatures that OpenSSL made, with what is to be refused.

mod tokens;

use super::Repeated;
use crate::counted::counted_bytes;
use crate::expect::{expect_bytes, expect_digits, expect_same, expect_that};
use crate::hexadecimal::{array_of, bytes_of};
use paseto_ed25519::Ed25519;
use rusty_paseto_core::{Key, KeyPair, PasetoError, SignatureScheme, V4};
use std::alloc::Global;
use std::process::Abort;

// The private key of RFC 8032's third vector, and its message.
const PRIVATE: &str = concat!(
    "c5aa8df43f9f837bedb7442f31dcb7b166d38535076f094b85ce3a2e0b4458f7",
    "fc51cd8e6218a1a38da47ed00230f0580816ed13ba3303ac5deb911548908025",
);

const PUBLIC: &str = "fc51cd8e6218a1a38da47ed00230f0580816ed13ba3303ac5deb911548908025";

const MESSAGE: &[u8] = &[0xaf, 0x82];

const SIGNATURE: &str = concat!(
    "6291d657deec24024827e69c3abe01a30ce548a284743a445e3680d7db5ac3ac",
    "18ff9b538d16f290ae67f760984dc6594a7c15e9716ed28dc027beceea1ec40a",
);

// The encoding of the neutral point.
const NEUTRAL: &str = "0100000000000000000000000000000000000000000000000000000000000000";

// R is the neutral point, and S is 0.
const NEUTRAL_SIGNATURE: &str = concat!(
    "0100000000000000000000000000000000000000000000000000000000000000",
    "0000000000000000000000000000000000000000000000000000000000000000",
);

// Whether a signature is valid; a refusal is by its name.
fn is_valid(
    rt: &impl Abort,
    alloc: Global,
    public: &[u8],
    message: &[u8],
    signature: &str,
) -> bool {
    match Ed25519.verify(alloc, public, message, &array_of(rt, signature)) {
        Ok(()) => true,
        Err(PasetoError::InvalidSignature) => false,
        Err(_) => panic!(rt; "refused by another name"),
    }
}

// The key pair of a seed signs as the vector says, and the signature is valid.
fn expect_vector(rt: &impl Abort, alloc: Global, private: &str, message: &[u8], signature: &str) {
    let private: [u8; 64] = array_of(rt, private);
    let seed = *private.first_chunk::<32>().expect(rt, "a seed");
    let public = Ed25519::public_key(&seed);
    expect_bytes(rt, &public, &private[32..]);
    let made = Ed25519
        .sign(alloc, &private, message)
        .expect(rt, "a signature");
    let wanted: [u8; 64] = array_of(rt, signature);
    expect_bytes(rt, &made, &wanted);
    expect_that(
        rt,
        is_valid(rt, alloc, &public, message, signature),
        signature,
    );
}

// A private key, a message in hexadecimal digits and its signature. The last message is SHA-512 of
// "abc".
const VECTORS: &[(&str, &str, &str)] = &[
    (
        concat!(
            "9d61b19deffd5a60ba844af492ec2cc44449c5697b326919703bac031cae7f60",
            "d75a980182b10ab7d54bfed3c964073a0ee172f3daa62325af021a68f707511a",
        ),
        "",
        concat!(
            "e5564300c360ac729086e2cc806e828a84877f1eb8e5d974d873e06522490155",
            "5fb8821590a33bacc61e39701cf9b46bd25bf5f0595bbe24655141438e7a100b",
        ),
    ),
    (
        concat!(
            "4ccd089b28ff96da9db6c346ec114e0f5b8a319f35aba624da8cf6ed4fb8a6fb",
            "3d4017c3e843895a92b70aa74d1b7ebc9c982ccf2ec4968cc0cd55f12af4660c",
        ),
        "72",
        concat!(
            "92a009a9f0d4cab8720e820b5f642540a2b27b5416503f8fb3762223ebdb69da",
            "085ac1e43e15996e458f3613d0f11d8c387b2eaeb4302aeeb00d291612bb0c00",
        ),
    ),
    (PRIVATE, "af82", SIGNATURE),
    (
        concat!(
            "833fe62409237b9d62ec77587520911e9a759cec1d19755b7da901b96dca3d42",
            "ec172b93ad5e563bf4932c70e1245034c35467ef2efd4d64ebf819683467e2bf",
        ),
        concat!(
            "ddaf35a193617abacc417349ae20413112e6fa4e89a97ea20a9eeee64b55d39a",
            "2192992a274fc1a836ba3c23a3feebbd454d4423643ce80e2a9ac94fa54ca49f",
        ),
        concat!(
            "dc2a4459e7369633a52b1bf277839a00201009a3efbf3ecb69bea2186c26b589",
            "09351fc9ac90b3ecfdfbc7c66431e0303dca179c138ac17ad9bef1177331a704",
        ),
    ),
];

#[test]
fn vectors_of_the_standard(rt: HostRuntime) {
    let alloc = rt.alloc();
    'rows: for &(private, message, signature) in VECTORS {
        expect_vector(
            &rt,
            alloc,
            private,
            &bytes_of(&rt, alloc, message),
            signature,
        );
    }
}

// The message of 1,023 bytes, which count to 250 and begin anew, was signed by OpenSSL.
#[test]
fn message_of_many_blocks(rt: HostRuntime) {
    let message: [u8; 1023] = counted_bytes();
    expect_vector(
        &rt,
        rt.alloc(),
        PRIVATE,
        &message,
        concat!(
            "90a199a965bdb74b69ed5ced73eb230d093176a1b1fce0dd979bcb291ce0dd28",
            "3c44e8fc0aaab62672c2d507704b66616c86dbd89c38e61de1f4efc5e0357b0e",
        ),
    );
}

// A public key in hexadecimal digits, a message, a signature and whether it is valid.
type Row = (&'static str, &'static [u8], &'static str, bool);

fn expect_rows(rt: &impl Abort, alloc: Global, rows: &[Row]) {
    'rows: for &(public, message, signature, wanted) in rows {
        let public = bytes_of(rt, alloc, public);
        let found = is_valid(rt, alloc, &public, message, signature);
        expect_same(rt, found, wanted, signature);
    }
}

// S and the order: the same multiple of the base point, which would be a second signature.
#[test]
fn s_above_the_order_is_refused(rt: HostRuntime) {
    let signature = concat!(
        "6291d657deec24024827e69c3abe01a30ce548a284743a445e3680d7db5ac3ac",
        "05d391b0a77904e98404ef037747a56e4a7c15e9716ed28dc027beceea1ec41a",
    );
    expect_rows(&rt, rt.alloc(), &[(PUBLIC, MESSAGE, signature, false)]);
}

// The eight points of small order, and their six other spellings: y of p or more, or a sign at x = 0.
const SMALL_ORDERS: &[&str] = &[
    "0100000000000000000000000000000000000000000000000000000000000000",
    "ecffffffffffffffffffffffffffffffffffffffffffffffffffffffffffff7f",
    "0000000000000000000000000000000000000000000000000000000000000080",
    "0000000000000000000000000000000000000000000000000000000000000000",
    "c7176a703d4dd84fba3c0b760d10670f2a2053fa2c39ccc64ec7fd7792ac037a",
    "c7176a703d4dd84fba3c0b760d10670f2a2053fa2c39ccc64ec7fd7792ac03fa",
    "26e8958fc2b227b045c3f489f2ef98f0d5dfac05d3c63339b13802886d53fc05",
    "26e8958fc2b227b045c3f489f2ef98f0d5dfac05d3c63339b13802886d53fc85",
    "0100000000000000000000000000000000000000000000000000000000000080",
    "ecffffffffffffffffffffffffffffffffffffffffffffffffffffffffffffff",
    "eeffffffffffffffffffffffffffffffffffffffffffffffffffffffffffff7f",
    "eeffffffffffffffffffffffffffffffffffffffffffffffffffffffffffffff",
    "edffffffffffffffffffffffffffffffffffffffffffffffffffffffffffffff",
    "edffffffffffffffffffffffffffffffffffffffffffffffffffffffffffff7f",
];

// Under the neutral point the sum is R for each message, and under that of order two for one of these two.
#[test]
fn small_orders(rt: HostRuntime) {
    'points: for &point in SMALL_ORDERS {
        expect_rows(
            &rt,
            rt.alloc(),
            &[
                (point, &[0], NEUTRAL_SIGNATURE, false),
                (point, &[1], NEUTRAL_SIGNATURE, false),
            ],
        );
    }
}

// The same points as R, with S = 0, under an ordinary key and under the neutral point.
#[test]
fn small_orders_in_r(rt: HostRuntime) {
    'points: for &point in SMALL_ORDERS {
        let mut signature = [0u8; 64];
        let r: [u8; 32] = array_of(&rt, point);
        signature[..32].copy_from_slice(&r);
        'keys: for public in [PUBLIC, NEUTRAL] {
            let public: [u8; 32] = array_of(&rt, public);
            let answer = Ed25519.verify(rt.alloc(), &public, MESSAGE, &signature);
            let is_named = matches!(&answer, Err(PasetoError::InvalidSignature));
            expect_that(&rt, is_named, point);
        }
    }
}

#[test]
fn every_bit_of_a_signature_counts(rt: HostRuntime) {
    let public: [u8; 32] = array_of(&rt, PUBLIC);
    let signature: [u8; 64] = array_of(&rt, SIGNATURE);
    'bits: for i in 0..512usize {
        let mut changed = signature;
        changed[i / 8] ^= 1 << (i % 8);
        let answer = Ed25519.verify(rt.alloc(), &public, MESSAGE, &changed);
        expect_that(&rt, answer.is_err(), &i);
    }
}

// A signature with another seed's public half would give the seed away.
#[test]
fn mismatched_halves_sign_nothing(rt: HostRuntime) {
    let mut private: [u8; 64] = array_of(&rt, PRIVATE);
    private[0] ^= 1;
    let answer = Ed25519.sign(rt.alloc(), &private, MESSAGE);
    let is_named = matches!(&answer, Err(PasetoError::Signature));
    expect_that(&rt, is_named, "another half");
    let answer = Ed25519.sign(rt.alloc(), &[1; 63], MESSAGE);
    let is_named = matches!(&answer, Err(PasetoError::KeyRejected));
    expect_that(&rt, is_named, "another length");
}

#[test]
fn key_pairs_sign(rt: HostRuntime) {
    let (private, public) = Ed25519::key_pair(&mut Repeated { byte: 7 }).expect(
        &rt,
        "a pair of keys",
    );
    expect_digits(
        &rt,
        rt.alloc(),
        public.as_bytes().as_slice(),
        "ea4a6c63e29c520abef5507b132ec5f9954776aebebe7b92421eea691446d22c",
    );
    let signature = Ed25519
        .sign(rt.alloc(), private.as_bytes(), b"text")
        .expect(&rt, "a signature");
    Ed25519
        .verify(rt.alloc(), public.as_bytes(), b"text", &signature)
        .expect(&rt, "a signature");
}

// They are those that `key_pair` makes of the same bytes.
#[test]
fn owned_pairs(rt: HostRuntime) {
    let (private, public) = Ed25519::key_pair(&mut Repeated { byte: 7 }).expect(&rt, "keys");
    let pair: KeyPair<V4> = Ed25519::try_new_pair(rt.alloc(), &mut Repeated { byte: 7 }).expect(
        &rt,
        "a pair of keys",
    );
    expect_bytes(&rt, pair.private().as_bytes(), private.as_bytes());
    expect_bytes(&rt, pair.public().as_bytes(), public.as_bytes());
}

// A scheme that holds a private key signs under it, and asks another as `Ed25519` does.
#[test]
fn signers(rt: HostRuntime) {
    let alloc = rt.alloc();
    let mut private: [u8; 64] = array_of(&rt, PRIVATE);
    let mut signer = Ed25519::with_key(&Key::from(&private)).expect(&rt, "a signer");
    let made = signer
        .sign(alloc, &private, MESSAGE)
        .expect(&rt, "a signature");
    let wanted: [u8; 64] = array_of(&rt, SIGNATURE);
    expect_bytes(&rt, &made, &wanted);
    signer
        .verify(alloc, &private[32..], MESSAGE, &made)
        .expect(&rt, "a signature");
    private[63] ^= 1;
    let answer = signer.sign(alloc, &private, MESSAGE);
    let is_named = matches!(&answer, Err(PasetoError::Signature));
    expect_that(&rt, is_named, "another key, of two halves");
    let answer = signer.sign(alloc, &private[1..], MESSAGE);
    let is_named = matches!(&answer, Err(PasetoError::KeyRejected));
    expect_that(&rt, is_named, "another length");
    let answer = Ed25519::with_key(&Key::from(&private));
    let is_named = matches!(&answer, Err(PasetoError::Signature));
    expect_that(&rt, is_named, "another half");
}
