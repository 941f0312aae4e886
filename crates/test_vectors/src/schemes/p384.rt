//! Values of RFC 6979, appendix A.2.6, published tokens, and what is to be refused.

use super::Repeated;
use crate::expect::{expect_bytes, expect_digits, expect_text, expect_that};
use crate::hexadecimal::array_of;
use paseto_p384::{AgreementError, P384};
use rusty_paseto_core::{
    CompressedKey, Footer, Key, Paseto, PasetoAsymmetricPublicKey, PasetoError, Public,
    SignatureScheme, V3,
};
use std::alloc::Global;
use std::process::Abort;

// The private key of RFC 6979, appendix A.2.6.
const PRIVATE: &str = concat!(
    "6b9d3dad2e1b8c1c05b19875b6659f4de23c3b667bf297ba",
    "9aa47740787137d896d5724e4c70a825f872c9ea60d2edf5",
);

// Its public key, compressed.
const PUBLIC: &str = concat!(
    "02ec3a4e415b4e19a4568618029f427fa5da9a8bc4ae92e02e",
    "06aae5286b300c64def8f0ea9055866064a254515480bc13",
);

// The signature of "sample" there, with SHA-384.
const SAMPLE: &str = concat!(
    "94edbb92a5ecb8aad4736e56c691916b3f88140666ce9fa73d64c4ea95ad133c81a648152e44acf96e36dd1e80fabe46",
    "99ef4aeb15f178cea1fe40db2603138f130e740a19624526203b6351d0a3a94fa329c145786e679e7b82c71a38628ac8",
);

// The public key of the published tokens.
const TOKENS_PUBLIC: &str = concat!(
    "02fbcb7c69ee1c60579be7a334134878d9c5c5bf35d552dab6",
    "3c0140397ed14cef637d7720925c44699ea30e72874c72fb",
);

// The public key of 48 bytes of 7, by OpenSSL.
const SEVENS: &str = concat!(
    "03b01bfc4a2d7fe2095e6627cc5caf9abd153d5b551fe7f6da",
    "615da9d1bfd101e8d191e85902c0a34eaa3a16e666880b73",
);

// The public key of a private key.
fn public_of(rt: &impl Abort, alloc: Global, private: &str) -> [u8; 49] {
    P384.public_key(alloc, &array_of::<48>(rt, private))
        .expect(rt, "a public key")
}

// The signature of a message under the private key of RFC 6979.
fn signature_of(rt: &impl Abort, alloc: Global, message: &[u8]) -> [u8; 96] {
    P384.sign(alloc, &array_of::<48>(rt, PRIVATE), message)
        .expect(rt, "a signature")
}

#[test]
fn public_keys(rt: HostRuntime) {
    let public = public_of(&rt, rt.alloc(), PRIVATE);
    expect_digits(&rt, rt.alloc(), &public, PUBLIC);
    // The private key of the published tokens.
    let private = concat!(
        "20347609607477aca8fbfbc5e6218455f3199669792ef8b4",
        "66faa87bdc67798144c848dd03661eed5ac62461340cea96",
    );
    let public = public_of(&rt, rt.alloc(), private);
    expect_digits(&rt, rt.alloc(), &public, TOKENS_PUBLIC);
}

#[test]
fn sample(rt: HostRuntime) {
    let made = signature_of(&rt, rt.alloc(), b"sample");
    expect_digits(&rt, rt.alloc(), &made, SAMPLE);
}

#[test]
fn test(rt: HostRuntime) {
    let expected = concat!(
        "8203b63d3c853e8d77227fb377bcf7b7b772e97892a80f36ab775d509d7a5feb0542a7f0812998da8f1dd3ca3cf023db",
        "ddd0760448d42d8a43af45af836fce4de8be06b485e9b61b827c2f13173923e06a739f040649a667bf3b828246baa5a5",
    );
    let made = signature_of(&rt, rt.alloc(), b"test");
    expect_digits(&rt, rt.alloc(), &made, expected);
}

// Opens a published token.
fn expect_token(rt: &impl Abort, alloc: Global, token: &str, footer: Option<Footer<'_>>) {
    let key = Key::<49>::try_from(TOKENS_PUBLIC).expect(rt, "a key");
    let key = PasetoAsymmetricPublicKey::<V3, Public>::try_from(&key).expect(rt, "a public key");
    let text = Paseto::<V3, Public>::try_verify(alloc, &P384, token, &key, footer, None).expect(
        rt,
        "a valid token",
    );
    let wanted = "{\"data\":\"this is a signed message\",\"exp\":\"2022-01-01T00:00:00+00:00\"}";
    expect_text(rt, text.as_str(), wanted);
}

#[test]
fn published_token_without_footer(rt: HostRuntime) {
    let token = concat!(
        "v3.public.eyJkYXRhIjoidGhpcyBpcyBhIHNpZ25lZCBtZXNzYWdlIiwiZXhwIjoiMjAyMi0wMS0wMVQwMDowMDowMCswMDowMCJ9",
        "qqEwwrKHKi5lJ7b9MBKc0G4MGZy0ptUiMv3lAUAaz-JY_zjoqBSIxMxhfAoeNYiSyvfUErj76KOPWm1OeNnBPkTSespeSXDGaDfxeIrl",
        "3bRrPEIy7tLwLAIsRzsXkfph",
    );
    expect_token(&rt, rt.alloc(), token, None);
}

#[test]
fn published_token_with_footer(rt: HostRuntime) {
    let token = concat!(
        "v3.public.eyJkYXRhIjoidGhpcyBpcyBhIHNpZ25lZCBtZXNzYWdlIiwiZXhwIjoiMjAyMi0wMS0wMVQwMDowMDowMCswMDowMCJ9",
        "ZWrbGZ6L0MDK72skosUaS0Dz7wJ_2bMcM6tOxFuCasO9GhwHrvvchqgXQNLQQyWzGC2wkr-VKII71AvkLpC8tJOrzJV1cap9NRwoFzbc",
        "XjzMZyxQ0wkshxZxx8ImmNWP.eyJraWQiOiJkWWtJU3lseFFlZWNFY0hFTGZ6Rjg4VVpyd2JMb2xOaUNkcHpVSEd3OVVxbiJ9",
    );
    let footer = Footer::from("{\"kid\":\"dYkISylxQeecEcHELfzF88UZrwbLolNiCdpzUHGw9Uqn\"}");
    expect_token(&rt, rt.alloc(), token, Some(footer));
}

// Whether a signature of "sample" is valid; a refusal is by its name.
fn is_valid(rt: &impl Abort, alloc: Global, public: &[u8], signature: &[u8; 96]) -> bool {
    match P384.verify(alloc, public, b"sample", signature) {
        Ok(()) => true,
        Err(PasetoError::InvalidSignature) => false,
        Err(_) => panic!(rt; "refused by another name"),
    }
}

#[test]
fn every_bit_of_a_signature_counts(rt: HostRuntime) {
    let public: [u8; 49] = array_of(&rt, PUBLIC);
    let signature: [u8; 96] = array_of(&rt, SAMPLE);
    let alloc = rt.alloc();
    expect_that(
        &rt,
        is_valid(&rt, alloc, &public, &signature),
        "the signature",
    );
    'bits: for i in 0..768usize {
        let mut changed = signature;
        changed[i / 8] ^= 1 << (i % 8);
        expect_that(&rt, !is_valid(&rt, alloc, &public, &changed), &i);
    }
}

#[test]
fn every_bit_of_a_public_key_counts(rt: HostRuntime) {
    let public: [u8; 49] = array_of(&rt, PUBLIC);
    let signature: [u8; 96] = array_of(&rt, SAMPLE);
    'bits: for i in 0..392usize {
        let mut changed = public;
        changed[i / 8] ^= 1 << (i % 8);
        expect_that(&rt, !is_valid(&rt, rt.alloc(), &changed, &signature), &i);
    }
}

// Expects that neither call takes a private key.
fn expect_rejected(rt: &impl Abort, alloc: Global, private: &[u8]) {
    let signed = P384.sign(alloc, private, b"sample");
    let is_named = matches!(&signed, Err(PasetoError::KeyRejected));
    expect_that(rt, is_named, private);
    let told = P384.public_key(alloc, private);
    let is_named = matches!(&told, Err(PasetoError::KeyRejected));
    expect_that(rt, is_named, private);
}

#[test]
fn no_private_keys(rt: HostRuntime) {
    let alloc = rt.alloc();
    expect_rejected(&rt, alloc, &[0; 48]);
    expect_rejected(&rt, alloc, &[255; 48]);
    expect_rejected(&rt, alloc, &[1; 47]);
    expect_rejected(&rt, alloc, &[1; 49]);
    // n is none, and n - 1 is one.
    let mut order: [u8; 48] = array_of(
        &rt,
        concat!(
            "ffffffffffffffffffffffffffffffffffffffffffffffff",
            "c7634d81f4372ddf581a0db248b0a77aecec196accc52973",
        ),
    );
    expect_rejected(&rt, alloc, &order);
    order[47] = 0x72;
    let told = P384.public_key(alloc, &order);
    expect_that(&rt, told.is_ok(), "n - 1");
}

#[test]
fn key_pairs_sign(rt: HostRuntime) {
    let alloc = rt.alloc();
    let (private, public) = P384::key_pair(&mut Repeated { byte: 7 }).expect(&rt, "a pair of keys");
    expect_digits(&rt, alloc, public.as_bytes().as_slice(), SEVENS);
    let signature = P384
        .sign(alloc, private.as_bytes(), b"sample")
        .expect(&rt, "a signature");
    let found = is_valid(&rt, alloc, public.as_bytes(), &signature);
    expect_that(&rt, found, "the signature");
}

// They are those that `key_pair` makes of the same bytes.
#[test]
fn owned_pairs(rt: HostRuntime) {
    let alloc = rt.alloc();
    let (private, public) = P384::key_pair(&mut Repeated { byte: 7 }).expect(&rt, "keys");
    let pair = P384::try_new_pair(alloc, &mut Repeated { byte: 7 }).expect(&rt, "a pair of keys");
    expect_bytes(&rt, pair.private().as_bytes(), private.as_bytes());
    expect_bytes(&rt, pair.public().as_bytes(), public.as_bytes());
}

#[test]
fn a_generator_that_gives_no_private_key(rt: HostRuntime) {
    let answer = P384::key_pair(&mut Repeated { byte: 0 });
    let is_named = matches!(&answer, Err(PasetoError::KeyRejected));
    expect_that(&rt, is_named, "zeros");
    let answer = P384::try_new_pair(rt.alloc(), &mut Repeated { byte: 0 });
    let is_named = matches!(&answer, Err(PasetoError::KeyRejected));
    expect_that(&rt, is_named, "zeros in a pair");
}

// A public key and a private key of NIST's vectors of ECDH (CAVS 14.1, P-384, the first), and what OpenSSL derives by them,
// as they say, and by the private keys n - 1 and 15.
const PEER: &str = concat!(
    "02a7c76b970c3b5fe8b05d2838ae04ab47697b9eaf52e76459",
    "2efda27fe7513272734466b400091adbf2d68c58e0c50066",
);

const AGREEMENTS: &[(&str, &str)] = &[
    (
        concat!(
            "3cc3122a68f0d95027ad38c067916ba0eb8c38894d22e1b1",
            "5618b6818a661774ad463b205da88cf699ab4d43c9cf98a1",
        ),
        concat!(
            "5f9d29dc5e31a163060356213669c8ce132e22f57c9a04f4",
            "0ba7fcead493b457e5621e766c40a2e3d4d6a04b25e533f1",
        ),
    ),
    (
        concat!(
            "ffffffffffffffffffffffffffffffffffffffffffffffff",
            "c7634d81f4372ddf581a0db248b0a77aecec196accc52972",
        ),
        concat!(
            "a7c76b970c3b5fe8b05d2838ae04ab47697b9eaf52e76459",
            "2efda27fe7513272734466b400091adbf2d68c58e0c50066",
        ),
    ),
    (
        concat!(
            "000000000000000000000000000000000000000000000000",
            "00000000000000000000000000000000000000000000000f",
        ),
        concat!(
            "eb6d34e4abbc53ffd4cc87ecc5f5842beb2e1e8a41581ed4",
            "afbcc4d4a8f131a313cfa1f95b150699a91c4bc0d29b1461",
        ),
    ),
];

#[test]
fn agreements(rt: HostRuntime) {
    'rows: for &(private, shared) in AGREEMENTS {
        let made = P384::shared_secret(&array_of::<48>(&rt, private), &array_of(&rt, PEER)).expect(
            &rt,
            "a shared secret",
        );
        expect_digits(&rt, rt.alloc(), &made, shared);
    }
}

#[test]
fn private_keys_that_agree_on_nothing(rt: HostRuntime) {
    let zero = concat!(
        "000000000000000000000000000000000000000000000000",
        "000000000000000000000000000000000000000000000000",
    );
    let order = concat!(
        "ffffffffffffffffffffffffffffffffffffffffffffffff",
        "c7634d81f4372ddf581a0db248b0a77aecec196accc52973",
    );
    let peer = array_of(&rt, PEER);
    'keys: for &private in &[zero, order] {
        match P384::shared_secret(&array_of::<48>(&rt, private), &peer) {
            Err(AgreementError::InvalidPrivateKey) => {}
            _ => panic!(rt; "not refused by its name"),
        }
    }
    match P384::shared_secret(&[1; 47], &peer) {
        Err(AgreementError::InvalidPrivateKey) => {}
        _ => panic!(rt; "not refused by its name"),
    }
}

#[test]
fn public_keys_that_agree_on_nothing(rt: HostRuntime) {
    let private: [u8; 48] = array_of(&rt, PRIVATE);
    // x = 1 is no point's.
    let mut public = [0; 49];
    public[0] = 2;
    public[48] = 1;
    match P384::shared_secret(&private, &public) {
        Err(AgreementError::InvalidPoint) => {}
        _ => panic!(rt; "not refused by its name"),
    }
    let mut public: [u8; 49] = array_of(&rt, PEER);
    public[0] = 4;
    match P384::shared_secret(&private, &public) {
        Err(AgreementError::InvalidPoint) => {}
        _ => panic!(rt; "not refused by its name"),
    }
}
