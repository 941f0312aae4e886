//! What is refused, by its name.

use super::texts::*;
use crate::expect::expect_text;
use paseto_pem::{
    PemError, PemVersion, private_key_from_pem, private_key_to_pem, public_key_from_pem,
    public_key_to_pem,
};
use rusty_paseto_parts::{
    Key, PasetoAsymmetricPrivateKey, PasetoAsymmetricPublicKey, Public, V1, V3, V4,
};
use std::alloc::Global;
use std::process::Abort;

// What the error says is the wanted text, which is `a key` where there is none.
fn expect_fault<T: Drop>(rt: &impl Abort, answer: Result<T, PemError>, wanted: &str) {
    match answer {
        Ok(key) => {
            drop(key);
            expect_text(rt, "a key", wanted);
        }
        Err(error) => {
            expect_text(rt, error.text(), wanted);
            drop(error);
        }
    }
}

fn refuses_private<V: PemVersion>(rt: &impl Abort, alloc: Global, text: &str, wanted: &str) {
    expect_fault(rt, private_key_from_pem::<V>(alloc, text), wanted);
}

fn refuses_public<V: PemVersion>(rt: &impl Abort, alloc: Global, text: &str, wanted: &str) {
    expect_fault(rt, public_key_from_pem::<V>(alloc, text), wanted);
}

// Texts that are no PEM: with something before the boundary in its line, or behind the key, empty or too long lines,
// another label at the end, a label that no key has, no padding, or stray bits.
const NO_PEM: &[&str] = &[
    "",
    "-----BEGIN PUBLIC KEY-----",
    "-----BEGIN PUBLIC KEY-----\n-----END PUBLIC KEY----",
    " -----BEGIN PUBLIC KEY-----\nMCowBQYDK2VwAyEAFeXdMaAdSliupg640rnTBm05UYr99JxoB6CDUoPeARg=\n-----END PUBLIC KEY-----\n",
    "-----BEGIN PUBLIC KEY-----\nMCowBQYDK2VwAyEAFeXdMaAdSliupg640rnTBm05UYr99JxoB6CDUoPeARg=\n-----END PUBLIC KEY-----\n\n",
    "-----BEGIN PUBLIC KEY-----\n\nMCowBQYDK2VwAyEAFeXdMaAdSliupg640rnTBm05UYr99JxoB6CDUoPeARg=\n-----END PUBLIC KEY-----\n",
    "-----BEGIN PUBLIC KEY-----\rMCowBQYDK2VwAyEAFeXdMaAdSliupg640rnTBm05UYr99JxoB6CDUoPeARg=\r-----END PUBLIC KEY-----\r",
    "-----BEGIN PUBLIC KEY-----\nMCowBQYDK2VwAyEAFeXdMaAdSliupg640rnTBm05UYr99JxoB6CDUoPeARg=\n-----END PRIVATE KEY-----\n",
    "-----BEGIN CERTIFICATE-----\nMCowBQYDK2VwAyEAFeXdMaAdSliupg640rnTBm05UYr99JxoB6CDUoPeARg=\n-----END CERTIFICATE-----\n",
    "-----BEGIN PUBLIC KEY-----\nMCowBQYDK2VwAyEAFeXdMaAdSliupg640rnTBm05UYr99JxoB6CDUoPeARg\n-----END PUBLIC KEY-----\n",
    "-----BEGIN PUBLIC KEY-----\nMCowBQYDK2VwAyEAFeXdMaAdSliupg640rnTBm05UYr99JxoB6CDUoPeARh=\n-----END PUBLIC KEY-----\n",
];

#[test]
fn what_is_no_pem(rt: HostRuntime) {
    'texts: for text in NO_PEM {
        refuses_public::<V4>(&rt, rt.alloc(), text, "The text is no PEM");
    }
    refuses_private::<V3>(&rt, rt.alloc(), "k3.secret.", "The text is no PEM");
}

#[test]
fn other_labels(rt: HostRuntime) {
    let alloc = rt.alloc();
    refuses_private::<V4>(&rt, alloc, ED25519_ENCRYPTED, "The key is encrypted");
    refuses_public::<V1>(&rt, alloc, ED25519_ENCRYPTED, "The key is encrypted");
    refuses_private::<V4>(&rt, alloc, ED25519_PUBLIC, "The text is a public key");
    refuses_public::<V4>(&rt, alloc, ED25519_PRIVATE, "The text is a private key");
    refuses_private::<V4>(
        &rt,
        alloc,
        P384_SEC1,
        "The text is a private key of a curve",
    );
    refuses_private::<V3>(
        &rt,
        alloc,
        RSA_PRIVATE_PKCS1,
        "The text is a private key of RSA",
    );
    refuses_public::<V3>(
        &rt,
        alloc,
        RSA_PUBLIC_PKCS1,
        "The text is a public key of RSA",
    );
}

#[test]
fn other_algorithms_and_curves(rt: HostRuntime) {
    let alloc = rt.alloc();
    let (unknown, rsa) = (
        "The key is one of another algorithm",
        "The key is one of RSA",
    );
    let (edwards, elliptic) = ("The key is one of Ed25519", "The key is one of a curve");
    refuses_private::<V4>(&rt, alloc, X25519_PRIVATE, unknown);
    refuses_private::<V4>(&rt, alloc, P384_PRIVATE, elliptic);
    refuses_private::<V4>(&rt, alloc, RSA_PRIVATE, rsa);
    refuses_public::<V4>(&rt, alloc, X25519_PUBLIC, unknown);
    refuses_private::<V3>(&rt, alloc, ED25519_PRIVATE, edwards);
    refuses_public::<V3>(&rt, alloc, RSA_PUBLIC, rsa);
    refuses_private::<V1>(&rt, alloc, P384_PRIVATE, elliptic);
    refuses_public::<V1>(&rt, alloc, P384_PUBLIC, elliptic);
    let curve = "The key is one of P-256";
    refuses_private::<V3>(&rt, alloc, P256_PRIVATE, curve);
    refuses_private::<V3>(&rt, alloc, P256_SEC1, curve);
    refuses_public::<V3>(&rt, alloc, P256_PUBLIC, curve);
}

#[test]
fn what_is_no_key(rt: HostRuntime) {
    let alloc = rt.alloc();
    refuses_private::<V1>(&rt, alloc, RSA_1024_PRIVATE, "The key has another size");
    refuses_public::<V1>(&rt, alloc, RSA_1024_PUBLIC, "The key has another size");
    let wanted = "The key was not in the correct format";
    refuses_private::<V4>(&rt, alloc, ED25519_SHORT, wanted);
    let half = "The public key is not that of the private key";
    refuses_private::<V3>(&rt, alloc, P384_OF_TWO_KEYS, half);
    refuses_public::<V3>(&rt, alloc, P384_OFF_THE_CURVE, wanted);
}

// No DER, and then what would be found behind it: the errors in their order.
#[test]
fn errors_in_their_order(rt: HostRuntime) {
    let alloc = rt.alloc();
    refuses_public::<V4>(&rt, alloc, NO_DER, "The key is not in DER");
    refuses_private::<V4>(&rt, alloc, NO_DER, "The text is a public key");
    refuses_private::<V3>(&rt, alloc, P256_OF_NO_KEY, "The key is one of P-256");
}

#[test]
fn what_is_not_written(rt: HostRuntime) {
    let alloc = rt.alloc();
    let wanted = "The key was not in the correct format";
    let halves = PasetoAsymmetricPrivateKey::<V4, Public>::from([7u8; 64].as_slice());
    expect_fault(&rt, private_key_to_pem(alloc, &halves), wanted);
    let number = Key::from([0u8; 48]);
    let zero = PasetoAsymmetricPrivateKey::<V3, Public>::from(&number);
    expect_fault(&rt, private_key_to_pem(alloc, &zero), wanted);
    let octets = [0x30u8, 0];
    let private = PasetoAsymmetricPrivateKey::<V1, Public>::from(octets.as_slice());
    expect_fault(&rt, private_key_to_pem(alloc, &private), wanted);
    let public = PasetoAsymmetricPublicKey::<V1, Public>::from(octets.as_slice());
    expect_fault(&rt, public_key_to_pem(alloc, &public), wanted);
}
