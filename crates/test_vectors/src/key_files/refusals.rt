//! What is refused, by its name.

use super::{
    CURVE_PUBLIC, EDWARDS_PUBLIC, EDWARDS_SECRET, Given, NO_OPENERS, SEALED4, SEALING_PUBLIC3,
    SEALING_PUBLIC4, behind_a_text,
};
use crate::expect::expect_text;
use crate::paserk::rsa::{PUBLIC_TEXT, RSA_PUBLIC_KEY, SECRET, SHORT_KEY};
use crate::pem::texts::*;
use crate::wrapping::rsa::OCTETS;
use paseto_key_files::{KeyFileError, Openers, pem_of, protect, seal, unlock, wrap};
use paseto_wrapping::PasswordCost;
use std::process::Abort;

const LOCAL3: &str = "k3.local.cHFyc3R1dnd4eXp7fH1-f4CBgoOEhYaHiImKi4yNjo8";

const LOCAL4: &str = "k4.local.cHFyc3R1dnd4eXp7fH1-f4CBgoOEhYaHiImKi4yNjo8";

const WRAPPED4: &str =
    "k4.local-wrap.pie.y-PC8Zh6P1DoOBUdhRr7W8GWSgHtRKvE8PWWYA-qXy3fxJDmaRsxcZVQzuvXHZuBg5MqCgh_y5K0WbukJCrDX73Wdf631VBnE1DNHafbjnGNzFNWP59ba9ifsOAgE7Bw";

const PROTECTED4: &str =
    "k4.local-pw.9VvzoqE_i23NOqsP9xoijQAAAAAEAAAAAAAAAgAAAAG_uxDZC-NsYyOW8OUOqISJqgHN8xIfAXiPfmFTfB4GPidUzm4aKzMGJmZtRPeyZCV11MxEJS3VMIRHXxYsfUQsmWLALpFwqUhxZdk_ymFcK2Nk0-N7CVp-";

// What the error says is the wanted text, which is `a text` where there is none.
fn expect_fault(rt: &impl Abort, answer: Result<String, KeyFileError>, wanted: &str) {
    match answer {
        Ok(_) => expect_text(rt, "a text", wanted),
        Err(error) => {
            expect_text(rt, error.text(), wanted);
            drop(error);
        }
    }
}

#[test]
fn what_opens_is_lacking(rt: HostRuntime) {
    let alloc = rt.alloc();
    let password = "the key is under a password: give it by --password-file or PASETO_PASSWORD";
    let key = "the key is wrapped or sealed: name the key that opens it by --unlock-key";
    'texts: for (text, wanted) in [
        (PROTECTED4, password),
        ("k1.secret-pw.", password),
        (WRAPPED4, key),
        ("k2.secret-wrap.pie.", key),
        (SEALED4, key),
        (
            "k1.seal.",
            "keys of version 1 are neither sealed nor unsealed here",
        ),
    ] {
        expect_fault(&rt, unlock(alloc, &NO_OPENERS, text), wanted);
    }
}

#[test]
fn what_opens_is_another(rt: HostRuntime) {
    let alloc = rt.alloc();
    'openers: for (key, text, wanted) in [
        (
            LOCAL3,
            WRAPPED4,
            "this key is one of version 3, and the other one is not",
        ),
        (
            "k1.local.",
            WRAPPED4,
            "this key is one of version 1, and the other one is not",
        ),
        (
            "k2.local.",
            WRAPPED4,
            "this key is one of version 2, and the other one is not",
        ),
        (
            LOCAL4,
            "k3.local-wrap.pie.",
            "this key is one of version 4, and the other one is not",
        ),
        (
            EDWARDS_PUBLIC,
            WRAPPED4,
            "this key is a public one, and another type is needed",
        ),
        (
            EDWARDS_SECRET,
            WRAPPED4,
            "this key is a private one, and another type is needed",
        ),
        (
            LOCAL4,
            SEALED4,
            "this key is one for local tokens, and another type is needed",
        ),
        (
            "k4.local.abc",
            WRAPPED4,
            "this key was not in the correct format",
        ),
        (RSA_PRIVATE, WRAPPED4, "this is no PASERK key"),
        (
            SECRET,
            "k1.local-wrap.pie.",
            "this key is a private one, and another type is needed",
        ),
        (
            EDWARDS_SECRET,
            SEALED4,
            "wrong key or password, or the text was changed",
        ),
        (
            LOCAL4,
            "k4.local-wrap.pie.",
            "what follows the header is no base64url of a wrapped key, or was cut off",
        ),
    ] {
        let openers = Openers {
            password: None,
            key: Some(key),
        };
        expect_fault(&rt, unlock(alloc, &openers, text), wanted);
    }
}

#[test]
fn another_password(rt: HostRuntime) {
    let openers = Openers {
        password: Some(b"correct horse battery stable"),
        key: None,
    };
    let text = concat!(
        "k3.local-pw.meWTPJohkeLsaKvlgigDksM935uSCUO3jvjEEHAK28QAAAPoNoLFUMJwo8QHOp5bJpbNzk-ZD_Q6jPtk0XhX4ctV",
        "hZnJ3ydru5AuXObwRudmG_RNK3PsJ7kpLSw15Vncc5vmGIkae4DKmBmPI1h3PmOxMGX_hj9DNfu1MIEEm9ukhKQq",
    );
    let wanted = "wrong key or password, or the text was changed";
    expect_fault(&rt, unlock(rt.alloc(), &openers, text), wanted);
}

// What was locked as a private key of version 1 is one, in PKCS #8, or no key.
#[test]
fn what_was_locked_is_no_key(rt: HostRuntime) {
    let openers = Openers {
        password: Some(b""),
        key: None,
    };
    'rows: for &(_, _, text, wanted) in OCTETS {
        match unlock(rt.alloc(), &openers, text) {
            Ok(line) => {
                expect_text(&rt, "a key", wanted);
                expect_text(&rt, line.as_str(), SECRET);
            }
            Err(error) => expect_text(&rt, error.text(), wanted),
        }
    }
}

#[test]
fn texts_in_pem(rt: HostRuntime) {
    let alloc = rt.alloc();
    'texts: for (text, wanted) in [
        ("-----BEGIN ", "The text is no PEM"),
        (ED25519_ENCRYPTED, "The key is encrypted"),
        (X25519_PRIVATE, "The key is one of another algorithm"),
        (X25519_PUBLIC, "The key is one of another algorithm"),
        (P256_PRIVATE, "The key is one of P-256"),
        (P256_SEC1, "The key is one of P-256"),
        (P256_PUBLIC, "The key is one of P-256"),
        (RSA_1024_PRIVATE, "The key has another size"),
        (RSA_1024_PUBLIC, "The key has another size"),
        (ED25519_SHORT, "The key was not in the correct format"),
        (
            P384_OF_TWO_KEYS,
            "The public key is not that of the private key",
        ),
        (P384_OFF_THE_CURVE, "The key was not in the correct format"),
    ] {
        expect_fault(&rt, unlock(alloc, &NO_OPENERS, text), wanted);
        let behind = behind_a_text(&rt, alloc, text);
        expect_fault(&rt, unlock(alloc, &NO_OPENERS, behind.as_str()), wanted);
    }
}

#[test]
fn lines_without_pem(rt: HostRuntime) {
    let alloc = rt.alloc();
    let second =
        "keys of version 2 have no PEM text of their own: it would be read as one of version 4";
    // A seed and the public key of another one.
    let two_halves = concat!(
        "k4.secret.QHeW9LxLgYTp_gxUszaCLTSCMJKthz2HuhTD77nbjB0V5d0xoB1KWK6mDrjSudMGbTlRiv30nGgHoINSg94BGA",
    );
    'lines: for (line, wanted) in [
        (LOCAL4, "keys for local tokens have no PEM text"),
        ("k1.local.", "keys for local tokens have no PEM text"),
        ("k2.secret.", second),
        ("k2.public.", second),
        ("k1.secret.", "The key was not in the correct format"),
        ("k1.public.", "The key was not in the correct format"),
        (SHORT_KEY, "The key was not in the correct format"),
        (RSA_PUBLIC_KEY, "The key was not in the correct format"),
        ("k4.public.abc", "The key was not in the correct format"),
        (two_halves, "The key was not in the correct format"),
        ("", "The text is no PASERK key"),
        (ED25519_PRIVATE, "The text is no PASERK key"),
        (RSA_PRIVATE, "The text is no PASERK key"),
    ] {
        expect_fault(&rt, pem_of(alloc, line), wanted);
    }
}

// Each line with what is said of it where it is to be locked.
const LINES: &[(&str, &str)] = &[
    (
        EDWARDS_PUBLIC,
        "the key is public: it needs no password and no wrapping key",
    ),
    (
        CURVE_PUBLIC,
        "the key is public: it needs no password and no wrapping key",
    ),
    ("", "The text is no PASERK key"),
    ("k4.secret", "The text is no PASERK key"),
    ("k4.local.abc", "The key was not in the correct format"),
    ("k3.secret.abcd", "The key was not in the correct format"),
    ("k1.secret.abcd", "The key was not in the correct format"),
    (SHORT_KEY, "The key was not in the correct format"),
    (
        PUBLIC_TEXT,
        "the key is public: it needs no password and no wrapping key",
    ),
    (
        "k1.public.",
        "the key is public: it needs no password and no wrapping key",
    ),
    (RSA_PRIVATE, "The text is no PASERK key"),
    (P384_PRIVATE, "The text is no PASERK key"),
    (LOCAL4, "the system returned no random bytes"),
    (EDWARDS_SECRET, "the system returned no random bytes"),
];

#[test]
fn lines_that_are_not_locked(rt: HostRuntime) {
    let alloc = rt.alloc();
    let cost = PasswordCost::default();
    'lines: for (line, wanted) in LINES.iter().copied() {
        let mut generator = Given { bytes: &[] };
        expect_fault(
            &rt,
            protect(alloc, b"word", cost, &mut generator, line),
            wanted,
        );
        expect_fault(&rt, wrap(alloc, LOCAL4, &mut generator, line), wanted);
    }
}

#[test]
fn costs_and_wrapping_keys(rt: HostRuntime) {
    let alloc = rt.alloc();
    let cost = PasswordCost {
        passes: 0,
        ..PasswordCost::default()
    };
    let wanted = "the cost of the password is one that its function does not allow";
    let mut generator = Given { bytes: &[7; 80] };
    expect_fault(
        &rt,
        protect(alloc, b"word", cost, &mut generator, LOCAL4),
        wanted,
    );
    let wanted = "this key is one of version 3, and the other one is not";
    expect_fault(&rt, wrap(alloc, LOCAL3, &mut generator, LOCAL4), wanted);
    expect_fault(&rt, wrap(alloc, LOCAL3, &mut generator, SECRET), wanted);
    let wanted = "this key is a private one, and another type is needed";
    expect_fault(&rt, wrap(alloc, SECRET, &mut generator, SECRET), wanted);
    let wanted = "the system returned no random bytes";
    let mut generator = Given { bytes: &[] };
    let cost = PasswordCost::default();
    expect_fault(
        &rt,
        protect(alloc, b"word", cost, &mut generator, SECRET),
        wanted,
    );
}

#[test]
fn lines_that_are_not_sealed(rt: HostRuntime) {
    let alloc = rt.alloc();
    let local1 = "k1.local.cHFyc3R1dnd4eXp7fH1-f4CBgoOEhYaHiImKi4yNjo8";
    'lines: for (public, line, wanted) in [
        (
            SEALING_PUBLIC4,
            EDWARDS_SECRET,
            "The key is a private one, which signs",
        ),
        (
            SEALING_PUBLIC4,
            EDWARDS_PUBLIC,
            "The key is a public one, which verifies",
        ),
        (
            SEALING_PUBLIC4,
            "k4.local.abc",
            "The key was not in the correct format",
        ),
        (SEALING_PUBLIC4, "", "The text is no PASERK key"),
        (
            SEALING_PUBLIC4,
            local1,
            "keys of version 1 are neither sealed nor unsealed here",
        ),
        (
            SEALING_PUBLIC3,
            LOCAL4,
            "this key is one of version 3, and the other one is not",
        ),
        (
            LOCAL4,
            LOCAL4,
            "this key is one for local tokens, and another type is needed",
        ),
        (
            SEALING_PUBLIC4,
            LOCAL4,
            "the system returned no random bytes",
        ),
    ] {
        let mut generator = Given { bytes: &[] };
        expect_fault(&rt, seal(alloc, public, &mut generator, line), wanted);
    }
    // A point of small order, and an ephemeral key of zeros, which is none of P-384.
    let small = "k4.public.AQAAAAAAAAAAAAAAAAAAAAAAAAAAAAAAAAAAAAAAAAA";
    let mut generator = Given { bytes: &[0; 80] };
    expect_fault(
        &rt,
        seal(alloc, small, &mut generator, LOCAL4),
        "the public key is of small order",
    );
    let wanted = "the private key is none of the version";
    expect_fault(
        &rt,
        seal(alloc, SEALING_PUBLIC3, &mut generator, LOCAL3),
        wanted,
    );
}
