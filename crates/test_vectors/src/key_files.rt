//! The texts of key files: keys of OpenSSL, the PASERK specification's vectors and rows of an independent implementation,
//! both ways, and what is refused.

mod refusals;

use crate::expect::expect_text;
use crate::hexadecimal::bytes_of;
use crate::paserk::rsa::{INFO, PUBLIC_TEXT, SECRET};
use crate::pem::texts::*;
use crate::wrapping::rows::{PROTECTED, Protected, WRAPPED, Wrapped};
use base64::engine::general_purpose::URL_SAFE_NO_PAD;
use paseto_key_files::{KeyFileError, Openers, pem_of, protect, seal, unlock, wrap};
use paseto_wrapping::PasswordCost;
use rand_core::TryRng;
use std::alloc::Global;
use std::fmt;
use std::process::Abort;

// The lines of the keys of OpenSSL, by an independent base64url.
const EDWARDS_SECRET: &str = concat!(
    "k4.secret.AxnFSjDKoKNpie6LJQDA2H8xKKpYKSg9UI04RiL6kBAV5d0xoB1KWK6mDrjSudMGbTlRiv30nGgHoINSg94BGA",
);

const EDWARDS_PUBLIC: &str = "k4.public.FeXdMaAdSliupg640rnTBm05UYr99JxoB6CDUoPeARg";

const CURVE_SECRET: &str =
    "k3.secret.AuEW8g8o7tXDzTX8Dw6MaHSPfdVpnXl6-9C5aRANAPyPT83j_3yE-OJBBwq01JDM";

const CURVE_PUBLIC: &str =
    "k3.public.A31UQEBU-UqFGCXQgQcXS02OnH00xM_x4LzXi4ymq7TWlKrDtP-igbc-2Dw7Hnm57w";

// The key pairs of the vectors k4.seal-1 and k3.seal-1, and what is sealed to them.
const SEALING_SECRET4: &str = concat!(
    "k4.secret.QHeW9LxLgYTp_gxUszaCLTSCMJKthz2HuhTD77nbjB23cVvWYUWNkoZU0-gy9T_1yUgFQuDj1MmwMsdox85gIw",
);

const SEALING_PUBLIC4: &str = "k4.public.t3Fb1mFFjZKGVNPoMvU_9clIBULg49TJsDLHaMfOYCM";

const SEALING_SECRET3: &str =
    "k3.secret.IVG-lhoQARNTE49MexP-WnIMmqdt5Ie4VAFaAGrysn4WHJiN59UOyyaR8TW-_dh-";

const SEALING_PUBLIC3: &str =
    "k3.public.AvkfuZNI7KN8gsO1K5q9l9qUjd2gzylFSVtPM3Jguoz2JWZqOlzQlFe8q4G0a1iLtg";

const ZEROS4: &str = concat!(
    "k4.seal.OPFn-AEUsKUWtAUZrutVvd9YaZ4CmV4_lk6ii8N72l5gTnl8RlL_zRFqWTZZV9gSnPzARQ_QklrZ2Qs6cJGKOENN",
    "OnsDXL5haXcr-QbTXgoLVBvT4ruJ8MdjWXGRTVc9",
);

const ZEROS3: &str = concat!(
    "k3.seal.NsI9NFzAouTSs7V5mejAeyBLYcoeNlbb9eY8C2KnkPTsARsPLen9KfMFfgqeI50FAnuRCdcb4HmXPaY3i-ZdBXwf",
    "dqSiB_65lmIHosVOJ7chmqqscnBkA7vc3mEAXxM05hSytjBYFxwlUnfFE3Sq3YHUZrOELF7PM87K6FFOMqc6",
);

// A key that is sealed by an ephemeral key of the bytes 0 to 31, and in version 3 of 1 to 48: values of libsodium and OpenSSL.
const SEALED2: &str = concat!(
    "k2.seal.pXCspB1Q4U89NIik4hH-F20lPDWU0NDNRh4d8L73Y82PQMWtto8lYkrlshTqdnpuyU2CnT17XhrRum8-ITgoX3m6",
    "kBx5IW2damfF1wOPwCp1Ia5qDoZ3MuLrmH2f47-f",
);

const SEALED4: &str = concat!(
    "k4.seal.-OypoGvEaIodU93tIZvYk06hvV8beQSMQLr9vNYyElaPQMWtto8lYkrlshTqdnpuyU2CnT17XhrRum8-ITgoXzvH",
    "QzF9wOBzMbFg2pLiDeL2wIpgvpl6Qk5BahTji04e",
);

const SEALED3: &str = concat!(
    "k3.seal.LPbI3RF-5EkOSsYuZUZkTsxcS0fyv7_c9asUDmYjjz12QXuuAlzUUrlRASzcPApPA8dvIoPdqVzUmw7Z5zPSkER0",
    "43IW8SThPSyatM8BAhxJrZyrs9C5dJmu8vCrMT-gKJxfU1lCC0SM3tKNoKMEM3wveyM0ztLIr51LMAIfnhCw",
);

const NO_OPENERS: Openers<'static> = Openers {
    password: None,
    key: None,
};

// The generator has no more bytes.
#[derive(Debug, Drop)]
pub(crate) struct Spent;

impl fmt::Display for Spent {
    fn fmt<W: fmt::Write>(&self, f: &mut fmt::Formatter<W>) -> fmt::Result {
        f.write_str("spent")
    }
}

impl std::error::Error for Spent {}

// A generator that gives these bytes, once.
#[derive(Drop)]
pub(crate) struct Given<'a> {
    bytes: &'a [u8],
}

impl TryRng for Given<'_> {
    type Error = Spent;

    fn try_next_u32(&mut self) -> Result<u32, Spent> {
        Err(Spent)
    }

    fn try_next_u64(&mut self) -> Result<u64, Spent> {
        Err(Spent)
    }

    fn try_fill_bytes(&mut self, bytes: &mut [u8]) -> Result<(), Spent> {
        if bytes.len() > self.bytes.len() {
            return Err(Spent);
        }
        let (front, rest) = self.bytes.split_at(bytes.len());
        bytes.copy_from_slice(front);
        self.bytes = rest;
        Ok(())
    }
}

// The line of a key of a version and a half, whose bytes are these digits.
fn line_of(rt: &impl Abort, alloc: Global, version: u8, half: &str, digits: &str) -> String {
    let mark = match version {
        1 => "k1.",
        2 => "k2.",
        3 => "k3.",
        _ => "k4.",
    };
    let mut line = String::from_str(alloc, mark).expect(rt, "memory");
    line.push_str(half).expect(rt, "memory");
    line.push('.').expect(rt, "memory");
    let bytes = bytes_of(rt, alloc, digits);
    URL_SAFE_NO_PAD
        .encode_string(&bytes, &mut line)
        .expect(rt, "memory");
    line
}

// The text of a key file is opened as the wanted line.
fn expect_line(rt: &impl Abort, alloc: Global, openers: &Openers<'_>, text: &str, wanted: &str) {
    let line = unlock(alloc, openers, text).expect(rt, "a line");
    expect_text(rt, line.as_str(), wanted);
}

// The answer is the wanted text.
fn expect_answer(rt: &impl Abort, answer: Result<String, KeyFileError>, wanted: &str) {
    expect_text(rt, answer.expect(rt, "a text").as_str(), wanted);
}

// The text behind lines such as GnuTLS writes.
fn behind_a_text(rt: &impl Abort, alloc: Global, text: &str) -> String {
    format!(in alloc; "Public Key Info:\n\tKey Security Level: High\n\nk4.local.\n{text}").expect(
        rt, "a text",
    )
}

#[test]
fn keys_of_openssl_become_lines(rt: HostRuntime) {
    let alloc = rt.alloc();
    'texts: for (text, line) in [
        (ED25519_PRIVATE, EDWARDS_SECRET),
        (ED25519_PRIVATE_CRLF, EDWARDS_SECRET),
        (ED25519_PUBLIC, EDWARDS_PUBLIC),
        (P384_PRIVATE, CURVE_SECRET),
        (P384_SEC1, CURVE_SECRET),
        (P384_PUBLIC, CURVE_PUBLIC),
        (P384_COMPRESSED, CURVE_PUBLIC),
        (RSA_PRIVATE, SECRET),
        (RSA_PRIVATE_PKCS1, SECRET),
        (RSA_PUBLIC, PUBLIC_TEXT),
        (RSA_PUBLIC_PKCS1, PUBLIC_TEXT),
    ] {
        expect_line(&rt, alloc, &NO_OPENERS, text, line);
        let behind = behind_a_text(&rt, alloc, text);
        expect_line(&rt, alloc, &NO_OPENERS, behind.as_str(), line);
    }
}

#[test]
fn lines_become_keys_of_openssl(rt: HostRuntime) {
    let alloc = rt.alloc();
    'lines: for (line, text) in [
        (EDWARDS_SECRET, ED25519_PRIVATE),
        (EDWARDS_PUBLIC, ED25519_PUBLIC),
        (CURVE_SECRET, P384_PRIVATE),
        (CURVE_PUBLIC, P384_PUBLIC),
        (SECRET, RSA_PRIVATE),
        (INFO, RSA_PRIVATE),
        (PUBLIC_TEXT, RSA_PUBLIC),
    ] {
        expect_answer(&rt, pem_of(alloc, line), text);
    }
}

#[test]
fn lines_are_taken_as_they_stand(rt: HostRuntime) {
    let alloc = rt.alloc();
    'texts: for (text, line) in [
        ("k4.local.abc", "k4.local.abc"),
        ("k4.local.abc\n", "k4.local.abc"),
        ("k4.local.abc\r\n", "k4.local.abc"),
        ("k4.local.abc\r", "k4.local.abc\r"),
        ("k4.local.abc\n\n", "k4.local.abc\n"),
        (" k4.local.abc", " k4.local.abc"),
        ("", ""),
        ("\n", ""),
    ] {
        expect_line(&rt, alloc, &NO_OPENERS, text, line);
    }
}

fn cost_of(row: &Protected) -> PasswordCost {
    let (iterations, memory, passes, lanes) = row.4;
    PasswordCost {
        iterations,
        memory,
        passes,
        lanes,
    }
}

// The line of a row is put under its password by its salt and nonce, and opened again.
fn check_protected(rt: &impl Abort, alloc: Global, row: &Protected) {
    let (version, half, digits, password, _, salt, nonce, text) = *row;
    let line = line_of(rt, alloc, version, half, digits);
    let password = bytes_of(rt, alloc, password);
    let mut drawn = bytes_of(rt, alloc, salt);
    let nonce = bytes_of(rt, alloc, nonce);
    drawn.extend_from_slice(&nonce).expect(rt, "memory");
    let mut generator = Given { bytes: &drawn };
    let answer = protect(
        alloc,
        &password,
        cost_of(row),
        &mut generator,
        line.as_str(),
    );
    expect_answer(rt, answer, text);
    let openers = Openers {
        password: Some(&password),
        key: None,
    };
    expect_line(rt, alloc, &openers, text, line.as_str());
}

#[test]
fn keys_under_passwords_are_those_of_the_rows(rt: HostRuntime) {
    'rows: for row in PROTECTED {
        check_protected(&rt, rt.alloc(), row);
    }
}

// The line of a row is wrapped by its wrapping key and nonce, and opened again.
fn check_wrapped(rt: &impl Abort, alloc: Global, row: &Wrapped) {
    let (version, half, digits, wrapping, nonce, text) = *row;
    let line = line_of(rt, alloc, version, half, digits);
    let wrapping = line_of(rt, alloc, version, "local", wrapping);
    let nonce = bytes_of(rt, alloc, nonce);
    let mut generator = Given { bytes: &nonce };
    let answer = wrap(alloc, wrapping.as_str(), &mut generator, line.as_str());
    expect_answer(rt, answer, text);
    let openers = Openers {
        password: None,
        key: Some(wrapping.as_str()),
    };
    expect_line(rt, alloc, &openers, text, line.as_str());
}

#[test]
fn keys_under_wrapping_keys_are_those_of_the_rows(rt: HostRuntime) {
    'rows: for row in WRAPPED {
        check_wrapped(&rt, rt.alloc(), row);
    }
}

// A private key of version 1 whose line holds a PrivateKeyInfo is locked and opened as its RSAPrivateKey.
#[test]
fn keys_of_rsa_are_locked_in_one_form(rt: HostRuntime) {
    let alloc = rt.alloc();
    let cost = PasswordCost {
        iterations: 2,
        ..PasswordCost::default()
    };
    let mut generator = Given { bytes: &[7; 80] };
    let locked = protect(alloc, b"word", cost, &mut generator, INFO).expect(&rt, "a text");
    let wrapping = line_of(&rt, alloc, 1, "local", KEY);
    let wrapped = wrap(alloc, wrapping.as_str(), &mut generator, INFO).expect(&rt, "a text");
    let openers = Openers {
        password: Some(b"word"),
        key: Some(wrapping.as_str()),
    };
    expect_line(&rt, alloc, &openers, locked.as_str(), SECRET);
    expect_line(&rt, alloc, &openers, wrapped.as_str(), SECRET);
}

// The bytes of the key that is sealed.
const KEY: &str = "707172737475767778797a7b7c7d7e7f808182838485868788898a8b8c8d8e8f";

const ZEROS: &str = "0000000000000000000000000000000000000000000000000000000000000000";

#[test]
fn sealed_keys_are_opened(rt: HostRuntime) {
    let alloc = rt.alloc();
    'texts: for (version, secret, digits, text) in [
        (3, SEALING_SECRET3, ZEROS, ZEROS3),
        (4, SEALING_SECRET4, ZEROS, ZEROS4),
        (3, SEALING_SECRET3, KEY, SEALED3),
        (4, SEALING_SECRET4, KEY, SEALED4),
    ] {
        let openers = Openers {
            password: None,
            key: Some(secret),
        };
        let wanted = line_of(&rt, alloc, version, "local", digits);
        expect_line(&rt, alloc, &openers, text, wanted.as_str());
    }
}

// Bytes that count up from a first one.
fn counted(first: u8) -> [u8; 48] {
    let mut bytes = [first; 48];
    'bytes: for i in 1..48 {
        bytes[i] = bytes[i - 1].wrapping_add(1);
    }
    bytes
}

#[test]
fn keys_are_sealed(rt: HostRuntime) {
    let alloc = rt.alloc();
    let public2 = SEALING_PUBLIC4
        .replacen(alloc, "k4", "k2", 1)
        .expect(&rt, "memory");
    'texts: for (version, public, first, text) in [
        (2, public2.as_str(), 0, SEALED2),
        (3, SEALING_PUBLIC3, 1, SEALED3),
        (4, SEALING_PUBLIC4, 0, SEALED4),
    ] {
        let drawn = counted(first);
        let mut generator = Given { bytes: &drawn };
        let line = line_of(&rt, alloc, version, "local", KEY);
        expect_answer(
            &rt,
            seal(alloc, public, &mut generator, line.as_str()),
            text,
        );
    }
}
