//! The rows of RFC 4648, section 10, and texts that are refused.

use paseto_base64::{Alphabet, decode, encode, encode_string};
use std::alloc::Global;
use std::process::Abort;

// Bytes, and their base64 by both alphabets.
const ROWS: &[(&[u8], &str, &str)] = &[
    (b"", "", ""),
    (b"f", "Zg==", "Zg"),
    (b"fo", "Zm8=", "Zm8"),
    (b"foo", "Zm9v", "Zm9v"),
    (b"foob", "Zm9vYg==", "Zm9vYg"),
    (b"fooba", "Zm9vYmE=", "Zm9vYmE"),
    (b"foobar", "Zm9vYmFy", "Zm9vYmFy"),
    (&[0xfb, 0xff, 0xbf], "+/+/", "-_-_"),
];

const REFUSED: &[(Alphabet, &str)] = &[
    (Alphabet::Standard, "Zg"),
    (Alphabet::Standard, "Zg="),
    (Alphabet::Standard, "Zg==="),
    (Alphabet::Standard, "Zh=="),
    (Alphabet::Standard, "Zm9="),
    (Alphabet::Standard, "Zg==\n"),
    (Alphabet::Standard, "=="),
    (Alphabet::Standard, "-_-_"),
    (Alphabet::UrlSafe, "Zg=="),
    (Alphabet::UrlSafe, "Zh"),
    (Alphabet::UrlSafe, "Z"),
    (Alphabet::UrlSafe, "Zm9vY"),
    (Alphabet::UrlSafe, "+/+/"),
    (Alphabet::UrlSafe, "Zg.."),
    (Alphabet::UrlSafe, "Zm9é"),
    (Alphabet::UrlSafe, "Zm9v\n"),
];

fn check(rt: &impl Abort, alloc: Global, alphabet: Alphabet, bytes: &[u8], text: &str) {
    let written = encode(alloc, alphabet, bytes).expect(rt, "a text");
    if written.as_str() != text {
        panic!(rt; "{} in place of {}", written.as_str(), text);
    }
    match decode(alloc, alphabet, text).expect(rt, "memory") {
        Some(read) if read.as_slice() == bytes => {}
        _ => panic!(rt; "{} is not read", text),
    }
}

#[test]
fn rows(rt: HostRuntime) {
    'rows: for &(bytes, standard, url_safe) in ROWS {
        check(&rt, rt.alloc(), Alphabet::Standard, bytes, standard);
        check(&rt, rt.alloc(), Alphabet::UrlSafe, bytes, url_safe);
    }
}

#[test]
fn what_is_appended(rt: HostRuntime) {
    let mut text = String::from_str(rt.alloc(), "k4.local.").expect(&rt, "a text");
    encode_string(Alphabet::UrlSafe, b"fooba", &mut text).expect(&rt, "memory");
    if text.as_str() != "k4.local.Zm9vYmE" {
        panic!(rt; "{} is written", text.as_str());
    }
}

#[test]
fn what_is_refused(rt: HostRuntime) {
    'rows: for &(alphabet, text) in REFUSED {
        if decode(rt.alloc(), alphabet, text)
            .expect(&rt, "memory")
            .is_some()
        {
            panic!(rt; "{} is read", text);
        }
    }
}
