//! A token of version 2 that decrypts under two keys: Poly1305 commits to no key.

use crate::expect::expect_text;
use crate::hexadecimal::array_of;
use paseto_xchacha20poly1305::XChaCha20Poly1305;
use rusty_paseto_core::{Key, Local, Paseto, PasetoSymmetricKey, V2};
use std::alloc::Global;
use std::process::Abort;

const ONE_KEY: &str = "707172737475767778797a7b7c7d7e7f808182838485868788898a8b8c8d8e8f";

const OTHER_KEY: &str = "101112131415161718191a1b1c1d1e1f202122232425262728292a2b2c2d2e2f";

// Computed from both keys: under its nonce the first bits of the bytes of both keystreams agree, and sixteen bytes of the
// ciphertext are the solution of the equation that both tags are one.
const TOKEN: &str =
    "v2.local.AAAAAAAAAAAAAAAAAAAAAM6pHAAAAAAAAZ3_1TlhLLpa4CvjwryJpMzLRA4flRqdwCls5bMN4VV-Grue";

fn check_text(rt: &impl Abort, alloc: Global, key: &str, wanted: &str) {
    let key = PasetoSymmetricKey::<V2, Local>::from(Key::from(array_of::<32>(rt, key)));
    let text = Paseto::<V2, Local>::try_decrypt(alloc, &XChaCha20Poly1305, TOKEN, &key, None);
    expect_text(rt, text.expect(rt, "a text").as_str(), wanted);
}

#[test]
fn one_token_decrypts_under_two_keys(rt: HostRuntime) {
    let alloc = rt.alloc();
    let one = ")M?Xy\u{e}6&\u{18}\u{6}\"bQ\u{1b}Z\nS\u{13}\u{e}*";
    let other = "PLNm\nwAK]\u{1a}7\"\u{1}RM\u{1b}\u{19}Q~H";
    check_text(&rt, alloc, ONE_KEY, one);
    check_text(&rt, alloc, OTHER_KEY, other);
}
