//! Long texts and long footers, and texts of odd letters, which become tokens and come back.

use crate::expect::{expect_outcome, expect_that};
use crate::kinds::{Binding, ENDLESS_KINDS, KINDS, Kind, SECRET, symmetric_key};
use rusty_paseto_core::{Key, Local, Paseto, PasetoNonce, Payload, V2};
use std::alloc::Global;
use std::process::Abort;
use test_toys::PlainBox;
use test_toys::long::{LENGTHS, text_of};

// A text of so many letters comes back.
fn check_text(rt: &impl Abort, alloc: Global, kind: Kind, letters: usize) {
    let text = text_of(alloc, letters).expect(rt, "memory");
    let token = kind.token(rt, alloc, text.as_str(), Binding::NONE);
    let same = kind
        .read(alloc, token.as_str(), Binding::NONE)
        .expect(rt, "a text");
    expect_that(rt, same.as_str() == text.as_str(), &(kind, letters));
}

// A text of so many letters comes back in version 2, by a box that takes any message.
fn check_boxed_text(rt: &impl Abort, alloc: Global, letters: usize) {
    let text = text_of(alloc, letters).expect(rt, "memory");
    let key = symmetric_key::<V2>(&SECRET);
    let nonce = Key::from([0u8; 32]);
    let mut paseto = Paseto::<V2, Local>::builder();
    paseto.set_payload(Payload::from(text.as_str()));
    let token = paseto
        .try_encrypt(alloc, &PlainBox, &key, &PasetoNonce::from(&nonce))
        .expect(rt, "a token");
    let same = Paseto::<V2, Local>::try_decrypt(
        alloc,
        &PlainBox,
        token.as_str(),
        &key,
        None,
    ).expect(rt, "a text");
    expect_that(rt, same.as_str() == text.as_str(), &letters);
}

#[test]
fn long_texts(rt: HostRuntime) {
    'lengths: for &letters in LENGTHS {
        'kinds: for &kind in ENDLESS_KINDS {
            check_text(&rt, rt.alloc(), kind, letters);
        }
        check_boxed_text(&rt, rt.alloc(), letters);
    }
}

#[test]
fn long_footers(rt: HostRuntime) {
    let footer = text_of(rt.alloc(), 100_000).expect(&rt, "memory");
    let binding = Binding::of_footer(Some(footer.as_str()));
    'kinds: for &kind in KINDS {
        let token = kind.token(&rt, rt.alloc(), "hello", binding);
        kind.check_text(&rt, rt.alloc(), token.as_str(), binding, "hello");
    }
}

// The longest text that the toy box takes, and one that is too long for it.
#[test]
fn the_longest_text_of_a_box(rt: HostRuntime) {
    check_text(&rt, rt.alloc(), Kind::V2Local, 4_096);
    let text = text_of(rt.alloc(), 4_097).expect(&rt, "memory");
    let answer = Kind::V2Local.make(rt.alloc(), text.as_str(), Binding::NONE);
    expect_outcome(&rt, rt.alloc(), answer, "ChaChaCipherError", "the box");
}

// Control characters, and a letter of four bytes.
#[test]
fn odd_letters(rt: HostRuntime) {
    let text = "\0\u{7}\r\n\u{1b}\u{1f600}";
    let binding = Binding {
        footer: Some(text),
        assertion: Some(text),
    };
    'kinds: for &kind in KINDS {
        let token = kind.token(&rt, rt.alloc(), text, binding);
        let same = kind
            .read(rt.alloc(), token.as_str(), binding)
            .expect(&rt, "a text");
        expect_that(&rt, same.as_str() == text, &kind);
    }
}
