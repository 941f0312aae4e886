//! Rings of keys, in which a token's footer picks the key, over all kinds.

use crate::defaults::public_rings::{ask_asserting, ask_box, ask_version_1, ask_version_2};
use crate::expect::{expect_outcome, expect_refusal_or_ok, expect_same, expect_text};
use crate::kinds::{ASSERTED_KINDS, Binding, KINDS, Kind, SECRET, symmetric_key};
use rusty_paseto::prelude::{
    DefaultAssertionVersion, DefaultLocalVersion, KeyRing, KeyRingError, Ring, V1, V3, V4,
    key_footer,
};
use std::alloc::Global;
use std::process::Abort;

/// What a ring answers for a token.
pub(crate) type Opened = Result<(String, String), KeyRingError>;

/// What is asked of a ring: a token, and the implicit assertion where the version has one.
#[derive(Clone, Copy)]
pub(crate) struct Question<'a> {
    pub(crate) token: &'a str,
    pub(crate) assertion: Option<&'a str>,
    /// Whether `k2` is given the key of `k1` first.
    pub(crate) is_second_changed: bool,
}

impl<'a> Question<'a> {
    fn of(token: &'a str) -> Self {
        Question {
            token,
            assertion: None,
            is_second_changed: false,
        }
    }
}

/// Puts a key into a ring.
pub(crate) fn put_key<K: Drop>(rt: &impl Abort, ring: &mut Ring<K>, id: &str, key: K) {
    ring.add(id, key).expect(rt, "memory");
}

// A ring with the secret's key as `k1`, and a key of zeros as `k2`.
fn ring_for<V: DefaultLocalVersion>(
    rt: &impl Abort,
    alloc: Global,
    question: Question<'_>,
) -> KeyRing<V> {
    let mut ring = KeyRing::<V>::new(alloc);
    put_key(rt, &mut ring, "k1", symmetric_key(&SECRET));
    put_key(rt, &mut ring, "k2", symmetric_key(&[0; 64]));
    if question.is_second_changed {
        put_key(rt, &mut ring, "k2", symmetric_key(&SECRET));
    }
    ring
}

fn ask_local_1(rt: &impl Abort, alloc: Global, question: Question<'_>) -> Opened {
    let ring = ring_for::<V1>(rt, alloc, question);
    let answer = ring.open(question.token);
    drop(ring);
    answer
}

fn ask_local<V: DefaultAssertionVersion>(
    rt: &impl Abort,
    alloc: Global,
    question: Question<'_>,
) -> Opened {
    let assertion = Binding::of_assertion(question.assertion).assertion();
    let ring = ring_for::<V>(rt, alloc, question);
    let answer = ring.open(question.token, assertion);
    drop(ring);
    answer
}

// What a ring of the kind's version answers.
fn ask(rt: &impl Abort, alloc: Global, kind: Kind, question: Question<'_>) -> Opened {
    match kind {
        Kind::V1Local => ask_local_1(rt, alloc, question),
        Kind::V2Local => ask_box(rt, alloc, question),
        Kind::V3Local => ask_local::<V3>(rt, alloc, question),
        Kind::V4Local => ask_local::<V4>(rt, alloc, question),
        Kind::V1Public => ask_version_1(rt, alloc, question),
        Kind::V2Public => ask_version_2(rt, alloc, question),
        Kind::V3Public => ask_asserting::<V3>(rt, alloc, question),
        Kind::V4Public => ask_asserting::<V4>(rt, alloc, question),
    }
}

// What is answered for a token of `hi`.
#[derive(Clone, Copy)]
enum Wanted {
    // The text, under this id.
    Opened(&'static str),
    // That it is not of the key that its footer names, or was made for another assertion.
    OtherKey,
    // A refusal of this text.
    Refused(&'static str),
}

// A footer and an implicit assertion that the token was made for, the assertion that a ring is asked with, whether `k2`
// is given the key of `k1` first, and the answer.
#[derive(Clone, Copy)]
struct Row {
    footer: Option<&'static str>,
    made_for: Option<&'static str>,
    assertion: Option<&'static str>,
    is_second_changed: bool,
    wanted: Wanted,
}

const FIRST: Row = Row {
    footer: Some("{\"kid\":\"k1\"}"),
    made_for: None,
    assertion: None,
    is_second_changed: false,
    wanted: Wanted::Opened("k1"),
};

const SECOND: Row = Row {
    footer: Some("{\"kid\":\"k2\"}"),
    wanted: Wanted::OtherKey,
    ..FIRST
};

const ROWS: &[Row] = &[
    // The footer picks the key.
    FIRST,
    Row {
        footer: Some("{ \"kid\" : \"k1\", \"x\" : 3.5 }"),
        ..FIRST
    },
    // No other key is tried.
    SECOND,
    Row {
        is_second_changed: true,
        wanted: Wanted::Opened("k2"),
        ..SECOND
    },
];

const NO_OBJECT: &str = "The footer is not a JSON object";

const UNNAMED: &str = "The footer names no key";

// Footers that pick no key, and how a token with one is refused.
const FOOTERS: &[(Option<&str>, &str)] = &[
    (None, "The token has no footer"),
    (Some(""), NO_OBJECT),
    (Some("[]"), NO_OBJECT),
    (Some("x"), NO_OBJECT),
    (Some("k1"), NO_OBJECT),
    (Some("{\"kid\":5}"), UNNAMED),
    (Some("{\"kid\":1}"), UNNAMED),
    (Some("{}"), UNNAMED),
    (Some("{\"kid\":\"k3\"}"), "The key 'k3' is not in the ring"),
    (Some("{\"kid\":\"K1\"}"), "The key 'K1' is not in the ring"),
    // The id is anybody's text, which is to stay on its line of a log, and else reads as it is.
    (
        Some("{\"kid\":\"x\\nERROR\\u202e\"}"),
        "The key 'x\\nERROR\\u{202e}' is not in the ring",
    ),
    (
        Some("{\"kid\":\"it's \\\"mine\\\", \\\\ü\"}"),
        "The key 'it's \"mine\", \\ü' is not in the ring",
    ),
];

// Of kinds with an implicit assertion: one that is passed, and one that is not.
const ASSERTED_ROWS: &[Row] = &[
    Row {
        made_for: Some("a"),
        assertion: Some("a"),
        ..FIRST
    },
    Row {
        made_for: Some("a"),
        wanted: Wanted::OtherKey,
        ..FIRST
    },
];

// How a ring refuses a token of another key.
fn other_key(kind: Kind) -> &'static str {
    match kind {
        Kind::V2Local => "Token(ChaChaCipherError)",
        Kind::V1Local | Kind::V3Local | Kind::V4Local => "Token(Cryption)",
        _ => "Token(InvalidSignature)",
    }
}

fn check_answer(rt: &impl Abort, alloc: Global, kind: Kind, row: Row, answer: Opened) {
    let told = (kind, row.footer, row.assertion);
    match row.wanted {
        Wanted::Opened(wanted) => {
            let (id, text) = answer.expect(rt, "a text");
            expect_same(rt, id.as_str(), wanted, &told);
            expect_same(rt, text.as_str(), "hi", &told);
        }
        Wanted::OtherKey => expect_outcome(rt, alloc, answer, other_key(kind), told),
        Wanted::Refused(text) => { expect_refusal_or_ok(rt, alloc, answer, text, told) }
    }
}

fn check_rows(rt: &impl Abort, alloc: Global, kinds: &[Kind], rows: &[Row]) {
    'kinds: for &kind in kinds {
        'rows: for &row in rows {
            let binding = Binding {
                footer: row.footer,
                assertion: row.made_for,
            };
            let token = kind.token(rt, alloc, "hi", binding);
            let question = Question {
                token: token.as_str(),
                assertion: row.assertion,
                is_second_changed: row.is_second_changed,
            };
            let answer = ask(rt, alloc, kind, question);
            check_answer(rt, alloc, kind, row, answer);
        }
    }
}

#[test]
fn the_footer_picks_the_key(rt: HostRuntime) {
    check_rows(&rt, rt.alloc(), KINDS, ROWS);
    check_rows(&rt, rt.alloc(), ASSERTED_KINDS, ASSERTED_ROWS);
}

#[test]
fn a_footer_that_picks_no_key(rt: HostRuntime) {
    'footers: for &(footer, text) in FOOTERS {
        let row = Row {
            footer,
            wanted: Wanted::Refused(text),
            ..FIRST
        };
        check_rows(&rt, rt.alloc(), KINDS, &[row]);
    }
}

// Texts that are no tokens: of two sections, and with a footer that is no text. How they are refused.
const TEXTS: &[(&str, &str)] = &[
    ("v4.local", "Untrusted(IncorrectSize)"),
    (
        "v4.local.AAAA._w",
        "Untrusted(Utf8Error { source: Utf8Error { valid_up_to: 0, error_len: Some(1) } })",
    ),
];

#[test]
fn a_text_that_is_no_token(rt: HostRuntime) {
    'kinds: for &kind in KINDS {
        'texts: for &(text, wanted) in TEXTS {
            let answer = ask(&rt, rt.alloc(), kind, Question::of(text));
            expect_outcome(&rt, rt.alloc(), answer, wanted, (kind, text));
        }
    }
}

// A kind, and another version's ring.
const OTHERS: &[(Kind, Kind)] = &[
    (Kind::V1Local, Kind::V3Local),
    (Kind::V3Local, Kind::V4Local),
    (Kind::V4Local, Kind::V3Local),
];

#[test]
fn a_token_of_another_version(rt: HostRuntime) {
    'kinds: for &(kind, other) in OTHERS {
        let binding = Binding::of_footer(Some("{\"kid\":\"k1\"}"));
        let token = kind.token(&rt, rt.alloc(), "hi", binding);
        let answer = ask(&rt, rt.alloc(), other, Question::of(token.as_str()));
        expect_outcome(&rt, rt.alloc(), answer, "Token(WrongHeader)", kind);
    }
}

// The footer that names an id is this one, and a ring finds the id's key by it.
fn check_footer(rt: &impl Abort, alloc: Global, id: &str, expected: &str) {
    let footer = key_footer(alloc, id).expect(rt, "a footer");
    expect_text(rt, footer.as_str(), expected);
    let mut ring = KeyRing::<V4>::new(alloc);
    put_key(rt, &mut ring, id, symmetric_key(&SECRET));
    expect_outcome(rt, alloc, ring.key_of(footer.as_str()), "Ok", id);
    drop(ring);
}

// The texts are those of Python's `json.dumps`, with no space and with letters beyond ASCII as they are. A ring finds
// the key under each.
#[test]
fn footers_that_name_a_key(rt: HostRuntime) {
    let alloc = rt.alloc();
    'ids: for (id, expected) in [
        ("2026-11", "{\"kid\":\"2026-11\"}"),
        ("", "{\"kid\":\"\"}"),
        ("a\"b", "{\"kid\":\"a\\\"b\"}"),
        ("a\\b", "{\"kid\":\"a\\\\b\"}"),
        ("a\nb", "{\"kid\":\"a\\nb\"}"),
        ("Grüße 🔑", "{\"kid\":\"Grüße 🔑\"}"),
        ("\u{1}", "{\"kid\":\"\\u0001\"}"),
    ] {
        check_footer(&rt, alloc, id, expected);
    }
}
