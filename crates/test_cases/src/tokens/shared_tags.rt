//! Tokens that share a nonce and a tag and differ in what the tag covers. No two texts are known whose tokens do, so
//! they are tokens of a toy version, whose tags are all the same.

use crate::expect::{expect_bytes, expect_same, expect_that};
use rusty_paseto_core::{
    Footer, ImplicitAssertion, Key, Local, LocalVersion, Opening, Paseto, PasetoNonce,
    PasetoSymmetricKey, Payload, PreAuthenticationEncoding, TagCollision,
};
use std::alloc::Global;
use std::process::Abort;
use test_toys::OneTag;

// What a token is made of. The key and the nonce have one byte 32 times.
#[derive(Clone, Copy)]
struct Made<'a> {
    key: u8,
    nonce: u8,
    text: &'a str,
    footer: &'a str,
    assertion: &'a str,
}

impl<'a> Made<'a> {
    fn key(self) -> PasetoSymmetricKey<OneTag, Local> {
        PasetoSymmetricKey::from(Key::from([self.key; 32]))
    }

    fn sealed(self, rt: &impl Abort, alloc: Global) -> Sealed<'a> {
        let (key, nonce) = (self.key(), Key::from([self.nonce; 32]));
        let token = OneTag::seal(
            alloc,
            &key,
            &PasetoNonce::from(&nonce),
            Payload::from(self.text),
            Some(Footer::from(self.footer)),
            Some(ImplicitAssertion::from(self.assertion)),
        );
        Sealed {
            made: self,
            key,
            token: token.expect(rt, "a token"),
        }
    }

    // What the tag is made of.
    fn encoding(self, rt: &impl Abort, alloc: Global) -> PreAuthenticationEncoding {
        let nonce = [self.nonce; 32];
        let pieces: [&[u8]; 5] = [
            b"v4.local.",
            &nonce,
            self.text.as_bytes(),
            self.footer.as_bytes(),
            self.assertion.as_bytes(),
        ];
        PreAuthenticationEncoding::parse(alloc, &pieces).expect(rt, "memory")
    }
}

// A token, what it is made of, and its key.
#[derive(Drop)]
struct Sealed<'a> {
    made: Made<'a>,
    key: PasetoSymmetricKey<OneTag, Local>,
    token: String,
}

impl Sealed<'_> {
    fn opening(&self) -> Opening<'_, OneTag> {
        Opening {
            key: &self.key,
            token: self.token.as_str(),
            footer: Some(Footer::from(self.made.footer)),
            assertion: Some(ImplicitAssertion::from(self.made.assertion)),
        }
    }
}

fn all_sealed<'a>(rt: &impl Abort, alloc: Global, all: &[Made<'a>]) -> Vec<Sealed<'a>> {
    let mut sealed = Vec::new(alloc);
    'all: for made in all {
        sealed.push(made.sealed(rt, alloc)).expect(rt, "memory");
    }
    sealed
}

fn openings_of<'a>(
    rt: &impl Abort,
    alloc: Global,
    tokens: &'a [Sealed<'_>],
) -> Vec<Opening<'a, OneTag>> {
    let mut openings = Vec::new(alloc);
    'tokens: for sealed in tokens {
        openings.push(sealed.opening()).expect(rt, "memory");
    }
    openings
}

// The collision of tokens that are made so.
fn find(rt: &impl Abort, alloc: Global, all: &[Made<'_>]) -> Option<TagCollision> {
    let tokens = all_sealed(rt, alloc, all);
    let openings = openings_of(rt, alloc, &tokens);
    Paseto::<OneTag, Local>::tag_collision(alloc, &openings).expect(rt, "an answer")
}

// The tokens at these two places are shown as a collision.
fn check_found(rt: &impl Abort, alloc: Global, name: &str, all: &[Made<'_>], places: [usize; 2]) {
    let found = find(rt, alloc, all).expect(rt, "a collision");
    expect_same(rt, found.places, places, name);
    let first = all.get(places[0]).expect(rt, "a first place");
    let second = all.get(places[1]).expect(rt, "a second place");
    expect_bytes(
        rt,
        found.first.as_bytes(),
        first.encoding(rt, alloc).as_bytes(),
    );
    expect_bytes(
        rt,
        found.second.as_bytes(),
        second.encoding(rt, alloc).as_bytes(),
    );
    expect_bytes(rt, found.tag.as_slice(), &[0; 32]);
}

// None of the tokens are a collision.
fn check_none(rt: &impl Abort, alloc: Global, name: &str, all: &[Made<'_>]) {
    expect_that(rt, find(rt, alloc, all).is_none(), name);
}

const A: Made<'static> = Made {
    key: 7,
    nonce: 0,
    text: "a",
    footer: "",
    assertion: "",
};

const A_ELSEWHERE: Made<'static> = Made { nonce: 1, ..A };

const B: Made<'static> = Made { text: "b", ..A };

const B_ELSEWHERE: Made<'static> = Made {
    nonce: 1,
    text: "b",
    ..A
};

const OTHER_KEY: Made<'static> = Made { key: 8, ..A };

const OTHER_KEY_ELSEWHERE: Made<'static> = Made {
    key: 8,
    nonce: 1,
    ..A
};

const BOUND: Made<'static> = Made { footer: "b", ..A };

const ASSERTED: Made<'static> = Made {
    assertion: "b",
    ..A
};

// Tokens, and the places of the two that are shown.
const COLLISIONS: &[(&str, &[Made<'static>], [usize; 2])] = &[
    ("two texts", &[A, A_ELSEWHERE, B], [0, 2]),
    ("two texts, turned", &[B, A_ELSEWHERE, A], [0, 2]),
    ("two texts among four", &[A_ELSEWHERE, A, A, B], [1, 3]),
    ("two keys", &[A, OTHER_KEY], [0, 1]),
    ("two footers", &[A, BOUND], [0, 1]),
    ("two assertions", &[ASSERTED, A], [0, 1]),
    ("a footer and an assertion", &[BOUND, ASSERTED], [0, 1]),
];

// Tokens of one content, or of two nonces.
const OTHERS: &[(&str, &[Made<'static>])] = &[
    ("one content", &[A, A]),
    ("two nonces and two texts", &[A, B_ELSEWHERE]),
    ("two nonces and two keys", &[A, OTHER_KEY_ELSEWHERE]),
];

#[test]
fn shown_where_two_contents_share_a_nonce(rt: HostRuntime) {
    'collisions: for &(name, all, places) in COLLISIONS {
        check_found(&rt, rt.alloc(), name, all, places);
    }
    'others: for &(name, all) in OTHERS {
        check_none(&rt, rt.alloc(), name, all);
    }
}
