//! Limits on how long a token and its footer may be, of rings and of default parsers.

use crate::defaults::key_rings::put_key;
use crate::defaults::ring_parsing::{Answer, CLAIMS, FOOTER, PARSED, expect_claims, token_of};
use crate::expect::{expect_outcome, expect_same, expect_shown};
use crate::kinds::{Binding, Kind, SECRET, symmetric_key};
use rusty_paseto::prelude::{
    Blame, KeyRing, KeyRingError, KeyRingParserError, Local, OwnedPublicKeyRing, PasetoParser,
    Public, PublicKey, PublicKeyRing, Ring, V2, V4,
};
use std::alloc::Global;
use std::process::Abort;
use test_toys::keys::{Keys, ToyVersion};
use test_toys::{ToyBox, ToyV4};

const TOO_LONG: &str = "The token or its footer is longer than allowed";

// The limits that a ring is given: of a token and of its footer.
#[derive(Clone, Copy, Debug)]
struct Limits {
    token: Option<usize>,
    footer: Option<usize>,
}

const NONE: Limits = Limits {
    token: None,
    footer: None,
};

fn of_token(bytes: usize) -> Limits {
    Limits {
        token: Some(bytes),
        ..NONE
    }
}

fn of_footer(bytes: usize) -> Limits {
    Limits {
        footer: Some(bytes),
        ..NONE
    }
}

fn set_limits<K: Drop>(ring: &mut Ring<K>, limits: Limits) {
    if let Some(bytes) = limits.token {
        ring.set_longest(bytes);
    }
    if let Some(bytes) = limits.footer {
        ring.set_longest_footer(bytes);
    }
}

// A ring of version 4 with the secret's key as `k1`.
fn ring_within(rt: &impl Abort, alloc: Global, limits: Limits) -> KeyRing<V4> {
    let mut ring = KeyRing::<V4>::new(alloc);
    set_limits(&mut ring, limits);
    put_key(rt, &mut ring, "k1", symmetric_key(&SECRET));
    ring
}

// Limits as many bytes below a length, and whether what has the length is within them.
const LESS: &[(usize, bool)] = &[(0, true), (1, false)];

// The ring opens a token or finds a key, or it refuses the token for its length.
fn check_opened<T: Drop>(
    rt: &impl Abort,
    alloc: Global,
    answer: Result<T, KeyRingError>,
    is_within: bool,
    limits: Limits,
) {
    let wanted = if is_within {
        "Ok"
    } else {
        "Untrusted(TooLong)"
    };
    expect_outcome(rt, alloc, answer, wanted, limits);
}

// The ring's answer is the claims, or it refuses the token for its length.
fn check_parsed(rt: &impl Abort, alloc: Global, answer: Answer, is_within: bool, limits: Limits) {
    if is_within {
        expect_claims(rt, alloc, answer, PARSED);
    } else {
        expect_outcome(rt, alloc, answer, "Ring(Untrusted(TooLong))", limits);
    }
}

type Parser<'a> = PasetoParser<'a, V4, Local>;

// What a ring with the limits answers for a token, and for its claims.
fn check_ring(rt: &impl Abort, alloc: Global, limits: Limits, token: &str, is_within: bool) {
    let (ring, parser) = (ring_within(rt, alloc, limits), Parser::new(alloc));
    check_opened(rt, alloc, ring.open(token, None), is_within, limits);
    check_parsed(rt, alloc, ring.parse(&parser, token), is_within, limits);
    drop(ring);
}

// A token of as many bytes as the limit is opened, and one of a byte more is refused.
#[test]
fn a_token_at_a_rings_limit(rt: HostRuntime) {
    let token = token_of(&rt, rt.alloc(), Kind::V4Local, CLAIMS);
    let (token, length) = (token.as_str(), token.len());
    'limits: for &(less, is_within) in LESS {
        let limits = of_token(length.saturating_sub(less));
        check_ring(&rt, rt.alloc(), limits, token, is_within);
    }
}

// Footers of 12, 13 and 14 bytes, which is every length modulo three.
const FOOTERS: &[&str] = &[FOOTER, "{\"kid\":\"k1\" }", "{ \"kid\":\"k1\" }"];

// What a ring with the limits answers for a footer.
fn check_named(rt: &impl Abort, alloc: Global, limits: Limits, footer: &str, is_within: bool) {
    let ring = ring_within(rt, alloc, limits);
    check_opened(rt, alloc, ring.key_of(footer), is_within, limits);
    drop(ring);
}

#[test]
fn a_footer_at_its_limit(rt: HostRuntime) {
    'footers: for &footer in FOOTERS {
        let binding = Binding::of_footer(Some(footer));
        let token = Kind::V4Local.token(&rt, rt.alloc(), CLAIMS, binding);
        'limits: for &(less, is_within) in LESS {
            let limits = of_footer(footer.len().saturating_sub(less));
            check_ring(&rt, rt.alloc(), limits, token.as_str(), is_within);
            check_named(&rt, rt.alloc(), limits, footer, is_within);
        }
    }
}

// Texts that are no tokens, and how a ring with the limits refuses them: when it opens them, and when it parses them.
const TEXTS: &[(Limits, &str, &str, &str)] = &[
    // Where there are not four sections, none is a footer.
    (
        Limits {
            footer: Some(0),
            ..NONE
        },
        "v4.local.AAAA",
        "NoFooter",
        "Ring(NoFooter)",
    ),
    (
        Limits {
            footer: Some(0),
            ..NONE
        },
        "v4.local.AAAA.AAAA.AAAA",
        "Untrusted(IncorrectSize)",
        "Ring(Untrusted(IncorrectSize))",
    ),
    // The token's length is looked at before its sections.
    (
        Limits {
            token: Some(7),
            ..NONE
        },
        "v4.local",
        "Untrusted(TooLong)",
        "Ring(Untrusted(TooLong))",
    ),
    (
        Limits {
            token: Some(8),
            ..NONE
        },
        "v4.local",
        "Untrusted(IncorrectSize)",
        "Ring(Untrusted(IncorrectSize))",
    ),
];

// What a ring with the limits answers for a text, and for its claims.
fn check_text(rt: &impl Abort, alloc: Global, row: (Limits, &str, &str, &str)) {
    let (limits, text, opened, parsed) = row;
    let (ring, parser) = (ring_within(rt, alloc, limits), Parser::new(alloc));
    expect_outcome(rt, alloc, ring.open(text, None), opened, limits);
    expect_outcome(rt, alloc, ring.parse(&parser, text), parsed, limits);
    drop(ring);
}

#[test]
fn texts_at_a_rings_limit(rt: HostRuntime) {
    'rows: for &row in TEXTS {
        check_text(&rt, rt.alloc(), row);
    }
}

// The parser itself refuses the token for its length.
fn check_refusal(rt: &impl Abort, alloc: Global, parser: &Parser<'_>, token: &str) {
    let answer = parser.parse(token, &symmetric_key(&SECRET));
    let wanted = "CipherError { source: TooLong }";
    expect_outcome(rt, alloc, answer, wanted, "the parser");
}

// What the parser with the limit answers for a token by a ring that has none.
fn check_lent(rt: &impl Abort, alloc: Global, parser: &Parser<'_>, token: &str, is_within: bool) {
    let ring = ring_within(rt, alloc, NONE);
    check_parsed(rt, alloc, ring.parse(parser, token), is_within, NONE);
    drop(ring);
}

// A parser's limit holds for a ring that it parses by, and for the parser itself.
#[test]
fn a_parsers_limit(rt: HostRuntime) {
    let alloc = rt.alloc();
    let token = token_of(&rt, alloc, Kind::V4Local, CLAIMS);
    let (token, length) = (token.as_str(), token.len());
    let mut parser = Parser::new(alloc);
    parser.set_longest(length.saturating_sub(1));
    check_lent(&rt, alloc, &parser, token, false);
    check_refusal(&rt, alloc, &parser, token);
    parser.set_longest(length);
    check_lent(&rt, alloc, &parser, token, true);
}

// What a ring of version 2 with the limits answers.
fn check_boxed(rt: &impl Abort, alloc: Global, limits: Limits, token: &str, is_within: bool) {
    let mut ring = KeyRing::<V2>::new(alloc);
    put_key(rt, &mut ring, "k1", symmetric_key(&SECRET));
    set_limits(&mut ring, limits);
    check_opened(rt, alloc, ring.open(&ToyBox, token), is_within, limits);
    let parser = PasetoParser::<V2, Local>::new(alloc);
    check_parsed(
        rt,
        alloc,
        ring.parse(&ToyBox, &parser, token),
        is_within,
        limits,
    );
    drop(ring);
}

// A limit of the footer that names `k1`, and whether it is within.
const FOOTER_LIMITS: &[(usize, bool)] = &[(12, true), (11, false)];

#[test]
fn a_ring_of_version_2(rt: HostRuntime) {
    let token = token_of(&rt, rt.alloc(), Kind::V2Local, CLAIMS);
    'limits: for &(bytes, is_within) in FOOTER_LIMITS {
        check_boxed(&rt, rt.alloc(), of_footer(bytes), token.as_str(), is_within);
    }
}

type PublicParser<'a> = PasetoParser<'a, V4, Public>;

// A ring of public keys, whose limits replace others.
fn public_ring<'a>(
    rt: &impl Abort,
    alloc: Global,
    limits: Limits,
    keys: &'a Keys,
) -> PublicKeyRing<'a, V4> {
    let mut ring = PublicKeyRing::<V4>::new(alloc);
    let key = V4::public_key(keys).expect(rt, "a key");
    put_key(rt, &mut ring, "k1", key);
    set_limits(&mut ring, of_footer(12));
    set_limits(&mut ring, limits);
    ring
}

// What a ring of public keys answers.
fn check_public(rt: &impl Abort, alloc: Global, limits: Limits, token: &str, is_within: bool) {
    let keys = Keys::of(&SECRET);
    let ring = public_ring(rt, alloc, limits, &keys);
    let parser = PublicParser::new(alloc);
    check_opened(
        rt,
        alloc,
        ring.verify(&ToyV4, token, None),
        is_within,
        limits,
    );
    check_parsed(
        rt,
        alloc,
        ring.parse(&ToyV4, &parser, token),
        is_within,
        limits,
    );
    drop(ring);
}

// A ring that owns its keys, whose limits replace others.
fn owned_ring(rt: &impl Abort, alloc: Global, limits: Limits) -> OwnedPublicKeyRing<V4> {
    let keys = Keys::of(&SECRET);
    let lent = V4::public_key(&keys).expect(rt, "a key");
    let mut ring = OwnedPublicKeyRing::<V4>::new(alloc);
    let copied = PublicKey::copy_of(alloc, &lent).expect(rt, "memory");
    put_key(rt, &mut ring, "k1", copied);
    set_limits(&mut ring, of_footer(12));
    set_limits(&mut ring, limits);
    ring
}

// What a ring that owns its keys answers.
fn check_owned(rt: &impl Abort, alloc: Global, limits: Limits, token: &str, is_within: bool) {
    let (ring, parser) = (owned_ring(rt, alloc, limits), PublicParser::new(alloc));
    check_parsed(
        rt,
        alloc,
        ring.parse(&ToyV4, &parser, token),
        is_within,
        limits,
    );
    drop(ring);
}

#[test]
fn rings_of_public_keys(rt: HostRuntime) {
    let token = token_of(&rt, rt.alloc(), Kind::V4Public, CLAIMS);
    'limits: for &(bytes, is_within) in FOOTER_LIMITS {
        let limits = of_footer(bytes);
        check_public(&rt, rt.alloc(), limits, token.as_str(), is_within);
        check_owned(&rt, rt.alloc(), limits, token.as_str(), is_within);
    }
}

// The refusal tells its text, and that the token is to blame.
fn check_told(rt: &impl Abort, alloc: Global, refusal: KeyRingError) {
    expect_same(rt, refusal.blame(), Blame::Foreign, "the blame");
    expect_shown(rt, alloc, &refusal, TOO_LONG);
    drop(refusal);
}

fn check_told_of_claims(rt: &impl Abort, alloc: Global, refusal: KeyRingParserError) {
    expect_same(rt, refusal.blame(), Blame::Foreign, "the blame");
    expect_shown(rt, alloc, &refusal, TOO_LONG);
    drop(refusal);
}

#[test]
fn the_refusal_tells_its_text(rt: HostRuntime) {
    let alloc = rt.alloc();
    let (ring, parser) = (ring_within(&rt, alloc, of_token(0)), Parser::new(alloc));
    check_told(
        &rt,
        alloc,
        ring.open("v4", None).err().expect(&rt, "a refusal"),
    );
    check_told_of_claims(
        &rt,
        alloc,
        ring.parse(&parser, "v4").err().expect(&rt, "a refusal"),
    );
    drop(ring);
}
