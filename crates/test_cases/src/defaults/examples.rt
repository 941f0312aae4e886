//! The examples of the Rust crate's documentation, each under its title.

use crate::defaults::claims::Claim;
use crate::defaults::kinds::{default_builder, default_parser, moment_after, sealed};
use crate::defaults::primes::Primes;
use crate::defaults::rows::{NONE, Row, USUAL, check_rows};
use crate::expect::expect_told;
use crate::kinds::{Binding, Kind, SECRET, symmetric_key};
use rusty_paseto::CountingSetter;
use rusty_paseto::prelude::{
    CustomClaim, ExpirationClaim, Footer, ImplicitAssertion, Local, PasetoBuilder, PasetoParser,
    SubjectClaim, V4,
};
use rusty_paseto_generic::CheckSetter;
use std::alloc::Global;
use std::process::Abort;

const FOOTER: &str = "Sometimes science is more art than science";

const ASSERTION: &str =
    "There\u{2019}s a lesson here, and I\u{2019}m not going to be the one to figure it out.";

const SECOND: i128 = 1_000_000_000;

const EARLY: &str = "The token cannot be used before 2024-01-01T00:00:00Z";

const IN_5_MINUTES: Claim<'static> = Claim::Expiration("2024-01-01T00:05:00Z");

const SCHWIFTY: Claim<'static> = Claim::Subject("Get schwifty");

const FROM_EARTH: Claim<'static> = Claim::Custom("Contestant", "\"Earth\"");

const CONTESTANT: &[Claim<'static>] = &[SCHWIFTY, FROM_EARTH, Claim::Custom("Universe", "137")];

const CONTESTANT_JSON: &str = "{\"Contestant\":\"Earth\",\"Universe\":137,\
    \"exp\":\"2024-01-01T01:00:00Z\",\"iat\":\"2024-01-01T00:00:00Z\",\
    \"nbf\":\"2024-01-01T00:00:00Z\",\"sub\":\"Get schwifty\"}";

// Building and parsing tokens; a default token.
const USUAL_ROW: Row = Row {
    payload: None,
    claims: NONE,
    footers: (None, None),
    after: SECOND,
    checks: NONE,
    answer: USUAL,
};

const ROWS: &[Row] = &[
    USUAL_ROW,
    // Validating tokens and handling errors.
    Row {
        claims: &[Claim::Expiration("2019-01-01T00:00:00+00:00")],
        answer: "This token is expired",
        ..USUAL_ROW
    },
    // A token with a footer.
    Row {
        footers: (Some(FOOTER), None),
        answer: "A paseto cipher error occurred",
        ..USUAL_ROW
    },
    Row {
        footers: (Some(FOOTER), Some(FOOTER)),
        ..USUAL_ROW
    },
    // Setting a different expiration time.
    Row {
        claims: &[IN_5_MINUTES],
        after: 300 * SECOND - 1,
        answer: "{\"exp\":\"2024-01-01T00:05:00Z\",\"iat\":\"2024-01-01T00:00:00Z\",\
            \"nbf\":\"2024-01-01T00:00:00Z\"}",
        ..USUAL_ROW
    },
    Row {
        claims: &[IN_5_MINUTES],
        after: 300 * SECOND,
        answer: "This token is expired",
        ..USUAL_ROW
    },
    // Setting PASETO claims.
    Row {
        claims: &[
            Claim::Audience("Cromulons"),
            Claim::NotBefore("2024-01-01T00:02:00Z"),
            Claim::Issuer("Earth Cesium-137"),
            Claim::TokenIdentifier("Planet Music - Season 988"),
        ],
        answer: "The token cannot be used before 2024-01-01T00:02:00Z",
        ..USUAL_ROW
    },
    Row {
        claims: &[
            Claim::Audience("Cromulons"),
            Claim::NotBefore("2024-01-01T00:02:00Z"),
            Claim::Issuer("Earth Cesium-137"),
            Claim::TokenIdentifier("Planet Music - Season 988"),
        ],
        after: 120 * SECOND + 1,
        answer: "{\"aud\":\"Cromulons\",\"exp\":\"2024-01-01T01:00:00Z\",\
            \"iat\":\"2024-01-01T00:00:00Z\",\"iss\":\"Earth Cesium-137\",\
            \"jti\":\"Planet Music - Season 988\",\"nbf\":\"2024-01-01T00:02:00Z\"}",
        ..USUAL_ROW
    },
    // Setting your own custom claims.
    Row {
        claims: &[
            Claim::Custom("Co-star", "\"Morty Smith\""),
            Claim::Custom("Universe", "137"),
        ],
        answer: "{\"Co-star\":\"Morty Smith\",\"Universe\":137,\
            \"exp\":\"2024-01-01T01:00:00Z\",\"iat\":\"2024-01-01T00:00:00Z\",\
            \"nbf\":\"2024-01-01T00:00:00Z\"}",
        ..USUAL_ROW
    },
    // Checking claims.
    Row {
        claims: CONTESTANT,
        checks: CONTESTANT,
        answer: CONTESTANT_JSON,
        ..USUAL_ROW
    },
    Row {
        claims: CONTESTANT,
        checks: &[SCHWIFTY, FROM_EARTH, Claim::Custom("Universe", "136")],
        answer: "Could not convert claim 'Universe' to the expected data type",
        ..USUAL_ROW
    },
];

#[test]
fn tokens_and_their_values(rt: HostRuntime) {
    check_rows(&rt, rt.alloc(), ROWS);
}

type Parser<'a> = PasetoParser<'a, V4, Local>;

// The JSON of what the parser answers, or the error's text, is the wanted one.
fn expect_read(rt: &impl Abort, alloc: Global, parser: &Parser<'_>, token: &str, wanted: &str) {
    let answer = parser.parse(token, &symmetric_key(&SECRET));
    expect_told(rt, alloc, answer, wanted, token);
}

// A default parser at the moment when tokens are built.
fn first_parser<'a>(rt: &impl Abort, alloc: Global) -> Parser<'a> {
    default_parser(rt, alloc, moment_after(rt, 0))
}

fn token_of(rt: &impl Abort, alloc: Global, claims: &[Claim<'_>]) -> String {
    Kind::V4Local.default_token(rt, alloc, moment_after(rt, 0), claims, Binding::NONE)
}

#[test]
fn a_default_parser(rt: HostRuntime) {
    let alloc = rt.alloc();
    let token = token_of(&rt, alloc, NONE);
    let mut parser = first_parser(&rt, alloc);
    expect_read(&rt, alloc, &parser, token.as_str(), EARLY);
    parser.set_now(moment_after(&rt, SECOND));
    expect_read(&rt, alloc, &parser, token.as_str(), USUAL);
}

#[test]
fn a_parser_that_checks_nothing(rt: HostRuntime) {
    let alloc = rt.alloc();
    let token = token_of(&rt, alloc, NONE);
    let parser = Parser::new(alloc);
    expect_read(&rt, alloc, &parser, token.as_str(), USUAL);
}

// A token with a footer and an implicit assertion that never expires.
fn asserted_token(rt: &impl Abort, alloc: Global) -> String {
    let mut builder: PasetoBuilder<'_, V4, Local> = default_builder(rt, alloc, moment_after(rt, 0));
    let expiration = ExpirationClaim::try_from_str(alloc, "2024-01-01T00:05:00Z");
    builder
        .set_claim(&expiration.expect(rt, "an instant"))
        .expect(rt, "a claim")
        .set_no_expiration_danger_acknowledged()
        .expect(rt, "memory")
        .set_footer(Footer::from(FOOTER))
        .set_implicit_assertion(ImplicitAssertion::from(ASSERTION));
    sealed(builder).expect(rt, "a token")
}

// Tokens that never expire.
#[test]
fn a_token_with_an_implicit_assertion(rt: HostRuntime) {
    let alloc = rt.alloc();
    let token = asserted_token(&rt, alloc);
    let mut parser = first_parser(&rt, alloc);
    parser
        .set_now(moment_after(&rt, SECOND))
        .set_footer(Footer::from(FOOTER));
    let refusal = "A paseto cipher error occurred";
    expect_read(&rt, alloc, &parser, token.as_str(), refusal);
    parser.set_implicit_assertion(ImplicitAssertion::from(ASSERTION));
    let wanted = "{\"iat\":\"2024-01-01T00:00:00Z\",\"nbf\":\"2024-01-01T00:00:00Z\"}";
    expect_read(&rt, alloc, &parser, token.as_str(), wanted);
}

// A parser of contestants from a universe whose number is a prime.
fn parser_of_primes<'a>(rt: &impl Abort, alloc: Global) -> Parser<'a> {
    let mut parser = first_parser(rt, alloc);
    let universe = CustomClaim::try_from_key(alloc, "Universe").expect(rt, "a claim");
    parser
        .set_now(moment_after(rt, SECOND))
        .check_claim(&SubjectClaim::from("Get schwifty"))
        .expect(rt, "a check")
        .validate_claim(&universe, Box::new(alloc, Primes).expect(rt, "memory"))
        .expect(rt, "a validator");
    parser
}

#[test]
fn custom_validation(rt: HostRuntime) {
    let alloc = rt.alloc();
    let parser = parser_of_primes(&rt, alloc);
    'rows: for (universe, answer) in [
        ("137", CONTESTANT_JSON),
        ("136", "The claim 'Universe' failed custom validation"),
    ] {
        let claims = [SCHWIFTY, FROM_EARTH, Claim::Custom("Universe", universe)];
        let token = token_of(&rt, alloc, &claims);
        expect_read(&rt, alloc, &parser, token.as_str(), answer);
    }
}
