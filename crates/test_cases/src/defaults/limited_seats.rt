//! The example of `validators`, which stands in tests, since it hands a boxed validator out.

use crate::defaults::at_most::limit_seats;
use crate::expect::expect_that;
use crate::kinds::{SECRET, symmetric_key};
use rusty_paseto::prelude::*;
use std::alloc::Global;
use std::process::Abort;
use test_toys::generators::Zeros;

// A token of nine seats.
fn nine_seats(rt: &impl Abort, alloc: Global) -> String {
    let seats = CustomClaim::try_from_str(alloc, "seats", 9u64).expect(rt, "a claim");
    let mut builder = GenericBuilder::<V4, Local>::new(alloc);
    builder.put_claim(&seats).expect(rt, "nine seats");
    let token = builder.try_encrypt(&mut Zeros, &symmetric_key(&SECRET));
    drop(builder);
    token.expect(rt, "a token")
}

fn is_admitted(parser: &GenericParser<'_, V4, Local>, token: &str) -> bool {
    let answer = parser.parse(token, &symmetric_key(&SECRET));
    let is_admitted = answer.is_ok();
    drop(answer);
    is_admitted
}

#[test]
fn nine_seats_are_refused(rt: HostRuntime) {
    let token = nine_seats(&rt, rt.alloc());
    let mut parser = GenericParser::<V4, Local>::new(rt.alloc());
    expect_that(&rt, is_admitted(&parser, token.as_str()), "no limit");
    expect_that(&rt, limit_seats(rt.alloc(), &mut parser).is_ok(), "eight");
    expect_that(&rt, !is_admitted(&parser, token.as_str()), "eight seats");
}
