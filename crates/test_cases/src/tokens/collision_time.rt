//! How long it takes to look for a collision.

use crate::expect::expect_that;
use crate::kinds::{Binding, Kind, SECRET, symmetric_key};
use rusty_paseto_core::{Local, Opening, Paseto, PasetoError, PasetoSymmetricKey, V4};
use std::alloc::{AllocError, Global};
use std::process::Abort;
use std::time::Instant;

type LocalKey = PasetoSymmetricKey<V4, Local>;

// Tokens of different texts under one nonce.
fn tokens_of(rt: &impl Abort, alloc: Global, count: u32) -> Vec<String> {
    let mut tokens = Vec::new(alloc);
    'tokens: for number in 0..count {
        let text = format!(in alloc; "{number}").expect(rt, "memory");
        tokens
            .push(Kind::V4Local.token(rt, alloc, text.as_str(), Binding::NONE))
            .expect(rt, "memory");
    }
    tokens
}

fn openings_of<'a>(
    rt: &impl Abort,
    alloc: Global,
    key: &'a LocalKey,
    tokens: &'a [String],
) -> Vec<Opening<'a, V4>> {
    let mut openings = Vec::new(alloc);
    'tokens: for token in tokens {
        openings
            .push(Opening {
                key,
                token: token.as_str(),
                footer: None,
                assertion: None,
            })
            .expect(rt, "memory");
    }
    openings
}

fn open_each(alloc: Global, key: &LocalKey, tokens: &[String]) -> Result<(), PasetoError> {
    'tokens: for token in tokens {
        let text = Paseto::<V4, Local>::try_decrypt(alloc, token.as_str(), key, None, None)?;
        drop(text);
    }
    Ok(())
}

// In one of three rounds it takes less than twice the time in which the tokens are opened one by one.
#[test]
fn under_twice_the_time_of_opening(rt: HostRuntime) {
    let alloc = rt.alloc();
    let key = symmetric_key::<V4>(&SECRET);
    let tokens = tokens_of(&rt, alloc, 7_000);
    let openings = openings_of(&rt, alloc, &key, &tokens);
    let mut is_fast = false;
    'rounds: for _ in 0..3 {
        let start = Instant::now(&rt).expect(&rt, "a moment");
        open_each(alloc, &key, &tokens).expect(&rt, "an answer");
        let opened = start.elapsed(&rt).expect(&rt, "a time");
        let start = Instant::now(&rt).expect(&rt, "a moment");
        let found = Paseto::<V4, Local>::tag_collision(alloc, &openings).expect(&rt, "an answer");
        let searched = start.elapsed(&rt).expect(&rt, "a time");
        expect_that(&rt, found.is_none(), "the answer");
        is_fast = is_fast || searched.saturating_sub(opened) < opened;
    }
    expect_that(&rt, is_fast, "7,000 tokens");
}
