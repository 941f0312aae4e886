//! Many tokens, each damaged in one place, of which none is read.

use crate::builders::maps::Numbers;
use crate::expect::expect_that;
use crate::kinds::{Binding, KINDS};
use std::alloc::{AllocError, Global};
use std::process::Abort;

// Another letter than this one.
fn other_than(letter: char, numbers: &mut Numbers) -> char {
    let other = match numbers.next() % 4 {
        0 => 'A',
        1 => '_',
        2 => '.',
        _ => '=',
    };
    if other == letter { 'z' } else { other }
}

// The token with another letter in one place.
fn damaged(rt: &impl Abort, alloc: Global, token: &str, numbers: &mut Numbers) -> String {
    let place = numbers.next() as usize % token.len().max(1);
    let mut text = String::new(alloc);
    'letters: for (index, letter) in token.char_indices() {
        if index == place {
            text.push(other_than(letter, numbers)).expect(rt, "memory");
        } else {
            text.push(letter).expect(rt, "memory");
        }
    }
    text
}

// A text of up to sixteen letters.
fn text_of(rt: &impl Abort, alloc: Global, numbers: &mut Numbers) -> String {
    let mut text = String::new(alloc);
    'letters: for _ in 0..numbers.next() % 17 {
        text.push('x').expect(rt, "memory");
    }
    text
}

#[test]
fn none_is_read(rt: HostRuntime) {
    let alloc = rt.alloc();
    let mut numbers = Numbers::of_seed(3);
    'tokens: for index in 0..800u16 {
        let text = text_of(&rt, alloc, &mut numbers);
        let footer = if index % 2 == 0 { None } else { Some("key-1") };
        let binding = Binding::of_footer(footer);
        'kinds: for &kind in KINDS {
            let token = kind.token(&rt, alloc, text.as_str(), binding);
            let token = damaged(&rt, alloc, token.as_str(), &mut numbers);
            let answer = kind.read(alloc, token.as_str(), binding);
            let is_refused = answer.is_err();
            drop(answer);
            expect_that(&rt, is_refused, &(kind, token));
        }
    }
}
