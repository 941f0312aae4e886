//! What parsers of every kind of token answer.

use crate::expect::{expect_same, shown};
use crate::kinds::{Binding, Kind, SECRET, symmetric_key};
use crate::parsers::steps::{Step, add};
use rusty_paseto_core::{
    Footer, ImplicitAssertion, ImplicitAssertionCapable, Local, Public, PurposeTrait, V1, V2, V3,
    V4, Verifies, VersionTrait,
};
use rusty_paseto_generic::{GenericLocalVersion, GenericParser, GenericParserError};
use serde_json::Value;
use std::alloc::Global;
use std::process::Abort;
use test_toys::ToyBox;
use test_toys::keys::{Keys, ToyVersion};

/// What a parser answers.
pub(crate) type Answer = Result<Value, GenericParserError>;

/// What a parser expects: the checks, the footer and the implicit assertion, and how long a token may be.
#[derive(Clone, Copy)]
pub(crate) struct Expected<'a> {
    pub(crate) steps: &'a [Step<'a>],
    pub(crate) binding: Binding<'a>,
    pub(crate) longest: Option<usize>,
}

impl<'a> Expected<'a> {
    /// Checks, with neither a footer nor an implicit assertion.
    pub(crate) fn checks(steps: &'a [Step<'a>]) -> Self {
        Expected {
            steps,
            binding: Binding::NONE,
            longest: None,
        }
    }

    /// No checks.
    pub(crate) fn bound(binding: Binding<'a>) -> Self {
        Expected {
            steps: &[],
            binding,
            longest: None,
        }
    }

    /// A token of at most so many bytes, and nothing else.
    pub(crate) fn within(bytes: usize) -> Self {
        Expected {
            steps: &[],
            binding: Binding::NONE,
            longest: Some(bytes),
        }
    }
}

// A parser that checks, with the footer and the limit.
fn parser_of<'a, V: VersionTrait, P: PurposeTrait>(
    rt: &impl Abort,
    alloc: Global,
    expected: Expected<'a>,
) -> GenericParser<'a, V, P> {
    let mut parser = GenericParser::<V, P>::new(alloc);
    'steps: for step in expected.steps {
        add(rt, &mut parser, alloc, *step).expect(rt, "a check");
    }
    if let Some(footer) = expected.binding.footer {
        parser.set_footer(Footer::from(footer));
    }
    if let Some(bytes) = expected.longest {
        parser.set_longest(bytes);
    }
    parser
}

// The same with the implicit assertion.
fn asserting_of<'a, V: ImplicitAssertionCapable, P: PurposeTrait>(
    rt: &impl Abort,
    alloc: Global,
    expected: Expected<'a>,
) -> GenericParser<'a, V, P> {
    let mut parser = parser_of::<V, P>(rt, alloc, expected);
    if let Some(assertion) = expected.binding.assertion {
        parser.set_implicit_assertion(ImplicitAssertion::from(assertion));
    }
    parser
}

/// What an answer tells: the value as JSON, or the text of the error, the core's own where the core refused the
/// token.
pub(crate) fn told(rt: &impl Abort, alloc: Global, answer: &Answer) -> String {
    match answer {
        Ok(value) => shown(rt, alloc, value),
        Err(GenericParserError::CipherError { source }) => shown(rt, alloc, source),
        Err(error) => shown(rt, alloc, error),
    }
}

fn opened<V: GenericLocalVersion>(parser: GenericParser<'_, V, Local>, token: &str) -> Answer {
    parser.parse(token, &symmetric_key(&SECRET))
}

fn unboxed(parser: GenericParser<'_, V2, Local>, token: &str) -> Answer {
    parser.parse(&ToyBox, token, &symmetric_key(&SECRET))
}

fn verified<V: ToyVersion + Verifies<V::Toy>>(
    rt: &impl Abort,
    parser: GenericParser<'_, V, Public>,
    token: &str,
) -> Answer {
    let keys = Keys::of(&SECRET);
    let key = V::public_key(&keys).expect(rt, "a key");
    parser.parse(&V::toy(), token, &key)
}

impl Kind {
    /// What a parser answers for a token, under the secret's keys.
    pub(crate) fn parse(
        self,
        rt: &impl Abort,
        alloc: Global,
        token: &str,
        expected: Expected<'_>,
    ) -> Answer {
        match self {
            Kind::V1Local => opened::<V1>(parser_of(rt, alloc, expected), token),
            Kind::V2Local => unboxed(parser_of(rt, alloc, expected), token),
            Kind::V3Local => opened::<V3>(asserting_of(rt, alloc, expected), token),
            Kind::V4Local => opened::<V4>(asserting_of(rt, alloc, expected), token),
            Kind::V1Public => verified::<V1>(rt, parser_of(rt, alloc, expected), token),
            Kind::V2Public => verified::<V2>(rt, parser_of(rt, alloc, expected), token),
            Kind::V3Public => verified::<V3>(rt, asserting_of(rt, alloc, expected), token),
            Kind::V4Public => verified::<V4>(rt, asserting_of(rt, alloc, expected), token),
        }
    }

    /// A parser's answer for a token tells this.
    pub(crate) fn check_token(
        self,
        rt: &impl Abort,
        alloc: Global,
        token: &str,
        expected: Expected<'_>,
        wanted: &str,
    ) {
        let answer = self.parse(rt, alloc, token, expected);
        let found = told(rt, alloc, &answer);
        drop(answer);
        expect_same(rt, found.as_str(), &wanted, &self);
    }

    /// A parser's answer for a token of the payload tells this.
    pub(crate) fn check(
        self,
        rt: &impl Abort,
        alloc: Global,
        payload: &str,
        binding: Binding<'_>,
        expected: Expected<'_>,
        wanted: &str,
    ) {
        let token = self.make(alloc, payload, binding).expect(rt, "a token");
        self.check_token(rt, alloc, token.as_str(), expected, wanted);
    }
}
