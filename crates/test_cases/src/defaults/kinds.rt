//! What default builders and parsers of every kind of token answer.

ghost use Rattle.rusty_paseto.specs.Moment.{FitsDefault};

use crate::defaults::claims::{Claim, check, set};
use crate::kinds::{Binding, Kind, SECRET, symmetric_key};
use jiff::Timestamp;
use rusty_paseto::prelude::{
    DefaultLocalVersion, Footer, GenericBuilderError, GenericParserError, ImplicitAssertion,
    ImplicitAssertionCapable, Local, PasetoBuilder, PasetoParser, Public, PurposeTrait, Signs, V1,
    V2, V3, V4, Verifies, VersionTrait, fits_default,
};
use serde_json::Value;
use std::alloc::Global;
use std::process::Abort;
use test_toys::ToyBox;
use test_toys::generators::Zeros;
use test_toys::keys::{Keys, ToyVersion};

/// What a default builder answers.
pub(crate) type Token = Result<String, GenericBuilderError>;

/// What a default parser answers.
pub(crate) type Answer = Result<Value, GenericParserError>;

/// The moment so many nanoseconds after the first of 2024.
pub(crate) fn moment_after(rt: &impl Abort, nanoseconds: i128) -> Timestamp {
    let first = Timestamp::from_second(1_704_067_200).expect(rt, "a moment");
    let later = first.as_nanosecond().wrapping_add(nanoseconds);
    Timestamp::from_nanosecond(later).expect(rt, "a later moment")
}

/// A default builder that begins at the moment.
pub(crate) fn default_builder<'a, V: VersionTrait, P: PurposeTrait>(
    rt: &impl Abort,
    alloc: Global,
    now: Timestamp,
) -> PasetoBuilder<'a, V, P> {
    if !fits_default(now) {
        panic!(rt; "no default builder begins at the moment");
    }
    PasetoBuilder::default(alloc, now).expect(rt, "a default builder")
}

fn builder_of<'a, V: VersionTrait, P: PurposeTrait>(
    rt: &impl Abort,
    alloc: Global,
    now: Timestamp,
    claims: &[Claim<'_>],
    binding: Binding<'a>,
) -> PasetoBuilder<'a, V, P> {
    let mut builder = default_builder::<V, P>(rt, alloc, now);
    'claims: for claim in claims {
        set(rt, &mut builder, alloc, *claim);
    }
    if let Some(footer) = binding.footer {
        builder.set_footer(Footer::from(footer));
    }
    builder
}

fn asserting_builder_of<'a, V: ImplicitAssertionCapable, P: PurposeTrait>(
    rt: &impl Abort,
    alloc: Global,
    now: Timestamp,
    claims: &[Claim<'_>],
    binding: Binding<'a>,
) -> PasetoBuilder<'a, V, P> {
    let mut builder = builder_of::<V, P>(rt, alloc, now, claims, binding);
    if let Some(assertion) = binding.assertion {
        builder.set_implicit_assertion(ImplicitAssertion::from(assertion));
    }
    builder
}

/// What a default builder builds under the secret's key and a nonce of zeros.
pub(crate) fn sealed<V: DefaultLocalVersion>(builder: PasetoBuilder<'_, V, Local>) -> Token {
    let token = builder.build(&mut Zeros, &symmetric_key(&SECRET));
    drop(builder);
    token
}

fn boxed(builder: PasetoBuilder<'_, V2, Local>) -> Token {
    let token = builder.build(&ToyBox, &mut Zeros, &symmetric_key(&SECRET));
    drop(builder);
    token
}

fn signed<V: ToyVersion + Signs<V::Toy>>(builder: PasetoBuilder<'_, V, Public>) -> Token {
    let keys = Keys::of(&SECRET);
    let token = builder.build(&mut V::toy(), &V::private_key(&keys));
    drop(builder);
    token
}

/// A default parser at the moment.
pub(crate) fn default_parser<'a, V: VersionTrait, P: PurposeTrait>(
    rt: &impl Abort,
    alloc: Global,
    now: Timestamp,
) -> PasetoParser<'a, V, P> {
    PasetoParser::default(alloc, now).expect(rt, "a default parser")
}

fn parser_of<'a, V: VersionTrait, P: PurposeTrait>(
    rt: &impl Abort,
    alloc: Global,
    now: Timestamp,
    claims: &[Claim<'_>],
    binding: Binding<'a>,
) -> PasetoParser<'a, V, P> {
    let mut parser = default_parser::<V, P>(rt, alloc, now);
    'claims: for claim in claims {
        check(rt, &mut parser, alloc, *claim);
    }
    if let Some(footer) = binding.footer {
        parser.set_footer(Footer::from(footer));
    }
    parser
}

fn asserting_parser_of<'a, V: ImplicitAssertionCapable, P: PurposeTrait>(
    rt: &impl Abort,
    alloc: Global,
    now: Timestamp,
    claims: &[Claim<'_>],
    binding: Binding<'a>,
) -> PasetoParser<'a, V, P> {
    let mut parser = parser_of::<V, P>(rt, alloc, now, claims, binding);
    if let Some(assertion) = binding.assertion {
        parser.set_implicit_assertion(ImplicitAssertion::from(assertion));
    }
    parser
}

fn opened<V: DefaultLocalVersion>(parser: PasetoParser<'_, V, Local>, token: &str) -> Answer {
    parser.parse(token, &symmetric_key(&SECRET))
}

fn unboxed(parser: PasetoParser<'_, V2, Local>, token: &str) -> Answer {
    parser.parse(&ToyBox, token, &symmetric_key(&SECRET))
}

fn verified<V: ToyVersion + Verifies<V::Toy>>(
    rt: &impl Abort,
    parser: PasetoParser<'_, V, Public>,
    token: &str,
) -> Answer {
    let keys = Keys::of(&SECRET);
    let key = V::public_key(&keys).expect(rt, "a key");
    parser.parse(&V::toy(), token, &key)
}

impl Kind {
    /// What a default builder that begins at the moment, and sets the claims, builds under the secret's keys and a
    /// nonce of zeros.
    pub(crate) fn build_default(
        self,
        rt: &impl Abort,
        alloc: Global,
        now: Timestamp,
        claims: &[Claim<'_>],
        binding: Binding<'_>,
    ) -> Token {
        match self {
            Kind::V1Local => sealed::<V1>(builder_of(rt, alloc, now, claims, binding)),
            Kind::V2Local => boxed(builder_of(rt, alloc, now, claims, binding)),
            Kind::V3Local => sealed::<V3>(asserting_builder_of(rt, alloc, now, claims, binding)),
            Kind::V4Local => sealed::<V4>(asserting_builder_of(rt, alloc, now, claims, binding)),
            Kind::V1Public => signed::<V1>(builder_of(rt, alloc, now, claims, binding)),
            Kind::V2Public => signed::<V2>(builder_of(rt, alloc, now, claims, binding)),
            Kind::V3Public => signed::<V3>(asserting_builder_of(rt, alloc, now, claims, binding)),
            Kind::V4Public => signed::<V4>(asserting_builder_of(rt, alloc, now, claims, binding)),
        }
    }

    /// The token that such a builder builds.
    pub(crate) fn default_token(
        self,
        rt: &impl Abort,
        alloc: Global,
        now: Timestamp,
        claims: &[Claim<'_>],
        binding: Binding<'_>,
    ) -> String {
        self.build_default(rt, alloc, now, claims, binding)
            .expect(rt, "a token")
    }

    /// What a default parser at the moment, which checks the claims, answers for a token under the secret's keys.
    pub(crate) fn parse_default(
        self,
        rt: &impl Abort,
        alloc: Global,
        token: &str,
        now: Timestamp,
        claims: &[Claim<'_>],
        binding: Binding<'_>,
    ) -> Answer {
        match self {
            Kind::V1Local => opened::<V1>(parser_of(rt, alloc, now, claims, binding), token),
            Kind::V2Local => unboxed(parser_of(rt, alloc, now, claims, binding), token),
            Kind::V3Local => opened::<V3>(
                asserting_parser_of(rt, alloc, now, claims, binding),
                token,
            ),
            Kind::V4Local => opened::<V4>(
                asserting_parser_of(rt, alloc, now, claims, binding),
                token,
            ),
            Kind::V1Public => verified::<V1>(rt, parser_of(rt, alloc, now, claims, binding), token),
            Kind::V2Public => verified::<V2>(rt, parser_of(rt, alloc, now, claims, binding), token),
            Kind::V3Public => verified::<V3>(
                rt,
                asserting_parser_of(rt, alloc, now, claims, binding),
                token,
            ),
            Kind::V4Public => verified::<V4>(
                rt,
                asserting_parser_of(rt, alloc, now, claims, binding),
                token,
            ),
        }
    }
}
