//! The sessions of a service with rotating keys: issued under the newest key, admitted under each key that is not
//! retired, unless the session was ended, and refused with an HTTP status that says which side caused the error.

use anyhow::{Context, Result};
use jiff::Timestamp;
use rand_core::TryRng;
use rusty_paseto::prelude::{
    Blame, CheckSetter, CountingSetter, CustomClaim, Footer, GenericParserError, Key, KeyRing,
    KeyRingParserError, Local, PasetoBuilder, PasetoParser, PasetoSymmetricKey, SubjectClaim,
    TokenIdentifierClaim, V4, key_footer, to_section,
};
use rusty_paseto::validators::AtMost;
use serde::Deserialize;
use serde_json::Value;
use std::alloc::{AllocError, Global};
use std::collections::BTreeSet;
use thiserror::Error;

/// By how many seconds the clocks of our machines may differ.
const LEEWAY: u32 = 5;

/// How many seconds a session is valid.
const LIFETIME: u32 = 600;

/// How many seats a session may have.
const SEATS: i64 = 8;

/// How many bytes a token and its footer may have, which anybody may have written.
const LONGEST: usize = 4_096;

const LONGEST_FOOTER: usize = 64;

/// The claims of a session. Each token has another id.
#[derive(Debug, Deserialize, Drop)]
pub struct Session {
    pub jti: String,
    pub sub: String,
    pub seats: u64,
}

/// Why a token is not admitted.
#[derive(Debug, Drop, Error)]
pub enum Refusal {
    /// The ring did not open the token, or its claims are not valid at the moment, or not the expected ones.
    #[error("{0}")]
    Token(KeyRingParserError),
    /// The session was ended before its token expires.
    #[error("The session was ended")]
    Ended,
}

/// The status that the service would answer over HTTP for a refused token.
pub fn status(refusal: &Refusal) -> u16 {
    match refusal {
        Refusal::Token(source) => match source.blame() {
            Blame::Foreign | Blame::Untimely => 401,
            Blame::Unfit => 403,
            Blame::Memory => 503,
        },
        Refusal::Ended => 401,
    }
}

/// The keys of the service, of which the newest encrypts, and the ids of the sessions that were ended.
#[derive(Drop)]
pub struct Sessions {
    alloc: Global,
    keys: KeyRing<V4>,
    newest: String,
    ended: BTreeSet<String>,
}

impl Sessions {
    /// A service with its first key.
    pub fn new(alloc: Global, id: &str, key: PasetoSymmetricKey<V4, Local>) -> Result<Sessions> {
        let mut keys = KeyRing::new(alloc);
        keys.set_longest(LONGEST).set_longest_footer(LONGEST_FOOTER);
        keys.add(id, key)?;
        let newest = String::from_str(alloc, id)?;
        Ok(Sessions {
            alloc,
            keys,
            newest,
            ended: BTreeSet::new(alloc),
        })
    }

    /// Encrypts with a new key from now on. Tokens of the old keys are still admitted.
    pub fn rotate(&mut self, id: &str, key: PasetoSymmetricKey<V4, Local>) -> Result<()> {
        let newest = String::from_str(self.alloc, id)?;
        self.keys.add(id, key)?;
        self.newest = newest;
        Ok(())
    }

    /// Retires a key: its tokens are refused from now on.
    pub fn retire(&mut self, id: &str) -> bool {
        self.keys.remove(id)
    }

    /// Ends the session with this id. It is identified by its id and not by the text of its token, since a token may
    /// have two spellings. Once the token has expired, the id may be forgotten.
    pub fn end(&mut self, id: &str) -> Result<()> {
        self.ended.insert(String::from_str(self.alloc, id)?)?;
        Ok(())
    }

    /// The token of a session, which is valid for ten minutes.
    pub fn issue<R: TryRng>(
        &self,
        now: Timestamp,
        rng: &mut R,
        subject: &str,
        seats: u64,
    ) -> Result<String> {
        let newest = self.newest.as_str();
        let key = self.keys.key(newest).context("the newest key is retired")?;
        let footer = key_footer(self.alloc, newest)?;
        let id = to_section(self.alloc, Key::<16>::try_new_random(rng)?.as_bytes())?;
        let mut builder = PasetoBuilder::<V4, Local>::try_default(self.alloc, now)?;
        builder
            .set_claim(&TokenIdentifierClaim::from(id.as_str()))?
            .set_claim(&SubjectClaim::from(subject))?
            .set_claim(&CustomClaim::try_from_str(self.alloc, "seats", seats)?)?
            .set_lifetime(LIFETIME)?
            .set_footer(Footer::from(footer.as_str()));
        Ok(builder.build(rng, key)?)
    }

    /// The session of a token that is valid at the moment, unless the session was ended.
    pub fn admit(&self, now: Timestamp, token: &str) -> Result<Session, Refusal> {
        match self.parse(now, token) {
            Ok(session) if self.ended.contains(session.jti.as_str()) => Err(Refusal::Ended),
            Ok(session) => Ok(session),
            Err(source) => Err(Refusal::Token(source)),
        }
    }

    // The session of a token that is good at the moment.
    fn parse(&self, now: Timestamp, token: &str) -> Result<Session, KeyRingParserError> {
        let mut parser = PasetoParser::<V4, Local>::default(self.alloc, now)?;
        let bounded = Box::new(self.alloc, AtMost(SEATS)).map_err(AllocError::from)?;
        parser
            .validate_key("seats", bounded)?
            .require_claim("exp")?
            .require_claim("jti")?
            .set_leeway(LEEWAY);
        let (_id, claims) = self.keys.parse(&parser, token)?;
        self.session_of(claims)
    }

    // The claims as a session.
    fn session_of(&self, claims: Value) -> Result<Session, KeyRingParserError> {
        match serde_json::from_value(self.alloc, claims) {
            Ok(session) => Ok(session),
            Err(source) => Err(KeyRingParserError::from(GenericParserError::from(source))),
        }
    }
}
