//! A ticket office, as a user of the library would write it: it issues tickets and sessions, admits them, rotates its
//! keys, ends a session, and refuses tokens that have expired, are under a retired or another key, are too long, or
//! were signed by another key.
#![tactic(auto)]

mod boxed;
mod keyed_hash_scheme;
mod sessions;
mod signed;
mod ticket;

use anyhow::Result;
use jiff::Timestamp;
use keyed_hash_scheme::KeyedHashScheme;
use paseto_ed25519::Ed25519;
use rand::rngs::SysRng;
use rusty_paseto::prelude::{
    GenericParserError, Key, KeyPair, Local, OwnedPublicKeyRing, PasetoAsymmetricPrivateKey,
    PasetoAsymmetricPublicKey, PasetoParser, PasetoSymmetricKey, Public, V2, V4,
};
use serde_json::Value;
use sessions::Sessions;

/// A token whose footer has 66 bytes.
const LONG_FOOTER: &str = "v4.local.AAAA.\
    eyJraWQiOiJ4eHh4eHh4eHh4eHh4eHh4eHh4eHh4eHh4eHh4eHh4eHh4eHh4eHh4eHh4eHh4eHh4eHh4eHh4eCJ9";

fn main(rt: HostRuntime) -> Result<()> {
    let now = Timestamp::now(&rt)?;
    let soon = Timestamp::from_second(now.as_second().saturating_add(60))?;
    show_local(&rt, now, soon)?;
    show_sessions(&rt, now)?;
    show_boxed(&rt, now, soon)?;
    show_signed(&rt, now, soon)?;
    show_public_keys(&rt, now, soon)?;
    show_own_scheme(&rt, now, soon)
}

/// An encrypted ticket is admitted soon, and refused tomorrow.
fn show_local(rt: &HostRuntime, now: Timestamp, soon: Timestamp) -> Result<()> {
    let alloc = rt.alloc();
    let mut rng = SysRng::new(rt);
    let key = PasetoSymmetricKey::<V4, Local>::try_new_random(&mut rng)?;
    let token = ticket::issue(alloc, now, &mut rng, &key)?;

    let seats = ticket::seats(&ticket::admit(alloc, soon, token.as_str(), &key)?);
    println!(rt; "admitted: {seats} seats")?;
    let tomorrow = a_day_after(now)?;
    show_tomorrow(rt, ticket::admit(alloc, tomorrow, token.as_str(), &key))
}

/// The error for a ticket that has expired.
fn show_tomorrow(rt: &HostRuntime, answer: Result<Value, GenericParserError>) -> Result<()> {
    match answer {
        Ok(_) => println!(rt; "admitted tomorrow")?,
        Err(refusal) => println!(rt; "refused tomorrow: {refusal}")?,
    }
    Ok(())
}

/// Whom the claims of a ticket that is admitted are about.
fn show_admitted(
    rt: &HostRuntime,
    admitted: &str,
    answer: Result<Value, GenericParserError>,
) -> Result<()> {
    let claims = answer?;
    println!(rt; "{admitted}: {}", signed::subject(&claims))?;
    Ok(())
}

fn a_day_after(now: Timestamp) -> Result<Timestamp> {
    Ok(Timestamp::from_second(now.as_second().saturating_add(86_400))?)
}

/// Sessions are admitted under the newest key and the one before it, until that is retired.
fn show_sessions(rt: &HostRuntime, now: Timestamp) -> Result<()> {
    let (alloc, mut rng) = (rt.alloc(), SysRng::new(rt));
    let october = PasetoSymmetricKey::<V4, Local>::try_new_random(&mut rng)?;
    let november = PasetoSymmetricKey::<V4, Local>::try_new_random(&mut rng)?;
    let mut sessions = Sessions::new(alloc, "2026-10", october)?;
    let old = sessions.issue(now, &mut rng, "Ada", 2)?;
    sessions.rotate("2026-11", november)?;
    let new = sessions.issue(now, &mut rng, "Grace", 4)?;
    let crowded = sessions.issue(now, &mut rng, "Alan", 9)?;
    let tokens = [old.as_str(), new.as_str(), crowded.as_str()];
    show_service(rt, &mut sessions, now, tokens)
}

/// The sessions of a service, under an old key and a new one: the second is ended, and the old key is retired.
fn show_service(
    rt: &HostRuntime,
    sessions: &mut Sessions,
    now: Timestamp,
    tokens: [&str; 3],
) -> Result<()> {
    let [old, new, crowded] = tokens;
    show_session(rt, sessions, now, old)?;
    show_session(rt, sessions, now, new)?;
    show_session(rt, sessions, now, crowded)?;
    show_session(rt, sessions, a_day_after(now)?, new)?;
    end_session(sessions, now, new)?;
    show_session(rt, sessions, now, new)?;
    println!(rt; "retired: {}", sessions.retire("2026-10"))?;
    show_session(rt, sessions, now, old)?;
    show_session(rt, sessions, now, "v4.local.AAAA.e30")?;
    show_session(rt, sessions, now, LONG_FOOTER)
}

/// Ends the session of a token, as its user asks.
fn end_session(sessions: &mut Sessions, now: Timestamp, token: &str) -> Result<()> {
    if let Ok(session) = sessions.admit(now, token) {
        sessions.end(session.jti.as_str())?;
    }
    Ok(())
}

/// The session of a token, or the error and the status that the service would answer over HTTP.
fn show_session(rt: &HostRuntime, sessions: &Sessions, now: Timestamp, token: &str) -> Result<()> {
    match sessions.admit(now, token) {
        Ok(session) => println!(rt; "200: {} with {} seats", session.sub, session.seats)?,
        Err(refusal) => println!(rt; "{}: {refusal}", sessions::status(&refusal))?,
    }
    Ok(())
}

/// A ticket of version 2 is admitted under its key, and refused under another.
fn show_boxed(rt: &HostRuntime, now: Timestamp, soon: Timestamp) -> Result<()> {
    let alloc = rt.alloc();
    let mut rng = SysRng::new(rt);
    let key = PasetoSymmetricKey::<V2, Local>::try_new_random(&mut rng)?;
    let token = boxed::issue(alloc, now, &mut rng, &key, "Ada")?;

    let answer = boxed::admit(alloc, soon, token.as_str(), &key);
    show_admitted(rt, "admitted in version 2", answer)?;

    let other = PasetoSymmetricKey::<V2, Local>::from(Key::<32>::default());
    show_refusal(rt, boxed::admit(alloc, soon, token.as_str(), &other))
}

/// The error for a ticket under another key.
fn show_refusal(rt: &HostRuntime, answer: Result<Value, GenericParserError>) -> Result<()> {
    match answer {
        Ok(_) => println!(rt; "admitted under another key")?,
        Err(refusal) => println!(rt; "refused under another key: {}", refusal.explained())?,
    }
    Ok(())
}

/// A signed ticket is admitted under the public key of the key that signed it, and refused under another.
fn show_signed(rt: &HostRuntime, now: Timestamp, soon: Timestamp) -> Result<()> {
    let alloc = rt.alloc();
    let mut rng = SysRng::new(rt);
    let pair: KeyPair<V4> = Ed25519::try_new_pair(alloc, &mut rng)?;
    let token = signed::issue(alloc, now, &mut Ed25519, &pair.private(), "Ada")?;

    let answer = signed::admit(alloc, soon, &Ed25519, token.as_str(), &pair.public());
    show_admitted(rt, "admitted", answer)?;

    let other: KeyPair<V4> = Ed25519::try_new_pair(alloc, &mut rng)?;
    show_refusal(
        rt,
        signed::admit(alloc, soon, &Ed25519, token.as_str(), &other.public()),
    )
}

/// Public keys that change with the month: the footer of a signed ticket names its key in the ring, which owns it.
fn show_public_keys(rt: &HostRuntime, now: Timestamp, soon: Timestamp) -> Result<()> {
    let alloc = rt.alloc();
    let pair: KeyPair<V4> = Ed25519::try_new_pair(alloc, &mut SysRng::new(rt))?;
    let (private, public) = pair.into_keys();
    let token = signed::issue_under(alloc, now, &mut Ed25519, "2026-11", &private.lend())?;

    let mut ring = OwnedPublicKeyRing::<V4>::new(alloc);
    ring.add("2026-11", public)?;
    show_ring(rt, &ring, soon, token.as_str())?;
    drop(ring.remove("2026-11"));
    show_ring(rt, &ring, soon, token.as_str())
}

/// Which key of the ring a signed ticket is admitted under.
fn show_ring(
    rt: &HostRuntime,
    ring: &OwnedPublicKeyRing<V4>,
    soon: Timestamp,
    token: &str,
) -> Result<()> {
    let parser = PasetoParser::<V4, Public>::default(rt.alloc(), soon)?;
    match ring.parse(&Ed25519, &parser, token) {
        Ok((id, _claims)) => println!(rt; "admitted under {id}")?,
        Err(refusal) => println!(rt; "refused: {refusal}")?,
    }
    Ok(())
}

/// The program's own scheme is used in the same way.
fn show_own_scheme(rt: &HostRuntime, now: Timestamp, soon: Timestamp) -> Result<()> {
    let alloc = rt.alloc();
    let mut scheme = KeyedHashScheme;
    let private = Key::<64>::try_new_random(&mut SysRng::new(rt))?;
    let private_key = PasetoAsymmetricPrivateKey::<V4, Public>::from(&private);
    let token = signed::issue(alloc, now, &mut scheme, &private_key, "Ada")?;

    let public = Key::<32>::from_slice(&private.as_bytes()[32..]);
    let public_key = PasetoAsymmetricPublicKey::<V4, Public>::from(&public);
    let answer = signed::admit(alloc, soon, &scheme, token.as_str(), &public_key);
    show_admitted(rt, "admitted under a scheme of our own", answer)
}
