//! The moments at which a default builder can begin.

ghost use Rattle.std.specs.Prelude.{◌≡◌, MatchBool, IfOk, IfSome, IsErr, IsNone};
ghost use Rattle.jiff.specs.Words.{IsTimestampNanos};
ghost use Rattle.rusty_paseto.specs.Moment.{FitsDefault, HasText, hour_later, seconds_later};

use jiff::{Error, Timestamp};
use rusty_paseto_claims::has_short_year;

/// The nanoseconds of an hour.
const HOUR: i128 = 3_600_000_000_000;

/// The nanoseconds of a second.
const SECOND: i128 = 1_000_000_000;

/// Whether a default builder can be made for the moment: whether the moment, and the moment an hour later, are in the
/// years 0 to 9999 of UTC. Does not allocate.
pub fn fits_default(now: Timestamp) -> bool
    ensures { MatchBool result (FitsDefault now) (¬ FitsDefault now) }
{
    match an_hour_later(now) {
        Ok(later) => has_short_year(now) && has_short_year(later),
        Err(_) => false,
    }
}

/// The moment an hour later, if there is one.
pub(crate) fn an_hour_later(now: Timestamp) -> Result<Timestamp, Error>
    ensures ok { IfOk result (λ later. later.nanosecond ≡ hour_later now) }
    ensures err { IsErr result → ¬ IsTimestampNanos (hour_later now) }
{
    Timestamp::from_nanosecond(now.as_nanosecond() + HOUR)
}

/// The moment an hour after one that fits a default builder.
pub(crate) fn hour_after(now: Timestamp) -> Timestamp
    requires { FitsDefault now }
    ensures { result.nanosecond ≡ hour_later now }
{
    an_hour_later(now).unwrap()
}

// The moment so many seconds later, where there is one.
fn later(now: Timestamp, seconds: u32) -> Result<Timestamp, Error>
    ensures ok { IfOk result (λ later. later.nanosecond ≡ seconds_later seconds now) }
    ensures err { IsErr result → ¬ IsTimestampNanos (seconds_later seconds now) }
{
    Timestamp::from_nanosecond(now.as_nanosecond() + seconds as i128 * SECOND)
}

/// The moment so many seconds later, if there is one with a year from 0 to 9999.
pub(crate) fn seconds_after(now: Timestamp, seconds: u32) -> Option<Timestamp>
    ensures found { IfSome result (λ later. (later.nanosecond ≡ seconds_later seconds now)
        × HasText (seconds_later seconds now)) }
    ensures none { IsNone result → ¬ HasText (seconds_later seconds now) }
{
    let Ok(end) = later(now, seconds) else {
        return None;
    };
    if !has_short_year(end) {
        return None;
    }
    Some(end)
}
