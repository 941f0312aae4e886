//! Moments and their texts.

ghost use Rattle.std.specs.Prelude.{◌≡◌, ◌++◌, MatchBool, IfOk, codes, string_bytes};
ghost use Rattle.jiff.specs.Names.{iso_datetime_text};
ghost use Rattle.rusty_paseto_claims.specs.Moment.{HasShortYear, IsCivil, IsMomentText};

use jiff::Timestamp;
use jiff::civil::DateTime;
use jiff::tz::Offset;
use std::alloc::{AllocError, Global};

/// How many bytes the text of a moment has at most, in the years that RFC 3339 has: a fraction has nine digits at most.
const LONGEST: usize = 30;

/// Whether RFC 3339 has a text for the moment, that is, whether its year in UTC is from 0 to 9999. Does not allocate.
///
/// Source: RFC 3339, section 5.6.
pub fn has_short_year(moment: Timestamp) -> bool
    ensures { MatchBool result (HasShortYear moment.nanosecond) (¬ HasShortYear moment.nanosecond) }
{
    if civil(moment).year() < 0 {
        return false;
    }
    true
}

// The date and time of the moment in UTC.
fn civil(moment: Timestamp) -> DateTime
    ensures { IsCivil moment.nanosecond result }
{
    Offset::UTC.to_datetime(moment)
}

/// The text of a moment, `2026-11-25T12:00:00Z`: its date and time in UTC, the fraction of the second if there is one,
/// up to its last digit that is not zero, and `Z`. A year before 0 has a sign and six digits, as `jiff` reads it.
///
/// Source: RFC 3339, section 5.6.
pub fn moment_text(alloc: Global, moment: Timestamp) -> Result<String, AllocError>
    ensures { IfOk result (λ text. IsMomentText moment.nanosecond (string_bytes text)) }
{
    text_in_utc(alloc, civil(moment))
}

// The date and time, and `Z`.
fn text_in_utc(alloc: Global, civil: DateTime) -> Result<String, AllocError>
    ensures { IfOk result (λ text. string_bytes text ≡ iso_datetime_text civil ++ codes "Z") }
{
    let mut text = String::with_capacity(alloc, LONGEST)?;
    write!(text, "{civil}Z")?;
    Ok(text)
}
