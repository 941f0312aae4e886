//! The versions by their numbers, as C names them.

ghost use Rattle.std.specs.Prelude.{◌≡◌, IfSome};
ghost use Rattle.bench_calls.specs.Versions.{number_of};

use rusty_paseto_paserk::PaserkVersion;

/// The version of a number.
pub(crate) fn version_of(number: u32) -> Option<PaserkVersion>
    ensures { IfSome result (λ version. number ≡ number_of version) }
{
    match number {
        1 => Some(PaserkVersion::V1),
        2 => Some(PaserkVersion::V2),
        3 => Some(PaserkVersion::V3),
        4 => Some(PaserkVersion::V4),
        _ => None,
    }
}
