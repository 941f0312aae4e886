//! What C asks of a token beside its claims.

ghost use Rattle.std.specs.Prelude.{◌≡◌, MatchResult, None, Some};
ghost use Rattle.paseto_calls.specs.Admit.{options_fault};
ghost use Rattle.paseto_calls.specs.Parse.{limit_of};

use crate::refusal::Refusal;

/// The size of the options of this version.
const SIZE: usize = 48;

/// Further checks of a token beside the expected claims: `struct paseto_options` of `c/paseto.h`.
#[repr(C)]
#[derive(Clone, Copy)]
pub struct AdmitOptions<'a> {
    /// The size of the struct, by which versions of the library tell its fields.
    pub size: usize,
    /// By how many seconds the clocks of issuer and reader may differ.
    pub leeway: u32,
    /// How many bytes a token may have, or 0 for any number.
    pub longest: usize,
    /// How many bytes a footer may have, or 0 for any number.
    pub longest_footer: usize,
    /// The names of required claims, as a JSON array of strings, or empty for none.
    pub required: &'a [u8],
}

impl AdmitOptions<'_> {
    /// Whether the options are those of this version, or else `InvalidOptions`.
    pub(crate) fn check(&self) -> Result<(), Refusal>
        ensures { MatchResult result (λ _. options_fault self.now ≡ None)
            (λ refusal. options_fault self.now ≡ Some refusal) }
    {
        if self.size != SIZE {
            return Err(Refusal::InvalidOptions);
        }
        Ok(())
    }
}

/// The limit of so many bytes, where 0 is none.
pub(crate) fn limit_of(bytes: usize) -> Option<usize>
    ensures { result ≡ limit_of bytes }
{
    if bytes == 0 {
        return None;
    }
    Some(bytes)
}
