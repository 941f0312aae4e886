//! The command `keygen`.

ghost use Rattle.std.specs.Prelude.{◌≡◌};
ghost use Rattle.paseto_tasks.specs.Keygen.{IsGenerated};

use crate::arguments::Kind;
use crate::error::ProgramError;
use paseto_keys::AnyKey;
use rand_core::TryRng;
use std::alloc::Global;

/// Generates a new key of a kind: for local tokens, or the private half of a pair.
///
/// If an allocation fails, this returns `Memory`; if the generator fails, `Random`. For a pair of
/// version 3, bytes that are not a private key of P-384 are refused as `NotPrivate`; a
/// good generator returns such bytes less than once in 2^189 times.
pub fn keygen<G: TryRng>(
    alloc: Global,
    kind: Kind,
    generator: &mut G,
) -> Result<AnyKey, ProgramError>
    ensures { IsGenerated kind (λ drawn. G.may_fill generator.old drawn generator.new) G.Error
        (generator.new ≡ generator.old) result }
{
    match AnyKey::generate(alloc, kind.key_type(), kind.version(), generator) {
        Ok(key) => Ok(key),
        Err(error) => Err(ProgramError::from(error)),
    }
}
