//! The verifying of a token, for every version of public tokens.

ghost use Rattle.std.specs.Prelude.{◌≡◌, ◌⊎◌, IfOk, IfErr, OnOk};
ghost use Rattle.std.specs.String.{string_bytes};
ghost use Rattle.rusty_paseto_parts.specs.Error.{IsMemory};
ghost use Rattle.rusty_paseto_core.specs.Context.{bound};
ghost use Rattle.rusty_paseto_core.specs.Public.Verifying.{HasRoom, HasSignature, HoldsSigned, IsSignedFault, verification};
ghost use Rattle.rusty_paseto_core.specs.Reading.{IsAnswer};

use crate::context::Context;
use crate::public::scheme::SignatureScheme;
use crate::public::{PublicSuite, message};
use crate::reading::unframe;
use rusty_paseto_parts::{PasetoError, Public};
use std::alloc::Global;

/// The text that a token validly signs, or the first fault of verifying it.
pub(crate) fn verify<V: PublicSuite, S: SignatureScheme<SIG>, const SIG: usize>(
    alloc: Global,
    scheme: &S,
    token: &str,
    public: &[u8],
    context: &Context<'_>,
) -> Result<String, PasetoError>
    requires { SIG ≡ V.public_design.signature_length }
    ensures { IsAnswer (verification S.valid S.refused V.public_design
        (bound public.now context.now)) token.now result }
{
    let payload = unframe::<V, Public>(alloc, token, context.footer())?;
    verify_payload::<V, S, SIG>(alloc, scheme, payload, public, context)
}

// The text that a payload validly signs.
fn verify_payload<V: PublicSuite, S: SignatureScheme<SIG>, const SIG: usize>(
    alloc: Global,
    scheme: &S,
    mut payload: Vec<u8>,
    public: &[u8],
    context: &Context<'_>,
) -> Result<String, PasetoError>
    requires { SIG ≡ V.public_design.signature_length }
    ensures holds { IfOk result (λ text. HoldsSigned S.valid V.public_design
        (bound public.now context.now) payload.items (string_bytes text)) }
    ensures fault { IfErr result (λ error. IsMemory error
        ⊎ IsSignedFault S.valid S.refused V.public_design (bound public.now context.now)
        payload.items error) }
{
    check_signature::<V, S, SIG>(alloc, scheme, &payload, public, context)?;
    payload.truncate(payload.len() - SIG);
    match String::from_utf8(payload) {
        Ok(text) => Ok(text),
        Err(_) => Err(PasetoError::FromUtf8Error),
    }
}

// Asks the scheme whether a payload ends in a valid signature of what stands before it. A payload with no
// room for a signature is refused before the scheme is asked.
fn check_signature<V: PublicSuite, S: SignatureScheme<SIG>, const SIG: usize>(
    alloc: Global,
    scheme: &S,
    payload: &[u8],
    public: &[u8],
    context: &Context<'_>,
) -> Result<(), PasetoError>
    requires { SIG ≡ V.public_design.signature_length }
    ensures ok { OnOk result (HasRoom V.public_design payload.now
        × HasSignature S.valid V.public_design (bound public.now context.now) payload.now) }
    ensures fault { IfErr result (λ error. IsMemory error
        ⊎ IsSignedFault S.valid S.refused V.public_design (bound public.now context.now) payload.now
        error) }
{
    let Some((text, signature)) = payload.split_last_chunk::<SIG>() else {
        return Err(PasetoError::IncorrectSize);
    };
    let message = message::<V>(alloc, public, context, text)?;
    scheme.verify(alloc, public, message.as_bytes(), signature)
}
