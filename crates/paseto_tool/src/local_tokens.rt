//! Local tokens, with the footer and the implicit assertion of the arguments.

ghost use Rattle.std.specs.Prelude.{◌≡◌, is_some, IfOk, IfErr, string_bytes};
ghost use Rattle.rusty_paseto_parts.specs.Error.{IsMemory};
ghost use Rattle.rusty_paseto_core.specs.Local.Opening.{opening};
ghost use Rattle.rusty_paseto_core.specs.Local.Sealing.{sealing};
ghost use Rattle.rusty_paseto_core.specs.Reading.{IsAnswer};
ghost use Rattle.paseto_tool.specs.Version.{IsBound};
ghost use Rattle.paseto_tool.specs.Arguments.{given_assertion, given_footer};
ghost use Rattle.paseto_tool.specs.Seal.{binding};

use crate::arguments::Attachments;
use rusty_paseto::paseto_core::{
    Local, LocalVersion, PasetoError, PasetoNonce, PasetoSymmetricKey, Payload,
};
use std::alloc::Global;

/// Returns the token of a text. The only error is `Memory`.
pub fn seal<V: LocalVersion>(
    alloc: Global,
    key: &PasetoSymmetricKey<V, Local>,
    nonce: &PasetoNonce<'_, V, Local>,
    text: &str,
    attachments: Attachments<'_>,
) -> Result<String, PasetoError>
    requires { IsBound V.design (given_assertion attachments) }
    ensures ok { let bound = binding key.now (given_footer attachments.entry)
        (given_assertion attachments.entry) in
        IfOk result (λ token. string_bytes token
        ≡ sealing V.design bound (V.design.token_nonce nonce.now text.now)
        (is_some (given_footer attachments.entry)) text.now) }
    ensures err { IfErr result IsMemory }
{
    let Attachments {
        footer,
        implicit_assertion,
    } = attachments;
    let payload = Payload::from(text);
    V::seal(alloc, key, nonce, payload, footer, implicit_assertion)
}

/// Returns the text of a token, or the token's first fault.
pub fn open<V: LocalVersion>(
    alloc: Global,
    token: &str,
    key: &PasetoSymmetricKey<V, Local>,
    attachments: Attachments<'_>,
) -> Result<String, PasetoError>
    requires { IsBound V.design (given_assertion attachments) }
    ensures { let bound = binding key.now (given_footer attachments.entry)
        (given_assertion attachments.entry) in
        IsAnswer (opening V.design bound) token.now result }
{
    let Attachments {
        footer,
        implicit_assertion,
    } = attachments;
    V::open(alloc, token, key, footer, implicit_assertion)
}
