//! What reads tokens.

ghost use Rattle.std.specs.Prelude.{◌≡◌, ℕ, List, is_some, true};
ghost use Rattle.rusty_paseto_core.specs.Context.{assertion_of, footer_of};
ghost use Rattle.rusty_paseto_core.specs.Reading.{Reading};
ghost use Rattle.paseto_keys.specs.AnyKey.{reads_tokens};
ghost use Rattle.paseto_keys.specs.Tokens.{IsUse, Reads};

use crate::error::KeyError;
use crate::token_key::TokenKey;
use rusty_paseto_core::{Footer, ImplicitAssertion};
use rusty_paseto_paserk::PaserkType;
use std::alloc::Global;

/// What reads tokens, whatever their version and purpose: it decrypts or verifies them.
pub trait TokenReader: TokenKey {
    // How a token is read that is bound to a footer and an implicit assertion.
    ghost reading: { Self → List ℕ → List ℕ → Reading };

    /// The text of a token.
    ///
    /// The errors, of which the first is returned: `OtherType` for a private key, which reads no tokens; `NoAssertion`
    /// if an implicit assertion is given and the key's version has none; and, as `Refused` or `Memory`, the errors of
    /// `try_decrypt` or `try_verify` of `Paseto`, in the same order.
    fn read(
        &self,
        alloc: Global,
        token: &str,
        footer: Option<Footer<'_>>,
        assertion: Option<ImplicitAssertion<'_>>,
    ) -> Result<String, KeyError>
        ensures { IsUse (λ error. error) (reads_tokens (Self.type_of self.now) ≡ true)
            (Self.type_of self.now) (Self.binds self.now) (is_some assertion.entry)
            (Reads (reading self.now (footer_of footer.entry) (assertion_of assertion.entry))
            token.now) result };
}

/// Whether keys of a type read tokens: those for local tokens, and public keys.
pub(crate) fn reads_tokens(kind: PaserkType) -> bool
    ensures { result ≡ reads_tokens kind }
{
    match kind {
        PaserkType::Local | PaserkType::Public => true,
        PaserkType::Secret => false,
    }
}
