//! What writes tokens.

ghost use Rattle.std.specs.Prelude.{◌≡◌, ℕ, IfErr, IfOk, List, Ok, is_some, length, true};
ghost use Rattle.rusty_paseto_core.specs.Context.{assertion_of, footer_of};
ghost use Rattle.paseto_keys.specs.AnyKey.{writes_tokens};
ghost use Rattle.paseto_keys.specs.Drawing.{IsDraw, IsDrawFault};
ghost use Rattle.paseto_keys.specs.Tokens.{IsLength, IsUse, Writes};
ghost use Rattle.paseto_keys.specs.Writing.{Writing};

use crate::drawing::drawn;
use crate::error::KeyError;
use crate::token_key::TokenKey;
use rand_core::TryRng;
use rusty_paseto_core::{Footer, ImplicitAssertion};
use rusty_paseto_paserk::PaserkType;
use std::alloc::Global;

/// What writes tokens, whatever their version and purpose: it encrypts or signs texts.
pub trait TokenWriter: TokenKey {
    // How many random bytes it takes for a token.
    ghost draws: { Self → ℕ };

    // How the token of a text is written, with what was drawn, a footer and an implicit assertion.
    ghost writing: { Self → List ℕ → List ℕ → List ℕ → Writing };

    /// How many random bytes `write` takes. They must be drawn anew for each token, as `draw` does.
    fn draws(&self) -> usize
        ensures { result ≡ draws self.now };

    /// The token of a text, with random bytes that were drawn for it.
    ///
    /// The errors, of which the first is returned: `OtherType` for a public key, which writes no tokens; `NoAssertion`
    /// if an implicit assertion is given and the key's version has none; `OtherLength` if `drawn` does not have as many
    /// bytes as `draws` says; and, as `Refused` or `Memory`, the errors of `try_encrypt` or `try_sign` of `Paseto`.
    fn write(
        &self,
        alloc: Global,
        drawn: &[u8],
        text: &str,
        footer: Option<Footer<'_>>,
        assertion: Option<ImplicitAssertion<'_>>,
    ) -> Result<String, KeyError>
        ensures { IsUse (λ error. error) (writes_tokens (Self.type_of self.now) ≡ true)
            (Self.type_of self.now) (Self.binds self.now) (is_some assertion.entry)
            (Writes (draws self.now) drawn.now
            (writing self.now drawn.now (footer_of footer.entry) (assertion_of assertion.entry))
            (is_some footer.entry) text.now) result };

    /// As many random bytes as `write` takes for a token, from a generator, which is not called if it takes none.
    ///
    /// `Random` is returned if and only if the generator fails, and otherwise it fails only with `Memory`.
    final fn draw<G: TryRng>(&self, alloc: Global, generator: &mut G) -> Result<Vec<u8>, KeyError>
        ensures ok { IfOk result (λ bytes. IsDraw (draws self.now)
            (λ given. G.may_fill generator.old given generator.new)
            (generator.new ≡ generator.old) bytes.items) }
        ensures err { IfErr result (IsDrawFault G.Error (draws self.now)) }
    {
        drawn(alloc, generator, self.draws())
    }
}

/// Whether keys of a type write tokens: those for local tokens, and private keys.
pub(crate) fn writes_tokens(kind: PaserkType) -> bool
    ensures { result ≡ writes_tokens kind }
{
    match kind {
        PaserkType::Local | PaserkType::Secret => true,
        PaserkType::Public => false,
    }
}

/// Whether as many bytes were drawn as are taken: otherwise `OtherLength`.
pub(crate) fn check_length(drawn: &[u8], takes: usize) -> Result<(), KeyError>
    ensures { IsLength takes (length drawn.now) (λ answer. answer ≡ Ok tt) result }
{
    if drawn.len() != takes {
        return Err(KeyError::OtherLength(takes));
    }
    Ok(())
}
