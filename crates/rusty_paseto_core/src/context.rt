//! What a token is bound to besides its key, its nonce and its text.

ghost use Rattle.std.specs.Prelude.{◌≡◌, ◌∷◌, [], map};
ghost use Rattle.rusty_paseto_parts.specs.Footer.{footer_text};
ghost use Rattle.rusty_paseto_parts.specs.ImplicitAssertion.{assertion_text};
ghost use Rattle.rusty_paseto_primitives.specs.Bytes.{IsBytes};
ghost use Rattle.rusty_paseto_core.specs.Context.{Context, context_of};

use rusty_paseto_parts::{Footer, ImplicitAssertion};
use std::marker::Model;

/// The footer and the implicit assertion, each borrowed from the caller.
#[derive(Drop)]
pub(crate) struct Context<'a> {
    footer: Footer<'a>,
    assertion: ImplicitAssertion<'a>,
}

impl<'a> Model for Context<'a> {
    ghost Value = { Context };

    ghost view = { λ context. record {
      footer = footer_text context.footer;
      assertion = assertion_text context.assertion;
    } };
}

impl<'a> Context<'a> {
    /// An absent footer or assertion is the empty one.
    pub(crate) fn new(footer: Option<Footer<'a>>, assertion: Option<ImplicitAssertion<'a>>) -> Self
        ensures { result ≡ context_of footer.entry assertion.entry }
    {
        Context {
            footer: footer.unwrap_or_default(),
            assertion: assertion.unwrap_or_default(),
        }
    }

    pub(crate) fn footer(&self) -> &'a [u8]
        ensures text { result.now ≡ self.now.footer }
        ensures bytes { IsBytes self.now.footer }
    {
        // `bytes` is proved of what the call answered, which needs a name for that.
        let footer = self.footer.as_bytes();
        footer
    }

    pub(crate) fn assertion(&self) -> &'a [u8]
        ensures { result.now ≡ self.now.assertion }
    {
        self.assertion.as_bytes()
    }

    /// The pieces of an encoding: three of its own, the footer and the assertion, at the shortest of their lifetimes.
    pub(crate) fn five_pieces(
        &'a self,
        first: &'a [u8],
        second: &'a [u8],
        third: &'a [u8],
    ) -> [&'a [u8]; 5]
        ensures { map (λ piece. piece.now) result
            ≡ first.now ∷ second.now ∷ third.now ∷ self.now.footer ∷ self.now.assertion ∷ [] }
    {
        [first, second, third, self.footer(), self.assertion()]
    }
}
