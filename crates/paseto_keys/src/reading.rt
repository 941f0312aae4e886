//! Reading tokens with a key.

ghost use Rattle.std.specs.Prelude.{◌≡◌, None, false, true};
ghost use Rattle.rusty_paseto_core.specs.Context.{assertion_of, footer_of};
ghost use Rattle.rusty_paseto_core.specs.Reading.{IsAnswer};
ghost use Rattle.paseto_keys.specs.AnyKey.{parts_of, reads_tokens, takes_assertion};
ghost use Rattle.paseto_keys.specs.Reading.{reading_by};

use crate::any_key::AnyKey;
use crate::error::KeyError;
use crate::salted::Salted;
use crate::token_key::check_use;
use crate::token_reader::{TokenReader, reads_tokens};
use paseto_ed25519::Ed25519;
use paseto_p384::P384;
use paseto_xchacha20poly1305::XChaCha20Poly1305;
use rusty_paseto_core::{
    Footer, ImplicitAssertion, Local, LocalVersion, Paseto, PasetoError, V1, V2, V3, V4, Verifies,
};
use std::alloc::Global;

impl TokenReader for AnyKey {
    ghost reading = { λ key footer assertion. reading_by (parts_of key) footer assertion };

    fn read(
        &self,
        alloc: Global,
        token: &str,
        footer: Option<Footer<'_>>,
        assertion: Option<ImplicitAssertion<'_>>,
    ) -> Result<String, KeyError> {
        check_use(self, reads_tokens(self.kind()), assertion)?;
        Ok(read_token(alloc, self, token, footer, assertion)?)
    }
}

/// The text of a token under a key that reads tokens, with an assertion only where the key's version has one.
pub(crate) fn read_token(
    alloc: Global,
    key: &AnyKey,
    token: &str,
    footer: Option<Footer<'_>>,
    assertion: Option<ImplicitAssertion<'_>>,
) -> Result<String, PasetoError>
    requires reads { reads_tokens (parts_of key.now).kind ≡ true }
    requires bound { takes_assertion (parts_of key.now).version ≡ false → assertion ≡ None }
    ensures { IsAnswer (reading_by (parts_of key.now) (footer_of footer.entry)
        (assertion_of assertion.entry)) token.now result }
{
    match key {
        AnyKey::V1Local(key) => V1::open(alloc, token, key, footer, assertion),
        AnyKey::V2Local(key) => Paseto::<V2, Local>::try_decrypt(
            alloc,
            &XChaCha20Poly1305,
            token,
            key,
            footer,
        ),
        AnyKey::V3Local(key) => V3::open(alloc, token, key, footer, assertion),
        AnyKey::V4Local(key) => V4::open(alloc, token, key, footer, assertion),
        AnyKey::V1Public(key) => V1::verify(
            alloc,
            &Salted::new(&[]),
            token,
            &key.lend(),
            footer,
            assertion,
        ),
        AnyKey::V2Public(key) => V2::verify(alloc, &Ed25519, token, &key.lend(), footer, assertion),
        AnyKey::V3Public(key) => V3::verify(alloc, &P384, token, &key.lend(), footer, assertion),
        AnyKey::V4Public(key) => V4::verify(alloc, &Ed25519, token, &key.lend(), footer, assertion),
        AnyKey::V1Secret(_) | AnyKey::V2Secret(_) | AnyKey::V3Secret(_) | AnyKey::V4Secret(_) =>
            Err(PasetoError::InvalidKey),
    }
}
