//! Writing tokens with a key.

ghost use Rattle.std.specs.Prelude.{◌≡◌, false, None, is_some, length, true};
ghost use Rattle.rusty_paseto_core.specs.Context.{assertion_of, binding_of, footer_of};
ghost use Rattle.rusty_paseto_parts.specs.Payload.{payload_text};
ghost use Rattle.paseto_keys.specs.AnyKey.{writes_tokens, parts_of, takes_assertion};
ghost use Rattle.paseto_keys.specs.Writing.{IsWriteAnswer, boxing_by, drawn_length, writing_by, sealing_by, signing_by};

use crate::any_key::AnyKey;
use crate::error::KeyError;
use crate::salted::Salted;
use crate::token_key::check_use;
use crate::token_writer::{TokenWriter, check_length, writes_tokens};
use paseto_ed25519::Ed25519;
use paseto_p384::P384;
use paseto_xchacha20poly1305::XChaCha20Poly1305;
use rusty_paseto_core::{
    Footer, ImplicitAssertion, Key, Local, LocalVersion, Paseto, PasetoAsymmetricPrivateKey,
    PasetoError, PasetoNonce, PasetoSymmetricKey, Payload, Public, Signs, V1, V2, V3, V4,
};
use rusty_paseto_paserk::{PaserkType, PaserkVersion};
use std::alloc::Global;

impl TokenWriter for AnyKey {
    ghost draws = { λ key. drawn_length (parts_of key).kind (parts_of key).version };

    ghost writing = { λ key drawn footer assertion. writing_by (parts_of key) drawn footer assertion };

    fn draws(&self) -> usize {
        match (self.kind(), self.version()) {
            (PaserkType::Local, PaserkVersion::V2) => 24,
            (PaserkType::Local, _) => 32,
            (PaserkType::Secret, PaserkVersion::V1) => 48,
            _ => 0,
        }
    }

    fn write(
        &self,
        alloc: Global,
        drawn: &[u8],
        text: &str,
        footer: Option<Footer<'_>>,
        assertion: Option<ImplicitAssertion<'_>>,
    ) -> Result<String, KeyError> {
        check_use(self, writes_tokens(self.kind()), assertion)?;
        check_length(drawn, self.draws())?;
        Ok(write_token(alloc, self, drawn, text, footer, assertion)?)
    }
}

// The token of a text under a key that writes tokens, with as many drawn bytes as it takes, and an assertion only where
// the key's version has one.
fn write_token(
    alloc: Global,
    key: &AnyKey,
    drawn: &[u8],
    text: &str,
    footer: Option<Footer<'_>>,
    assertion: Option<ImplicitAssertion<'_>>,
) -> Result<String, PasetoError>
    requires writes { writes_tokens (parts_of key.now).kind ≡ true }
    requires drawn { length drawn.now ≡ drawn_length (parts_of key.now).kind (parts_of key.now).version }
    requires bound { takes_assertion (parts_of key.now).version ≡ false → assertion ≡ None }
    ensures { IsWriteAnswer (writing_by (parts_of key.now) drawn.now (footer_of footer.entry)
        (assertion_of assertion.entry)) (is_some footer.entry) text.now result }
{
    let payload = Payload::from(text);
    match key {
        AnyKey::V1Local(key) => sealed::<V1>(alloc, key, drawn, payload, footer, assertion),
        AnyKey::V2Local(key) => boxed(alloc, key, drawn, payload, footer),
        AnyKey::V3Local(key) => sealed::<V3>(alloc, key, drawn, payload, footer, assertion),
        AnyKey::V4Local(key) => sealed::<V4>(alloc, key, drawn, payload, footer, assertion),
        AnyKey::V1Secret(key) => {
            let mut scheme = Salted::new(drawn);
            signed(alloc, &mut scheme, &key.lend(), payload, footer, assertion)
        }
        AnyKey::V2Secret(key) => signed(
            alloc,
            &mut Ed25519,
            &key.lend(),
            payload,
            footer,
            assertion,
        ),
        AnyKey::V3Secret(key) => signed(alloc, &mut P384, &key.lend(), payload, footer, assertion),
        AnyKey::V4Secret(key) => signed(
            alloc,
            &mut Ed25519,
            &key.lend(),
            payload,
            footer,
            assertion,
        ),
        AnyKey::V1Public(_) | AnyKey::V2Public(_) | AnyKey::V3Public(_) | AnyKey::V4Public(_) =>
            Err(PasetoError::InvalidKey),
    }
}

// The sealing of a text in versions 1, 3 and 4, with what was drawn for the nonce.
fn sealed<V: LocalVersion>(
    alloc: Global,
    key: &PasetoSymmetricKey<V, Local>,
    drawn: &[u8],
    payload: Payload<'_>,
    footer: Option<Footer<'_>>,
    assertion: Option<ImplicitAssertion<'_>>,
) -> Result<String, PasetoError>
    requires drawn { length drawn.now ≡ 32 }
    requires bound { V.design.binds_assertion ≡ false → assertion ≡ None }
    ensures { IsWriteAnswer (sealing_by V.design drawn.now (binding_of key.now footer.entry assertion.entry))
        (is_some footer.entry) (payload_text payload.entry) result }
{
    let seed = Key::<32>::from_slice(drawn);
    V::seal(
        alloc,
        key,
        &PasetoNonce::from(&seed),
        payload,
        footer,
        assertion,
    )
}

// The sealing of a text in version 2, by its box.
fn boxed(
    alloc: Global,
    key: &PasetoSymmetricKey<V2, Local>,
    drawn: &[u8],
    payload: Payload<'_>,
    footer: Option<Footer<'_>>,
) -> Result<String, PasetoError>
    requires { length drawn.now ≡ 24 }
    ensures { IsWriteAnswer (boxing_by drawn.now (binding_of key.now footer.entry None))
        (is_some footer.entry) (payload_text payload.entry) result }
{
    let seed = Key::<24>::from_slice(drawn);
    let mut paseto = Paseto::<V2, Local>::builder();
    paseto.set_payload(payload);
    if let Some(footer) = footer {
        paseto.set_footer(footer);
    }
    paseto.try_encrypt(alloc, &XChaCha20Poly1305, key, &PasetoNonce::from(&seed))
}

// The signing of a text by a version's scheme.
fn signed<V: Signs<S>, S>(
    alloc: Global,
    scheme: &mut S,
    key: &PasetoAsymmetricPrivateKey<'_, V, Public>,
    payload: Payload<'_>,
    footer: Option<Footer<'_>>,
    assertion: Option<ImplicitAssertion<'_>>,
) -> Result<String, PasetoError>
    requires { V.public_design.binds_assertion ≡ false → assertion ≡ None }
    ensures { IsWriteAnswer (signing_by V.valid V.declined V.partner V.public_design key.now
        (footer_of footer.entry) (assertion_of assertion.entry))
        (is_some footer.entry) (payload_text payload.entry) result }
{
    V::sign(alloc, scheme, key, payload, footer, assertion)
}
