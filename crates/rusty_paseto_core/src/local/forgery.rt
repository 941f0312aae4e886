//! The forgery of a tag that a token is if it was never issued.

ghost use Rattle.std.specs.Prelude.{◌≡◌, ◌↔◌, ◌<◌, ◌^◌, ◌≤◌, IsTrue, IfOk, IfErr, length, take};
ghost use Rattle.rusty_paseto_parts.specs.Error.{IsMemory};
ghost use Rattle.rusty_paseto_core.specs.Local.Forgery.{IsForgeryAnswer};
ghost use Rattle.rusty_paseto_core.specs.Local.Opened.{case_in, content_in, covered_in, nonce_and_tag_in, tag_in};
ghost use Rattle.rusty_paseto_core.specs.Local.TagCollision.{case_of, cases, encoding};

use crate::local::tag_collision::{Opened, Opening, cover_the_same, encoding_of, open_one};
use crate::local::{LocalSuite, LocalVersion, NONCE_LENGTH};
use crate::paseto::Paseto;
use crate::reading::nonce_of;
use rusty_paseto_parts::{Local, PasetoError, PreAuthenticationEncoding};
use std::alloc::Global;

/// A message and its tag, under the authentication key that the version derives from a token's key and this nonce.
#[derive(Drop)]
pub struct TagForgery {
    /// The token's nonce.
    pub nonce: [u8; 32],
    /// What the tag covers: the encoding of the token's header, nonce, ciphertext, footer and, in versions 3 and 4,
    /// implicit assertion.
    pub message: PreAuthenticationEncoding,
    /// The tag, of 48 bytes, or of 32 in version 4.
    pub tag: Vec<u8>,
}

impl<V: LocalVersion> Paseto<'_, V, Local> {
    /// What a token shows that decrypts: a tag of a message that no tag of the issued tokens under its key covers. `None`
    /// means that it is one of them, up to the dot before the section of an empty footer.
    ///
    /// So whoever makes a new token, without the key, from any number of issued ones has forged a tag: of HMAC-SHA384 in
    /// versions 1 and 3, of keyed BLAKE2b in version 4, as `laws::forgeries_are_new` and `laws::forgeries_are_tags` say.
    ///
    /// If the token cannot be decrypted, or one of those issued, the error is that of `try_decrypt` for the first of
    /// them, the token first; what was issued after one that the token is a spelling of is not decrypted. `Memory` may be
    /// returned in place of any result.
    pub fn forgery(
        alloc: Global,
        issued: &[Opening<'_, V>],
        token: Opening<'_, V>,
    ) -> Result<Option<TagForgery>, PasetoError>
        ensures { IsForgeryAnswer V.design (cases issued.now) (case_of token.entry) result }
    {
        find_forgery::<V>(alloc, issued, token)
    }
}

/// The tag of a token, unless it is one of those that were issued.
pub(crate) fn find_forgery<V: LocalSuite>(
    alloc: Global,
    issued: &[Opening<'_, V>],
    token: Opening<'_, V>,
) -> Result<Option<TagForgery>, PasetoError>
    ensures { IsForgeryAnswer V.design (cases issued.now) (case_of token.entry) result }
{
    let own = open_one::<V>(alloc, token)?;
    let found = forgery_of::<V>(alloc, &own)?;
    'each: for one in issued {
        let other = open_one::<V>(alloc, *one)?;
        if is_same::<V>(&other, &own) {
            return Ok(None);
        }
    }
    Ok(Some(found))
}

// The nonce of a token, its tag and what that covers.
fn forgery_of<V: LocalSuite>(
    alloc: Global,
    opened: &Opened<'_, V>,
) -> Result<TagForgery, PasetoError>
    requires { 32 ≤ length (nonce_and_tag_in opened.now) }
    ensures nonce { IfOk result (λ found. found.nonce ≡ take 32 (nonce_and_tag_in opened.now)) }
    ensures message { IfOk result (λ found. found.message ≡ encoding V.design (case_in opened.now)
        (content_in opened.now)) }
    ensures fits { IfOk result (λ found. length found.message < 2 ^ 64) }
    ensures tag { IfOk result (λ found. found.tag.items ≡ tag_in opened.now) }
    ensures err { IfErr result IsMemory }
{
    let nonce = nonce_of::<NONCE_LENGTH>(&opened.nonce_and_tag);
    let tag = Vec::from_slice(alloc, &opened.nonce_and_tag[NONCE_LENGTH..])?;
    let message = encoding_of::<V>(alloc, opened)?;
    Ok(TagForgery {
        nonce,
        message,
        tag,
    })
}

// Whether two tokens have one nonce, and their tags cover the same.
fn is_same<V: LocalSuite>(first: &Opened<'_, V>, second: &Opened<'_, V>) -> bool
    requires first { 32 ≤ length (nonce_and_tag_in first.now) }
    requires second { 32 ≤ length (nonce_and_tag_in second.now) }
    ensures { IsTrue result ↔ ((take 32 (nonce_and_tag_in first.now) ≡ take 32 (nonce_and_tag_in second.now))
        × (covered_in V.design first.now ≡ covered_in V.design second.now)) }
{
    let one = nonce_of::<NONCE_LENGTH>(&first.nonce_and_tag);
    let other = nonce_of::<NONCE_LENGTH>(&second.nonce_and_tag);
    one == other && cover_the_same::<V>(first, second)
}
