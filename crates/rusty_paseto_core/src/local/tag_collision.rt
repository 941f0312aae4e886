//! Finding two tokens with the same nonce and tag.

ghost use Rattle.std.specs.Prelude.{◌≡◌, ◌↔◌, ◌++◌, ◌<◌, ◌^◌, ◌≤◌, ◌⊎◌, All, IsTrue, IfOk, IfErr, length, map};
ghost use Rattle.rusty_paseto_parts.specs.Error.{IsMemory};
ghost use Rattle.rusty_paseto_core.specs.Context.{bound};
ghost use Rattle.rusty_paseto_core.specs.Local.Opened.{AreOpened, IsOpened, IsPair, IsPairIn, IsUnopened, case_in, content_in, covered_in};
ghost use Rattle.rusty_paseto_core.specs.Local.Opening.{HasRoom, nonce_in, tag_in};
ghost use Rattle.rusty_paseto_core.specs.Local.TagCollision.{IsCollision, IsCollisionAnswer, IsFirstFault, case_of, cases, encoding};

use crate::context::Context;
use crate::local::opening::open_payload;
use crate::local::{LocalSuite, LocalVersion, NONCE_LENGTH};
use crate::paseto::Paseto;
use crate::reading::{nonce_of, unframe};
use rusty_paseto_parts::{
    Footer, Header, ImplicitAssertion, Local, PasetoError, PasetoSymmetricKey,
    PreAuthenticationEncoding,
};
use std::alloc::{AllocError, Global};
use std::collections::BTreeMap;

/// A token, and the key, the footer and the implicit assertion to decrypt it with.
#[derive_where(Clone, Copy)]
pub struct Opening<'a, V> {
    /// The key.
    pub key: &'a PasetoSymmetricKey<V, Local>,
    /// The token.
    pub token: &'a str,
    /// The footer. An absent one is the empty one.
    pub footer: Option<Footer<'a>>,
    /// The implicit assertion. An absent one is the empty one. Version 1 ignores it.
    pub assertion: Option<ImplicitAssertion<'a>>,
}

/// Two tokens with the same nonce and the same tag, but different texts, keys, footers or implicit assertions.
#[derive(Drop)]
pub struct TagCollision {
    /// The positions of the two among the openings, from 0.
    pub places: [usize; 2],
    /// What the tag of the first covers: the encoding of its header, nonce, ciphertext, footer and, in versions 3 and
    /// 4, implicit assertion.
    pub first: PreAuthenticationEncoding,
    /// The same for the second.
    pub second: PreAuthenticationEncoding,
    /// The tag of both, of 48 bytes, or of 32 in version 4.
    pub tag: Vec<u8>,
}

/// What is kept of a token that was opened.
#[derive(Drop)]
pub(crate) struct Opened<'a, V> {
    opening: Opening<'a, V>,
    /// The token's nonce, followed by its tag.
    pub(crate) nonce_and_tag: Vec<u8>,
    text: String,
}

impl<V: LocalVersion> Paseto<'_, V, Local> {
    /// Looks for two of the openings with the same nonce and tag that differ in the key, the text, the footer or, in
    /// versions 3 and 4, the implicit assertion.
    ///
    /// Two such tokens are a collision: of SHA-384 in versions 1 and 3, of BLAKE2b in version 4, or of the derivation
    /// of the authentication key, as `laws::collisions_show_sha384` and `laws::collisions_show_tag` say. `None` means
    /// that there are none: each nonce and tag determine one key and one content. The same content twice under one key
    /// is not a collision.
    ///
    /// All tokens are decrypted first, and all texts are kept until the end. The openings are then looked up by nonce
    /// and tag, so the time does not grow with the square of their number.
    ///
    /// If a token cannot be decrypted, the error is that of `try_decrypt` for the first such token. `Memory` may be
    /// returned in place of any result.
    ///
    /// ```rust
    /// use rusty_paseto_core::{
    ///     Local, Opening, Paseto, PasetoError, PasetoSymmetricKey, TagCollision, V4,
    /// };
    /// use std::alloc::Global;
    ///
    /// /// The collision that two tokens under one key are, if they share nonce and tag and differ in their text.
    /// pub fn find_collision(
    ///     alloc: Global,
    ///     key: &PasetoSymmetricKey<V4, Local>,
    ///     first: &str,
    ///     second: &str,
    /// ) -> Result<Option<TagCollision>, PasetoError> {
    ///     Paseto::<V4, Local>::tag_collision(alloc, &[opening(key, first), opening(key, second)])
    /// }
    ///
    /// fn opening<'a>(key: &'a PasetoSymmetricKey<V4, Local>, token: &'a str) -> Opening<'a, V4> {
    ///     Opening {
    ///         key,
    ///         token,
    ///         footer: None,
    ///         assertion: None,
    ///     }
    /// }
    /// ```
    pub fn tag_collision(
        alloc: Global,
        openings: &[Opening<'_, V>],
    ) -> Result<Option<TagCollision>, PasetoError>
        ensures { IsCollisionAnswer V.design (cases openings.now) result }
    {
        find_collision::<V>(alloc, openings)
    }
}

/// Two of the openings that share their nonce and their tag and differ in what the tag covers.
pub(crate) fn find_collision<V: LocalSuite>(
    alloc: Global,
    openings: &[Opening<'_, V>],
) -> Result<Option<TagCollision>, PasetoError>
    ensures { IsCollisionAnswer V.design (cases openings.now) result }
{
    let opened = open_all::<V>(alloc, openings)?;
    let Some((i, j)) = find_pair::<V>(alloc, &opened)? else {
        return Ok(None);
    };
    let found = collision_of::<V>(alloc, &opened, i, j)?;
    Ok(Some(found))
}

// Opens all tokens, in their order.
fn open_all<'a, V: LocalSuite>(
    alloc: Global,
    openings: &[Opening<'a, V>],
) -> Result<Vec<Opened<'a, V>>, PasetoError>
    ensures ok { IfOk result (λ opened. AreOpened V.design (cases openings.now) opened.items) }
    ensures err { IfErr result (λ error. IsMemory error
        ⊎ IsFirstFault V.design (cases openings.now) error) }
{
    let mut opened = Vec::with_capacity(alloc, openings.len())?;
    'openings: for opening in openings {
        let kept = open_one::<V>(alloc, *opening)?;
        match opened.push(kept) {
            Ok(()) => {}
            Err(error) => return Err(AllocError::from(error).into()),
        }
    }
    Ok(opened)
}

/// Opens a token, and keeps its nonce, its tag and its text.
pub(crate) fn open_one<'a, V: LocalSuite>(
    alloc: Global,
    opening: Opening<'a, V>,
) -> Result<Opened<'a, V>, PasetoError>
    ensures ok { IfOk result (λ opened. (case_in opened ≡ case_of opening.entry)
        × IsOpened V.design opened) }
    ensures err { IfErr result (IsUnopened V.design (case_of opening.entry)) }
{
    let context = Context::new(opening.footer, opening.assertion);
    let payload = unframe::<V, Local>(alloc, opening.token, context.footer())?;
    let nonce_and_tag = seal_of::<V>(alloc, &payload)?;
    let text = open_payload::<V>(payload, opening.key.as_bytes(), &context)?;
    Ok(Opened {
        opening,
        nonce_and_tag,
        text,
    })
}

// The nonce of a payload, and its tag behind it.
fn seal_of<V: LocalSuite>(alloc: Global, payload: &[u8]) -> Result<Vec<u8>, PasetoError>
    ensures ok { IfOk result (λ nonce_and_tag. nonce_and_tag.items ≡ nonce_in payload.now
        ++ tag_in V.design payload.now) }
    ensures err { IfErr result (λ error. IsMemory error
        ⊎ ((error ≡ PasetoError.IncorrectSize) × (¬ HasRoom V.design payload.now))) }
{
    if payload.len() < NONCE_LENGTH + V::tag_length() {
        return Err(PasetoError::IncorrectSize);
    }
    let end = payload.len() - V::tag_length();
    let mut nonce_and_tag = Vec::with_capacity(alloc, NONCE_LENGTH + V::tag_length())?;
    nonce_and_tag.extend_from_slice(&nonce_of::<NONCE_LENGTH>(payload))?;
    nonce_and_tag.extend_from_slice(&payload[end..])?;
    Ok(nonce_and_tag)
}

// The places of two tokens that have one nonce and tag, which covers two keys or contents. Each token is
// compared with the first of its nonce_and_tag alone.
fn find_pair<'a, V: LocalSuite>(
    alloc: Global,
    opened: &'a [Opened<'_, V>],
) -> Result<Option<(usize, usize)>, AllocError>
    ensures { IfOk result (IsPairIn V.design opened.now) }
{
    let mut firsts: BTreeMap<&'a [u8], usize> = BTreeMap::new(alloc);
    'places: for place in 0..opened.len() {
        let kept = &opened[place];
        let nonce_and_tag = kept.nonce_and_tag.as_slice();
        if let Some(first) = firsts.insert(nonce_and_tag, place)? {
            if !cover_the_same::<V>(&opened[first], kept) {
                return Ok(Some((first, place)));
            }
            // The first one stays, and not the last.
            firsts.insert(nonce_and_tag, first)?;
        }
    }
    Ok(None)
}

/// Whether the tags of two tokens cover the same.
pub(crate) fn cover_the_same<V: LocalSuite>(first: &Opened<'_, V>, second: &Opened<'_, V>) -> bool
    ensures { IsTrue result ↔ (covered_in V.design first.now ≡ covered_in V.design second.now) }
{
    let one = Context::new(first.opening.footer, first.opening.assertion);
    let other = Context::new(second.opening.footer, second.opening.assertion);
    first.opening.key.as_bytes() == second.opening.key.as_bytes()
        && first.text == second.text
        && one.footer() == other.footer()
        && (!V::binds_assertion() || one.assertion() == other.assertion())
}

// What shows the collision: the places of two tokens with one nonce and tag, and what that tag was made of.
fn collision_of<V: LocalSuite>(
    alloc: Global,
    opened: &[Opened<'_, V>],
    i: usize,
    j: usize,
) -> Result<TagCollision, PasetoError>
    requires each { All (IsOpened V.design) opened.now }
    requires pair { IsPair V.design opened.now i j }
    ensures ok { IfOk result (IsCollision V.design (map case_in opened.now)) }
    ensures err { IfErr result IsMemory }
{
    let first = &opened[i];
    let second = &opened[j];
    let tag = Vec::from_slice(alloc, &first.nonce_and_tag[NONCE_LENGTH..])?;
    Ok(TagCollision {
        places: [i, j],
        first: encoding_of::<V>(alloc, first)?,
        second: encoding_of::<V>(alloc, second)?,
        tag,
    })
}

/// What the tag of a token is made of.
pub(crate) fn encoding_of<V: LocalSuite>(
    alloc: Global,
    opened: &Opened<'_, V>,
) -> Result<PreAuthenticationEncoding, PasetoError>
    requires { 32 ≤ length opened.now.nonce_and_tag.items }
    ensures ok { IfOk result (λ made. made ≡ encoding V.design (case_in opened.now)
        (content_in opened.now)) }
    ensures fits { IfOk result (λ made. length made < 2 ^ 64) }
    ensures err { IfErr result IsMemory }
{
    let nonce = nonce_of::<NONCE_LENGTH>(&opened.nonce_and_tag);
    let keys = V::split(opened.opening.key.as_bytes(), &nonce);
    let mut ciphertext = Vec::from_slice(alloc, opened.text.as_bytes())?;
    V::apply_keystream(&keys, &mut ciphertext);
    let context = Context::new(opened.opening.footer, opened.opening.assertion);
    let header = Header::<V, Local>::default();
    let pieces = context.five_pieces(header.as_bytes(), &nonce, &ciphertext);
    let count = if V::binds_assertion() { 5 } else { 4 };
    PreAuthenticationEncoding::parse(alloc, &pieces[..count])
}
