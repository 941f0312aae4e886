//! Laws about encrypting and decrypting, signing and verifying, the kind of a token, a nonce that is used twice, and a tag
//! that two tokens share. Each is the contract of a function that does nothing, over the definitions that the contracts of
//! `try_encrypt`, `try_decrypt`, `tag_collision`, `try_sign` and `try_verify` name.

ghost use Rattle.rusty_paseto_core.specs.Context.{Binding};
ghost use Rattle.rusty_paseto_core.specs.Kinds.{MessagesApart, NeverBoth, OneKind, ReadOneKind};
ghost use Rattle.rusty_paseto_core.specs.Laws.{BoxedSealingsOpen, BoxesHoldOneText, EmptyAssertionIsAbsent, EmptyFooterIsAbsent, SealingsHoldOneText, SealingsOpen, SignaturesHoldOneText, SigningsVerify, TextsHaveTheirForms};
ghost use Rattle.rusty_paseto_primitives.specs.Collision.{IsHmacCollision};
ghost use Rattle.rusty_paseto_core.specs.Local.BoxForgery.{BoxForgeriesAreNew};
ghost use Rattle.rusty_paseto_core.specs.Local.Boxed.{box_opening};
ghost use Rattle.rusty_paseto_core.specs.Local.Forgery.{ForgeriesAreNew, ForgeriesAreTags};
ghost use Rattle.rusty_paseto_core.specs.Local.Keystreams.{IsPadded, NonceReuseShows, PadHides, PayloadsShow, ReuseHides};
ghost use Rattle.rusty_paseto_core.specs.Local.Opening.{opening};
ghost use Rattle.rusty_paseto_core.specs.Local.SealedBox.{BoxSealing};
ghost use Rattle.rusty_paseto_core.specs.Local.TagCollision.{CollisionsShow, IsTagOfTwo};
ghost use Rattle.rusty_paseto_core.specs.Local.V1.{v1};
ghost use Rattle.rusty_paseto_core.specs.Local.V3.{v3};
ghost use Rattle.rusty_paseto_core.specs.Local.V4.{v4};
ghost use Rattle.rusty_paseto_core.specs.Public.{v1_public, v2_public, v3_public, v4_public};
ghost use Rattle.rusty_paseto_core.specs.Public.SignatureForgery.{SignatureForgeriesAreNew};
ghost use Rattle.rusty_paseto_core.specs.Public.Verifying.{verification};

use crate::local::LocalVersion;
use crate::local::sealed_box::SealedBox;
use crate::public::Verifies;

/// A token of `try_encrypt` decrypts to its text, with the same key, footer and implicit assertion.
pub fn sealings_open<V: LocalVersion>()
    ensures { SealingsOpen V.design }
{}

/// For one key, token nonce, footer and implicit assertion, two tokens decrypt to a text if the footer is empty, with
/// its section and without, and one otherwise.
pub fn texts_have_their_forms<V: LocalVersion>()
    ensures { TextsHaveTheirForms V.design }
{}

/// A token decrypts to at most one text, with one key, footer and implicit assertion.
pub fn sealings_hold_one_text<V: LocalVersion>()
    ensures { SealingsHoldOneText V.design }
{}

/// A token that a box encrypted decrypts to its text, with the same key and footer.
pub fn boxed_sealings_open()
    ensures { BoxedSealingsOpen }
{}

/// A token decrypts with a box to at most one text, with one key and footer.
pub fn boxes_hold_one_text()
    ensures { BoxesHoldOneText }
{}

/// A token of `try_sign` verifies as its text, with the same footer and implicit assertion, if the public key is that
/// of the private key.
pub fn signings_verify<V: Verifies<S>, S>()
    ensures { SigningsVerify V.valid V.refused V.public_design }
{}

/// A token verifies as at most one text, with one public key, footer and implicit assertion.
pub fn signatures_hold_one_text<V: Verifies<S>, S>()
    ensures { SignaturesHoldOneText V.valid V.refused V.public_design }
{}

/// An absent footer or implicit assertion is the same as the empty one: with both, the same tokens decrypt and verify
/// to the same texts, with the same errors.
pub fn empty_is_absent()
    ensures footer { EmptyFooterIsAbsent }
    ensures assertion { EmptyAssertionIsAbsent }
{}

/// A text is a token of one version and one purpose: no payloads and footers make it one of two.
pub fn tokens_have_one_kind()
    ensures { OneKind }
{}

/// A token that decrypts never verifies, under any keys, footers and implicit assertions, and in any versions. A token
/// that decrypts in two versions, or verifies in two, does so only if they are the same version. So neither versions nor
/// purposes can be confused, as the algorithms of a JSON Web Token can.
pub fn tokens_are_read_as_one_kind<
    V: LocalVersion,
    W: LocalVersion,
    X: Verifies<S>,
    S,
    Y: Verifies<T>,
    T,
>()
    ensures local { (a b : Binding) → ReadOneKind (opening V.design a) (opening W.design b) }
    ensures boxed { (box : BoxSealing) (a b : Binding) → ReadOneKind (box_opening box a) (opening V.design b) }
    ensures public { (a b : Binding) → ReadOneKind (verification X.valid X.refused X.public_design a)
        (verification Y.valid Y.refused Y.public_design b) }
    ensures purpose { (a b : Binding) → NeverBoth (opening V.design a)
        (verification X.valid X.refused X.public_design b) }
    ensures boxed_purpose { (box : BoxSealing) (a b : Binding) → NeverBoth (box_opening box a)
        (verification X.valid X.refused X.public_design b) }
{}

/// What is signed in one version is signed in no other, under any keys, texts, footers and implicit assertions: the
/// signature of a token covers no token of another version, even if one key is used for both.
pub fn messages_are_apart()
    ensures v1_v2 { MessagesApart v1_public v2_public }
    ensures v1_v3 { MessagesApart v1_public v3_public }
    ensures v1_v4 { MessagesApart v1_public v4_public }
    ensures v2_v3 { MessagesApart v2_public v3_public }
    ensures v2_v4 { MessagesApart v2_public v4_public }
    ensures v3_v4 { MessagesApart v3_public v4_public }
{}

/// Encryption is the exclusive or with a keystream that depends on the key, the nonce and the length alone, and each
/// ciphertext is that of each text of its length under exactly one keystream: of its text it shows nothing but the length
/// to those who know nothing of the keystream.
pub fn pad_hides()
    ensures v1 { IsPadded v1 }
    ensures v3 { IsPadded v3 }
    ensures v4 { IsPadded v4 }
    ensures hides { PadHides }
{}

/// Two tokens under one key and one token nonce show the exclusive or of their texts, up to the end of the shorter one,
/// whatever their footers and implicit assertions: it is that of their ciphertexts.
pub fn nonce_reuse_shows()
    ensures v1 { NonceReuseShows v1 }
    ensures v3 { NonceReuseShows v3 }
    ensures v4 { NonceReuseShows v4 }
    ensures v1_tokens { PayloadsShow v1 }
    ensures v3_tokens { PayloadsShow v3 }
    ensures v4_tokens { PayloadsShow v4 }
{}

/// That exclusive or is all that two ciphertexts under one keystream show: any two texts of their lengths that have it
/// have the same two ciphertexts, under some other keystream.
pub fn nonce_reuse_hides()
    ensures { ReuseHides }
{}

/// Two tokens of version 1 or 3 that share their nonce and their tag, but differ in the key, the text, the footer or,
/// in version 3, the implicit assertion, exhibit a collision of SHA-384: the inner or the outer inputs of the two HMACs
/// are different and have the same digest. Or else they exhibit two different keys that are split into the same
/// authentication key under the nonce.
pub fn collisions_show_sha384()
    ensures v1 { CollisionsShow v1 IsHmacCollision }
    ensures v3 { CollisionsShow v3 IsHmacCollision }
{}

/// Two tokens of one version that share their nonce and their tag, but differ in the key, the text, the footer or, if
/// the version has one, the implicit assertion, exhibit one tag of different authentication keys or encodings, which in
/// version 4 is a collision of BLAKE2b. Or else they exhibit two different keys that are split into the same
/// authentication key under the nonce.
pub fn collisions_show_tag<V: LocalVersion>()
    ensures { CollisionsShow V.design (IsTagOfTwo V.design) }
{}

/// What `forgery` finds in a token is new: the token is none of those that were issued, up to the dot before the section
/// of an empty footer.
pub fn forgeries_are_new<V: LocalVersion>()
    ensures { ForgeriesAreNew V.design }
{}

/// What `forgery` finds in a token is the tag of a message that no issued token has, whatever the key of that one,
/// under the same authentication key; unless the two exhibit two different keys that are split into the same
/// authentication key under the nonce.
pub fn forgeries_are_tags<V: LocalVersion>()
    ensures { ForgeriesAreTags V.design }
{}

/// What `forgery` finds in a token of version 2 is new: the token is none of those that were issued, up to the dot before
/// the section of an empty footer.
pub fn box_forgeries_are_new<B: SealedBox>()
    ensures { BoxForgeriesAreNew B.sealing }
{}

/// What `signature_forgery` finds in a token is new: the token is none of those that were issued, up to the dot before
/// the section of an empty footer.
pub fn signature_forgeries_are_new<V: Verifies<S>, S>()
    ensures { SignatureForgeriesAreNew V.valid V.refused V.public_design }
{}
