//! Laws of the box. Each function does nothing, and its contract is the theorem.

ghost use Rattle.rusty_paseto_core.specs.Local.Keystreams.{BoxesShow};
ghost use Rattle.paseto_xchacha20poly1305.specs.Forgery.{ForgeriesAreTags};
ghost use Rattle.paseto_xchacha20poly1305.specs.Sealing.{box_sealing};

/// Two boxes under one key and one nonce show the exclusive or of their texts, up to the end of the shorter one, whatever
/// data they bind: it is that of their ciphertexts.
pub fn nonce_reuse_shows()
    ensures { BoxesShow box_sealing }
{}

/// What `forgery` of `Paseto<V2, Local>` finds in a token is a forgery of Poly1305: a tag under the one-time key of the
/// token's key and nonce, of a message that the tag of no issued token with that key and nonce covers.
pub fn forgeries_are_tags()
    ensures { ForgeriesAreTags }
{}
