//! The tag of a local token, over the pieces that its version binds.

ghost use Rattle.std.specs.Prelude.{◌≡◌, ℕ, List, length};
ghost use Rattle.rusty_paseto_core.specs.Context.{bound};
ghost use Rattle.rusty_paseto_core.specs.Local.Sealing.{tag_of};

use crate::context::Context;
use crate::local::LocalSuite;
use rusty_paseto_parts::{Header, Local};

/// How many bytes the longest tag has.
pub(crate) const LONGEST_TAG: usize = 48;

/// Writes the tag of a ciphertext over the pieces that the version binds.
pub(crate) fn write_tag<V: LocalSuite>(
    keys: &V::Keys,
    nonce: &[u8; 32],
    ciphertext: &[u8],
    context: &Context<'_>,
    tag: &mut [u8],
)
    requires { length tag.old ≡ V.design.tag_length }
    ensures { (key : List ℕ) → V.IsSplit keys.now key nonce.now
        → tag.new ≡ tag_of V.design (bound key context.now) nonce.now ciphertext.now }
{
    let header = Header::<V, Local>::default();
    let pieces = context.five_pieces(header.as_bytes(), nonce, ciphertext);
    if V::binds_assertion() {
        V::write_tag(keys, &pieces, tag);
    } else {
        V::write_tag(keys, &pieces[..4], tag);
    }
}
