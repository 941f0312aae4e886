//! A version of local tokens in which all tags are the same.

ghost use Rattle.std.specs.Prelude.{◌==◌, ⊤, true, replicate, codes, length, Some, []};
ghost use Rattle.std.proofs.Common.{refl, rules};
ghost use Rattle.rusty_paseto_primitives.proofs.BlockBytes.{IsBytes-serialized};
ghost use Rattle.rusty_paseto_core.specs.HeaderLaws.{IsHeader-known};
ghost use Rattle.rusty_paseto_core.specs.Local.{local};

use rusty_paseto_core::{ImplicitAssertionCapable, LocalSuite, VersionTrait};
use std::fmt;

/// A version under the name of version 4, with neither secrecy nor authenticity: a text is its own ciphertext, and the
/// tag of each encoding is 32 zero bytes. So any two tokens under one nonce share a tag.
#[derive(Clone, Copy, Debug, Default)]
pub struct OneTag;

impl VersionTrait for OneTag {
    ghost text = { codes "v4" };

    ghost nonce_length = { λ n. n == 32 };

    ghost is_private_key = { λ _. true };

    ghost is_public_key = { λ key. length key == 32 };

    fn as_str(&self) -> &str {
        "v4"
    }

    fn is_private_key(_bytes: &[u8]) -> bool {
        true
    }

    fn is_public_key(bytes: &[u8]) -> bool {
        bytes.len() == 32
    }

    ghost has_nonce_of_32 = { refl };
}

impl ImplicitAssertionCapable for OneTag {}

impl fmt::Display for OneTag {
    ghost output = { λ _. Some (codes "v4") };

    fn fmt<W: fmt::Write>(&self, f: &mut fmt::Formatter<W>) -> fmt::Result {
        f.write_str(self.as_str())
    }
}

/// No keys.
#[derive(Clone, Copy)]
pub struct NoKeys;

#[tactic(auto, unfolding(rusty_paseto_parts::specs::Header::header_text))]
impl LocalSuite for OneTag {
    type Keys = NoKeys;

    ghost design = { record {
      version = codes "v4";
      binds_assertion = true;
      apply_keystream = λ key nonce bytes. bytes;
      authentication_key = λ key nonce. [];
      tag = λ key encoding. replicate 32 0;
      tag_length = 32;
      token_nonce = λ seed text. seed;
    } };

    ghost IsSplit = { λ keys key nonce. ⊤ };

    fn tag_length() -> usize {
        32
    }

    fn binds_assertion() -> bool {
        true
    }

    fn token_nonce(seed: &[u8], _text: &[u8]) -> [u8; 32] {
        let mut nonce = [0u8; 32];
        nonce.copy_from_slice(seed);
        nonce
    }

    fn split(_key: &[u8; 32], _nonce: &[u8; 32]) -> NoKeys {
        NoKeys
    }

    fn apply_keystream(_keys: &NoKeys, _bytes: &mut [u8]) {}

    fn write_tag(_keys: &NoKeys, _pieces: &[&[u8]], tag: &mut [u8]) {
        tag.copy_from_slice(&[0u8; 32]);
    }

    ghost lawful = { record {
      length_applied = λ key nonce bytes. refl;
      applied_twice = λ key nonce bytes. refl;
      bytes_applied = λ key nonce bytes is. is;
      length_tag = λ key message. refl;
      bytes_tag = λ key message. IsBytes-serialized (replicate 8 0);
      is_header = IsHeader-known (codes "v4") local refl refl;
      nonce = λ seed text is. is;
    } };

    ghost has_version = { refl };

    ghost short_tag = { Prim.search rules };

    ghost has_nonces_of_32_alone = { Prim.search rules };
}
