//! Version 4: BLAKE2b splits the key and makes the tag, XChaCha20 encrypts the text (PASETO
//! specification, "Version 4").

ghost use Rattle.std.specs.Prelude.{◌≡◌, ◌++◌, ℕ, List, true, map, length, take, drop};
ghost use Rattle.rusty_paseto_primitives.specs.Blake2.Hasher.{Holds, output_length};
ghost use Rattle.rusty_paseto_primitives.specs.Blake2.Keyed.{blake2b};
ghost use Rattle.rusty_paseto_parts.specs.PreAuthenticationEncoding.{pae};
ghost use Rattle.rusty_paseto_core.specs.Local.V4.{v4, authentication_key, encryption_key, stream_nonce};
ghost use Rattle.rusty_paseto_core.specs.Local.V4Laws.{v4-IsLawful, v4-short_tag, v4-version};
ghost use Rattle.std.proofs.Common.{◌∙◌, append_assoc, rules, subst};

use crate::local::{AUTHENTICATION, ENCRYPTION, LocalSuite, info};
use rusty_paseto_parts::{Absorb, V4, absorb_pieces};
use rusty_paseto_primitives::{Blake2b, blake2b_keyed_pair, xchacha20_apply};
use std::convert::Infallible;

/// The keys of a token.
#[derive(Clone, Copy)]
pub struct SodiumKeys {
    encryption_key: [u8; 32],
    /// The nonce of the keystream.
    stream_nonce: [u8; 24],
    authentication_key: [u8; 32],
}

#[tactic(auto, unfolding(crate::specs::Local::V4::v4, rusty_paseto_parts::specs::Header::header_text))]
impl LocalSuite for V4 {
    type Keys = SodiumKeys;

    ghost design = { v4 };

    ghost IsSplit = { λ keys key nonce. (keys.encryption_key ≡ encryption_key key nonce)
        × (keys.stream_nonce ≡ stream_nonce key nonce)
        × (keys.authentication_key ≡ authentication_key key nonce) };

    fn tag_length() -> usize {
        32
    }

    fn binds_assertion() -> bool {
        true
    }

    fn token_nonce(seed: &[u8], _text: &[u8]) -> [u8; 32] {
        let mut nonce = [0u8; 32];
        nonce.copy_from_slice(seed);
        nonce
    }

    fn split(key: &[u8; 32], nonce: &[u8; 32]) -> SodiumKeys {
        let encryption_info: [u8; 53] = info(ENCRYPTION, nonce);
        let authentication_info: [u8; 56] = info(AUTHENTICATION, nonce);
        let (keys, authentication_key): ([u8; 56], [u8; 32]) = blake2b_keyed_pair(
            key,
            &encryption_info,
            &authentication_info,
        );
        SodiumKeys {
            encryption_key: encryption_key(&keys),
            stream_nonce: stream_nonce(&keys),
            authentication_key,
        }
    }

    fn apply_keystream(keys: &SodiumKeys, bytes: &mut [u8]) {
        xchacha20_apply(&keys.encryption_key, &keys.stream_nonce, bytes);
    }

    fn write_tag(keys: &SodiumKeys, pieces: &[&[u8]], tag: &mut [u8]) {
        write_blake2b(&keys.authentication_key, pieces, tag);
    }

    ghost lawful = { v4-IsLawful };

    ghost has_version = { v4-version };

    ghost short_tag = { v4-short_tag };

    ghost has_nonces_of_32_alone = { Prim.search rules };
}

fn encryption_key(keys: &[u8; 56]) -> [u8; 32]
    ensures { result ≡ take 32 keys.now }
{
    let mut key = [0u8; 32];
    key.copy_from_slice(&keys[..32]);
    key
}

// The nonce of the keystream.
fn stream_nonce(keys: &[u8; 56]) -> [u8; 24]
    ensures { result ≡ drop 32 keys.now }
{
    let mut nonce = [0u8; 24];
    nonce.copy_from_slice(&keys[32..]);
    nonce
}

// A BLAKE2b hasher that absorbs an encoding.
struct Blake2bTag(Blake2b);

impl Absorb for Blake2bTag {
    type Error = Infallible;

    ghost absorbed = { λ first bytes second. (output_length second.0 ≡ output_length first.0)
        × ((key : List ℕ) (n : ℕ) (message : List ℕ) → Holds first.0 key n message
        → Holds second.0 key n (message ++ bytes)) };

    fn absorb(&mut self, bytes: &[u8]) -> Result<(), Infallible> {
        self.0.update(bytes);
        Ok(())
    }

    ghost joined = { λ first second third front back a b. (
      b.0 ∙ a.0,
      λ key n message held.
          subst (λ m. Holds third.0 key n m) (append_assoc message front back)
          (b.1 key n (message ++ front) (a.1 key n message held)),
    ) };
}

// Writes the BLAKE2b tag of the pieces, of 32 bytes.
fn write_blake2b(key: &[u8; 32], pieces: &[&[u8]], tag: &mut [u8])
    requires { length tag.old ≡ 32 }
    ensures { tag.new ≡ blake2b key.now 32 (pae (map (λ piece. piece.now) pieces.now)) }
{
    let mut hasher = Blake2bTag(Blake2b::new(key, 32));
    let Ok(()) = absorb_pieces(pieces, &mut hasher);
    let Blake2bTag(hasher) = hasher;
    hasher.finalize_into(tag);
}
