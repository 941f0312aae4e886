//! The versions of public tokens.

ghost use Rattle.std.specs.Prelude.{codes};
ghost use Rattle.std.proofs.Common.{refl, lit≤};
ghost use Rattle.rusty_paseto_core.specs.HeaderLaws.{IsHeader-known};
ghost use Rattle.rusty_paseto_core.specs.Public.{lawful, public, v1_public, v2_public, v3_public, v4_public};

use crate::public::PublicSuite;
use rusty_paseto_parts::{V1, V2, V3, V4};

/// How many bytes a private key of Ed25519 has, in versions 2 and 4: a seed and the public key.
const PRIVATE_KEY_LENGTH: usize = 64;

#[tactic(auto, unfolding(rusty_paseto_parts::specs::Header::header_text))]
impl PublicSuite for V1 {
    ghost public_design = { v1_public };

    fn signs_key() -> bool {
        false
    }

    fn signs_assertion() -> bool {
        false
    }

    fn has_private_length(_private: &[u8]) -> bool {
        true
    }

    ghost public_lawful = { lawful v1_public (IsHeader-known (codes "v1") public refl refl)
        (lit≤ tt) };
}

#[tactic(auto, unfolding(rusty_paseto_parts::specs::Header::header_text))]
impl PublicSuite for V2 {
    ghost public_design = { v2_public };

    fn signs_key() -> bool {
        false
    }

    fn signs_assertion() -> bool {
        false
    }

    fn has_private_length(private: &[u8]) -> bool {
        private.len() == PRIVATE_KEY_LENGTH
    }

    ghost public_lawful = { lawful v2_public (IsHeader-known (codes "v2") public refl refl)
        (lit≤ tt) };
}

#[tactic(auto, unfolding(rusty_paseto_parts::specs::Header::header_text))]
impl PublicSuite for V3 {
    ghost public_design = { v3_public };

    fn signs_key() -> bool {
        true
    }

    fn signs_assertion() -> bool {
        true
    }

    fn has_private_length(_private: &[u8]) -> bool {
        true
    }

    ghost public_lawful = { lawful v3_public (IsHeader-known (codes "v3") public refl refl)
        (lit≤ tt) };
}

#[tactic(auto, unfolding(rusty_paseto_parts::specs::Header::header_text))]
impl PublicSuite for V4 {
    ghost public_design = { v4_public };

    fn signs_key() -> bool {
        false
    }

    fn signs_assertion() -> bool {
        true
    }

    fn has_private_length(private: &[u8]) -> bool {
        private.len() == PRIVATE_KEY_LENGTH
    }

    ghost public_lawful = { lawful v4_public (IsHeader-known (codes "v4") public refl refl)
        (lit≤ tt) };
}
