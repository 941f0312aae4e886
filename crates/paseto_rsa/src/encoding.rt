//! Encoded messages (RFC 8017, section 9.1).

ghost use Rattle.std.specs.Prelude.{◌≡◌, ◌↔◌, ◌++◌, length, IsTrue};
ghost use Rattle.paseto_rsa.specs.Encoding.{IsConsistent, emsa_pss_encode, padding, salted_hash};

use crate::mask::masked;
use sha2::{Digest, Sha384};

// The octet at the end of an encoded message.
const TRAILER: u8 = 0xbc;

// How many octets a block has: all but those of a hash and of the trailer.
const BLOCK_LENGTH: usize = 207;

// How many octets a hash has.
const HASH_LENGTH: usize = 48;

// How many octets of a block stand before the salt.
const PADDING_LENGTH: usize = 159;

// What stands before the salt.
fn padding() -> [u8; 159]
    ensures { result ≡ padding }
{
    let mut octets = [0; PADDING_LENGTH];
    octets[PADDING_LENGTH - 1] = 1;
    octets
}

// The hash of the hash of a message and a salt.
fn salted_hash(hash: &[u8], salt: &[u8]) -> [u8; 48]
    ensures { result ≡ salted_hash hash.now salt.now }
{
    let mut hasher = Sha384::new();
    hasher.update(&[0; 8]);
    hasher.update(hash);
    hasher.update(salt);
    hasher.finalize()
}

/// Whether an encoded message is consistent with the message whose hash this is (section 9.1.2).
pub(crate) fn is_consistent(hash: &[u8; 48], em: &[u8; 256]) -> bool
    ensures { IsTrue result ↔ IsConsistent hash.now em.now }
{
    if em[255] != TRAILER {
        return false;
    }
    if em[0] >= 128 {
        return false;
    }
    let (masked_block, rest) = em.split_at(BLOCK_LENGTH);
    let (hash_octets, _trailer) = rest.split_at(HASH_LENGTH);
    let block = masked(hash_octets, masked_block);
    let (front, salt) = block.split_at(PADDING_LENGTH);
    if front != padding().as_slice() {
        return false;
    }
    salted_hash(hash, salt).as_slice() == hash_octets
}

// What stands before the salt, and the salt.
fn padded(salt: &[u8; 48]) -> [u8; 207]
    ensures { result ≡ padding ++ salt.now }
{
    let mut block = [0; BLOCK_LENGTH];
    let (front, back) = block.split_at_mut(PADDING_LENGTH);
    front.copy_from_slice(&padding());
    back.copy_from_slice(salt);
    block
}

/// The encoded message of the message whose hash this is, with a salt (section 9.1.1).
pub(crate) fn encode(hash: &[u8; 48], salt: &[u8; 48]) -> [u8; 256]
    ensures { result ≡ emsa_pss_encode hash.now salt.now }
{
    let salted = salted_hash(hash, salt);
    let mut em = [TRAILER; 256];
    let (block, rest) = em.split_at_mut(BLOCK_LENGTH);
    block.copy_from_slice(&masked(&salted, &padded(salt)));
    let (middle, _trailer) = rest.split_at_mut(HASH_LENGTH);
    middle.copy_from_slice(&salted);
    em
}
