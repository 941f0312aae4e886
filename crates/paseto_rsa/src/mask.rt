//! The mask of a hash (RFC 8017, appendix B.2.1).

ghost use Rattle.std.specs.Prelude.{◌≡◌, ◌++◌, ◌<◌, take, length};
ghost use Rattle.sha2.specs.Sha512.{sha384};
ghost use Rattle.paseto_montgomery.specs.Octets.{i2osp};
ghost use Rattle.paseto_rsa.specs.Encoding.{masked};
ghost use Rattle.paseto_rsa.specs.Mask.{mgf1_blocks, xor_octets};

use sha2::{Digest, Sha384};

// How many octets a digest has.
const HASH_LENGTH: usize = 48;

// The digest of the seed and a counter.
fn block(seed: &[u8], counter: u8) -> [u8; 48]
    ensures { result ≡ sha384 (seed.now ++ i2osp counter 4) }
{
    let mut hasher = Sha384::new();
    hasher.update(seed);
    hasher.update(&[0, 0, 0, counter]);
    hasher.finalize()
}

// T: the digests of the seed and each of five counters.
fn joined_digests(seed: &[u8]) -> [u8; 240]
    ensures { result ≡ mgf1_blocks seed.now 5 }
{
    let mut octets = [0; 240];
    'digests: for i in 0..5usize {
        octets[HASH_LENGTH * i..HASH_LENGTH * i + HASH_LENGTH].copy_from_slice(&block(
            seed, i as u8,
        ));
    }
    octets
}

// The exclusive or of a block and a mask that is as long or longer.
fn mixed(block: &[u8], mask: &[u8]) -> [u8; 207]
    requires size { length block.now ≡ 207 }
    requires long { 207 < length mask.now }
    ensures { result ≡ xor_octets block.now (take 207 mask.now) }
{
    let mut octets = [0; 207];
    'octets: for i in 0..207usize {
        octets[i] = block[i] ^ mask[i];
    }
    octets
}

/// The exclusive or of a block and the mask of a hash, with its first bit set to zero.
pub(crate) fn masked(hash: &[u8], block: &[u8]) -> [u8; 207]
    requires { length block.now ≡ 207 }
    ensures { result ≡ masked hash.now block.now }
{
    let mut octets = mixed(block, &joined_digests(hash));
    octets[0] %= 128;
    octets
}
