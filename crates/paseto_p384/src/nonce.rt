//! Nonces that the private key and the message determine (RFC 6979, section 3.2), with HMAC-SHA384.

ghost use Rattle.std.specs.Prelude.{◌≡◌};
ghost use Rattle.paseto_p384.specs.Nonce.{drawn, mixed, retried, started};

use rusty_paseto_primitives::{HmacSha384, hmac_sha384};

/// K and V of the generator.
#[derive(Clone, Copy)]
pub(crate) struct NonceGenerator {
    pub(crate) key: [u8; 48],
    pub(crate) value: [u8; 48],
}

// HMAC of V, an octet, the private key and the hash, under K.
fn mixed(key: &[u8; 48], value: &[u8; 48], octet: u8, private: &[u8], hash: &[u8]) -> [u8; 48]
    ensures { result ≡ mixed key.now value.now octet private.now hash.now }
{
    let mut hasher = HmacSha384::new(key);
    hasher.update(value);
    hasher.update(&[octet]);
    hasher.update(private);
    hasher.update(hash);
    hasher.finalize()
}

impl NonceGenerator {
    /// The generator for a private key and a hash that is reduced modulo n (steps b to g).
    pub(crate) fn start(private: &[u8], hash: &[u8]) -> NonceGenerator
        ensures { result ≡ started private.now hash.now }
    {
        let ones = [1; 48];
        let k = mixed(&[0; 48], &ones, 0, private, hash);
        let v = hmac_sha384(&k, &ones);
        let key = mixed(&k, &v, 1, private, hash);
        NonceGenerator {
            key,
            value: hmac_sha384(&key, &v),
        }
    }

    /// The generator whose value is the next candidate (step h, 2).
    pub(crate) fn draw(self) -> NonceGenerator
        ensures { result ≡ drawn self }
    {
        NonceGenerator {
            key: self.key,
            value: hmac_sha384(&self.key, &self.value),
        }
    }

    /// The generator after a candidate that was no nonce (step h, 3).
    pub(crate) fn retry(self) -> NonceGenerator
        ensures { result ≡ retried self }
    {
        let mut hasher = HmacSha384::new(&self.key);
        hasher.update(&self.value);
        hasher.update(&[0]);
        let key = hasher.finalize();
        NonceGenerator {
            key,
            value: hmac_sha384(&key, &self.value),
        }
    }
}
