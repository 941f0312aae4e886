//! A private key whose numbers are made ready.

use crate::public_key::PublicKey;
use paseto_montgomery::Modulus;

/// A private key of RSA in its second form (RFC 8017, section 3.2), with two factors.
#[derive(Drop)]
pub(crate) struct PrivateKey {
    pub(crate) public: PublicKey,
    pub(crate) p: Modulus<16>,
    pub(crate) q: Modulus<16>,
    pub(crate) dp: [u64; 16],
    pub(crate) dq: [u64; 16],
    pub(crate) qinv: [u64; 16],
}
