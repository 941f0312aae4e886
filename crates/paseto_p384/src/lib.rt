//! ECDSA over P-384 with SHA-384 (FIPS 186-5), the signature scheme of PASETO's public tokens in version 3, and key
//! agreement with keys of that curve (SEC 1, section 3.3.1).
#![tactic(auto)]

mod agreement;
mod ecdsa;
mod encoding;
mod field;
mod laws;
mod nonce;
mod p384;
mod point;
mod scalar;

pub use agreement::AgreementError;
pub use laws::{
    shared_point_is_finite, shared_secret_is_common, signatures_are_valid, signatures_have_a_twin,
};
pub use p384::P384;
