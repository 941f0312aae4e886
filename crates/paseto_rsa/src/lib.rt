//! RSASSA-PSS with SHA-384 (RFC 8017), the signature scheme of PASETO's public tokens in version 1.
#![tactic(auto)]

mod encoding;
mod forms;
mod integers;
mod mask;
mod private_key;
mod private_reading;
mod public_key;
mod reading;
mod rsa_pss;
mod signing;
mod verifying;

pub use forms::{
    is_public_key, private_key_from_pkcs1, private_key_to_pkcs1, public_key_from_info,
    public_key_of, public_key_to_info,
};
pub use private_reading::is_private_key;
pub use public_key::PublicKey;
pub use rsa_pss::RsaPss;
