//! Known answers: published vectors and worked examples, and the calls that have to give them. They
//! test what no proof can see: that the definitions are the standards', and that calls succeed.
//!
//! What a caller brings to tokens, as a sealed box or a signature scheme, are the toys of
//! `test_toys`. The box and the schemes of the versions are tested in `boxes` and `schemes`.
#![tactic(auto)]

#[cfg(test)]
mod any_key;
#[cfg(test)]
mod argon2;
#[cfg(test)]
mod base64_of_secrets;
#[cfg(test)]
mod boxes;
#[cfg(test)]
mod counted;
#[cfg(test)]
mod encoding;
#[cfg(test)]
mod errors;
#[cfg(test)]
mod expect;
#[cfg(test)]
mod forgeries;
#[cfg(test)]
mod hexadecimal;
#[cfg(test)]
mod key_files;
#[cfg(test)]
mod keys;
#[cfg(test)]
mod montgomery;
#[cfg(test)]
mod paserk;
#[cfg(test)]
mod pbkdf2;
#[cfg(test)]
mod pem;
#[cfg(test)]
mod primitives;
#[cfg(test)]
mod schemes;
#[cfg(test)]
mod sealing;
#[cfg(test)]
mod sections;
#[cfg(test)]
mod texts;
#[cfg(test)]
mod untrusted;
#[cfg(test)]
mod wrapping;
#[cfg(test)]
mod x25519;
