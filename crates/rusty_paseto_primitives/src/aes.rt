//! AES with a key of 256 bits (FIPS 197), and its counter mode (SP 800-38A).

mod cipher;
mod circuit;
mod counter;
mod field;
mod group;
mod key_schedule;
mod planes;
mod state;

pub use cipher::Aes256;
pub use counter::aes256_ctr_apply;
