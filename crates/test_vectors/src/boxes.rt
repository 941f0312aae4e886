//! Sealed boxes: XChaCha20-Poly1305, against values of standards and of another implementation, and
//! the toy by itself.

mod cuts;
mod refusals;
mod sealings;
mod tags;
mod toys;
mod two_keys;

// The key and the nonce of the draft.
const KEY: &str = "808182838485868788898a8b8c8d8e8f909192939495969798999a9b9c9d9e9f";

const NONCE: &str = "404142434445464748494a4b4c4d4e4f5051525354555657";
