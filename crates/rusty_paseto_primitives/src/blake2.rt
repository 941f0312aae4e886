//! BLAKE2b (RFC 7693), with a key or without one.

mod block;
mod chain;
pub mod hasher;
pub mod keyed;
mod lanes;
pub mod pair;
mod rows;
mod vectors;
