//! Known answers of the primitives.

mod ciphers;
mod cuts;
mod digests;
mod macs;
mod streams;
