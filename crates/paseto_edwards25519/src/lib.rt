//! The curve edwards25519 (RFC 8032, section 5.1): its field, its points and their bytes, and numbers modulo the order
//! of its base point.
#![tactic(auto)]

pub mod bytes;
mod encoding;
pub mod field;
pub mod laws;
mod point;
mod scalar;

pub use encoding::{decode, encode};
pub use point::{
    ExtendedPoint, ProjectivePoint, flattened, has_small_order, multiply_base, multiply_both,
    negate,
};
pub use scalar::{Scalar, is_reduced, is_zero, multiply_add, reduce, to_bytes};
