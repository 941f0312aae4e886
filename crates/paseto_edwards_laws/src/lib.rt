//! The group of a complete twisted Edwards curve with a = -1 over any prime, in affine points, and that of
//! edwards25519. Each law is the contract of a function that does nothing.
#![tactic(auto)]

mod edwards25519;
mod extended;
mod group;
mod multiples;

pub use edwards25519::{base_is_point, edwards25519_is_complete, multiples_of_base, order_of_base};
pub use extended::{
    added_is_sum, affine_coordinates, doubled_is_sum, negated_is_opposite, quotients_of_coordinates,
};
pub use group::{
    neutral_is_point, opposite_is_point, sum_associates, sum_commutes, sum_is_point,
    sum_is_quotient, sum_with_neutral, sum_with_opposite, sums_are_defined,
};
pub use multiples::{
    multiple_by_product, multiple_by_remainder, multiple_by_sum, multiple_is_point,
    multiple_of_opposite, multiple_of_sum, neutral_multiples, signature_sum,
};
