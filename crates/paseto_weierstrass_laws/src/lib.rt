//! The points of P-384, their sums by complete formulas, and their multiples, as laws: each is the contract of a
//! function that does nothing.
#![tactic(auto)]

mod curve;
mod group;
mod multiples;
mod same;

pub use curve::{base_is_point, inverse_of_element, neutral_is_point, no_point_of_order_two};
pub use group::{
    double_is_sum, sum_associates, sum_by_chord, sum_by_tangent, sum_commutes, sum_is_point,
    sum_of_same, sum_with_neutral, sum_with_opposite,
};
pub use multiples::{
    joint_multiple_is_sum, multiple_by_product, multiple_by_remainder, multiple_by_sum,
    multiple_is_point, multiples_of_base, order_of_base, order_of_points,
};
pub use same::{equal_quotients, quotients_of_same, same_is_equivalence, same_is_point};
