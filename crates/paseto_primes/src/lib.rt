//! Prime numbers, numbers modulo a prime, and identities of polynomials modulo a number, which a check proves by
//! computing normal forms. Each law is the contract of a function that does nothing.
#![tactic(auto)]

mod certified;
mod digits;
mod element;
mod identity;
mod polynomial;
mod power;
mod prime;
mod program;
mod reduction;
mod root;

pub use certified::{
    chain_of_certificates, field_of_edwards25519_is_prime, field_of_p384_is_prime,
    order_of_edwards25519_is_prime, order_of_p384_is_prime, pocklington, pocklington_divisor,
};
pub use digits::digits_by_turns;
pub use element::elements_are_values;
pub use identity::{equal_by_equations, equal_by_equations_modulo, equal_by_form, equal_modulo};
pub use polynomial::values_of_polynomials;
pub use power::{fermat, inverse, repeated_squaring};
pub use prime::{common_factor, euclid, prime_divisor};
pub use program::{equal_after_program, values_of_programs};
pub use reduction::{equal_by_rules, equal_elements_by_rules, values_of_reduced};
pub use root::{nonresidue, root_five_of_eight, root_of_quotient, root_three_of_four, two_roots};
