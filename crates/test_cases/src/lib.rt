//! What the calls of tokens, claims, builders and parsers answer, on the way on which all goes well and by each refusal.
//! They test what no proof can see: that calls succeed, and what a caller's own objects are asked.
//!
//! What a caller brings to tokens, as a sealed box or a signature scheme, are the toys of
//! `test_toys`. A test of tokens goes over all kinds of `kinds` that have what it looks at.
#![tactic(auto)]

#[cfg(test)]
mod builders;
#[cfg(test)]
mod claims;
#[cfg(test)]
mod defaults;
#[cfg(test)]
mod expect;
#[cfg(test)]
mod kinds;
#[cfg(test)]
mod parsers;
#[cfg(test)]
mod tokens;
