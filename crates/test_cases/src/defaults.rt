//! Default builders and parsers of tokens.

mod at_most;
mod causes;
mod claims;
mod examples;
mod key_rings;
mod kinds;
mod limited_seats;
mod limits;
mod moments;
mod primes;
mod public_rings;
mod repeated;
mod required;
mod ring_parsing;
mod rows;
mod times;
mod validators;
