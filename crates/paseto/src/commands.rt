//! The commands on claims, `issue` and `check`, over any generator, input and outputs.

pub mod answers;
pub mod check;
pub mod claim_line;
pub mod claims;
pub mod each;
pub mod footer;
pub mod issue;
pub mod ring;
pub mod run;
pub mod times;
