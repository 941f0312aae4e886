//! What the calls of the library for C do, as functions that return results: `paseto_c` exports a call over each of them,
//! which hands a result over to C.
#![tactic(auto)]

pub mod admit;
pub mod admit_by;
pub mod answer;
pub mod arguments;
pub mod claims;
pub mod error_text;
pub mod fault;
pub mod given;
pub mod held_key;
pub mod issue;
pub mod key_calls;
mod key_forms;
pub mod laws;
pub mod refusal;
pub mod tokens;
pub mod wanted;

pub use fault::Fault;
pub use held_key::HeldKey;
pub use refusal::Refusal;
pub use wanted::Wanted;
